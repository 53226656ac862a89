// Tokens with what they say.
use jr_path::{Name, Path, Text};
use jr_value::Value;

/// A sign.
#[derive(Clone, Copy, PartialEq, Eq)]
pub enum Sign {
    Star,
    Comma,
    Dot,
    Open,
    Close,
    Equal,
    Unequal,
    Less,
    AtMost,
    Greater,
    AtLeast,
}

/// What a token says.
#[derive(Drop)]
pub enum Says {
    /// A word: a keyword, or a name.
    Word(Name),
    /// A name in brackets.
    Bracketed(Name),
    /// A path in brackets.
    Path(Path),
    /// A text, the path that it is, if it is one, and the value that it has as the kind that the second token behind
    /// it names, if `AS` stands between them.
    Text(Text, Option<Path>, Option<Value>),
    /// A number.
    Number(i64),
    /// The value of a bind variable.
    Variable(Value),
    Sign(Sign),
    /// Nothing that could stand anywhere.
    Nothing,
}

/// What a token says, and the offset of its first byte.
pub struct Placed {
    pub start: usize,
    pub says: Says,
}

// By hand, so that its parts are let go in one call.
impl Drop for Placed {
    fn drop(self) {
        let Placed { start: _, says } = self;
        drop(says);
    }
}
