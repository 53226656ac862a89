// Tokens, and what they say.
use jr_path::{Name, Text};
use jr_value::Value;

/// A sign.
#[derive(Clone, Copy, PartialEq, Eq)]
pub enum Sign {
    Less,
    Greater,
    Equal,
    Comma,
    Open,
    Close,
    OpenSquare,
    CloseSquare,
    Minus,
    Plus,
    Star,
    Bang,
}

/// What a token is: letters, digits, `_`, `-`, `.` and `:`; a text in quotes; or a sign.
#[derive(Clone, Copy)]
pub enum TokenKind {
    Bare,
    Quoted,
    Sign(Sign),
}

/// What a token says.
#[derive(Drop)]
pub enum Says {
    /// A bare token that is a name, as words are.
    Name(Name),
    /// A bare token that is no name.
    Bare(Text),
    /// A text, the name that it is, if it is one, and the value that it is as a default, where one stands here.
    Quoted(Text, Option<Name>, Option<Value>),
    Sign(Sign),
    /// Nothing that could stand anywhere.
    Nothing,
}

/// What a token says, and the offset of its first byte.
pub struct Placed {
    pub start: usize,
    pub says: Says,
}

// By hand, so that its parts are let go in one call.
impl Drop for Placed {
    fn drop(self) {
        let Placed { start: _, says } = self;
        drop(says);
    }
}
