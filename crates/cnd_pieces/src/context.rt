// Where a token stands, as far as its reading depends on it.
ghost use Rattle.std.specs.Prelude.{◌≡◌};
ghost use Rattle.cnd_pieces.specs.Pieces.{after_close, after_comma, after_equal, after_star, after_text, after_word, context_after, default_kind, is_behind_less, named_in};

use crate::piece::{Says, Sign};
use crate::words::kind_named;
use jr_value::Kind;

/// Where a token stands: right behind `<`, where a prefix may; or on the way to the defaults of a property, with their kind.
#[derive(Clone, Copy)]
pub enum Context {
    /// None of the following.
    Elsewhere,
    /// Right behind `<`.
    BehindLess,
    /// Right behind `(`.
    Opened,
    /// Behind `(` and the word of a kind.
    Named(Kind),
    /// Behind these and `)`.
    Closed(Kind),
    /// Where a default of this kind may stand: behind `=`, or behind another and a comma.
    Default(Kind),
    /// Right behind a default.
    Listed(Kind),
}

// The kind of the defaults of a property of this kind.
fn default_kind(kind: Option<Kind>) -> Kind
    ensures { result ≡ default_kind kind }
{
    match kind {
        Some(kind) => kind,
        None => Kind::Str,
    }
}

fn named_in(kind: Option<Option<Kind>>) -> Context
    ensures { result ≡ named_in kind }
{
    match kind {
        Some(kind) => Context::Named(default_kind(kind)),
        None => Context::Elsewhere,
    }
}

impl Context {
    // Behind a word.
    fn after_word(self, word: &str) -> Context
        ensures { result ≡ after_word self word.now }
    {
        match self {
            Context::Opened => named_in(kind_named(word)),
            _ => Context::Elsewhere,
        }
    }

    // Behind `*`.
    fn after_star(self) -> Context
        ensures { result ≡ after_star self }
    {
        match self {
            Context::Opened => Context::Named(Kind::Str),
            _ => Context::Elsewhere,
        }
    }

    // Behind `)`.
    fn after_close(self) -> Context
        ensures { result ≡ after_close self }
    {
        match self {
            Context::Named(kind) => Context::Closed(kind),
            _ => Context::Elsewhere,
        }
    }

    // Behind `=`.
    fn after_equal(self) -> Context
        ensures { result ≡ after_equal self }
    {
        match self {
            Context::Closed(kind) => Context::Default(kind),
            _ => Context::Default(Kind::Str),
        }
    }

    // Behind `,`.
    fn after_comma(self) -> Context
        ensures { result ≡ after_comma self }
    {
        match self {
            Context::Listed(kind) => Context::Default(kind),
            _ => Context::Elsewhere,
        }
    }

    // Behind a text.
    fn after_text(self) -> Context
        ensures { result ≡ after_text self }
    {
        match self {
            Context::Default(kind) => Context::Listed(kind),
            _ => Context::Elsewhere,
        }
    }

    // Behind a token that says this.
    pub(crate) fn after(self, says: &Says) -> Context
        ensures { result ≡ context_after self says.now }
    {
        match says {
            Says::Name(word) => self.after_word(word.as_str()),
            Says::Bare(_) => Context::Elsewhere,
            Says::Quoted(_, _, _) => self.after_text(),
            Says::Sign(sign) => self.after_sign(*sign),
            Says::Nothing => Context::Elsewhere,
        }
    }

    // Behind a sign.
    fn after_sign(self, sign: Sign) -> Context
        ensures { result ≡ context_after self (Says.Sign sign) }
    {
        match sign {
            Sign::Less => Context::BehindLess,
            Sign::Open => Context::Opened,
            Sign::Close => self.after_close(),
            Sign::Equal => self.after_equal(),
            Sign::Comma => self.after_comma(),
            Sign::Star => self.after_star(),
            _ => Context::Elsewhere,
        }
    }

    pub(crate) fn is_behind_less(self) -> bool
        ensures { result ≡ is_behind_less self }
    {
        match self {
            Context::BehindLess => true,
            _ => false,
        }
    }
}
