// Tokens, and why a text isn't cut into them.
ghost use Rattle.std.specs.Prelude.{◌≡◌};
ghost use Rattle.sql_lex.specs.declared.token.LexFault.TheVariants.{Memory};

use std::alloc::{AllocError, AllocFailed};

/// What a token is.
#[derive(Clone, Copy, PartialEq, Eq)]
pub enum TokenKind {
    /// An ASCII letter and the ASCII letters, digits and `_` behind it. Keywords are words too.
    Word,
    /// `[`, any text without `]`, and `]`.
    Bracketed,
    /// A text between single quotes, in which two stand for one.
    Text,
    /// Decimal digits, with `-` before them or not.
    Number,
    /// `$` with a word or a bracketed name right behind it.
    Variable,
    /// One of `* , . ( ) = <> < <= > >=`.
    Sign,
}

/// A token: the bytes of the text from `start` up to `end`.
#[derive(Clone, Copy, PartialEq, Eq)]
pub struct Token {
    pub kind: TokenKind,
    pub start: usize,
    pub end: usize,
}

/// Why a text isn't cut into tokens.
#[derive(Clone, Copy, PartialEq, Eq)]
pub enum LexFault {
    /// The offset of the first byte of the first piece that is no token. A text or a bracket that isn't closed is
    /// no token, and its first byte is the one that opens it.
    InvalidQuery(usize),
    /// Memory was refused.
    Memory,
}

impl From<AllocError> for LexFault {
    ghost from_gives = { λ _ e. e ≡ Memory };

    fn from(_: AllocError) -> LexFault {
        LexFault::Memory
    }
}

impl<T: Drop> From<AllocFailed<T>> for LexFault {
    ghost from_gives = { λ _ e. e ≡ Memory };

    fn from(_: AllocFailed<T>) -> LexFault {
        LexFault::Memory
    }
}
