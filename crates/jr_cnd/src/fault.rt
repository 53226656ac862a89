// Why a text has no type definitions.
ghost use Rattle.std.specs.Prelude.{◌≡◌};
ghost use Rattle.jr_cnd.specs.declared.fault.NoCnd.TheVariants.{Memory};

use std::alloc::{AllocError, AllocFailed};
use thiserror::Error;

/// Why type definitions aren't read from a text.
#[derive(Clone, Copy, Debug, PartialEq, Eq, Drop, Error)]
pub enum NoCnd {
    /// The offset of the first byte of the first token that can't stand there, or the text's length where something is
    /// missing at its end. A text or a comment that isn't closed is such a token, by its beginning, and so is a default
    /// that is no value of its property's kind.
    #[error("the text fails at byte {0}")]
    Syntax(usize),
    /// The text is in the grammar, and this is the offset of the `[` of the first definition that `Registry::add` refuses
    /// over the built-in types and the definitions before it.
    #[error("the definition at byte {0} can't be registered")]
    BadDef(usize),
    /// Memory was refused.
    #[error("memory was refused")]
    Memory,
}

impl From<AllocError> for NoCnd {
    ghost from_gives = { λ _ e. e ≡ Memory };

    fn from(_: AllocError) -> NoCnd {
        NoCnd::Memory
    }
}

impl<T: Drop> From<AllocFailed<T>> for NoCnd {
    ghost from_gives = { λ _ e. e ≡ Memory };

    fn from(_: AllocFailed<T>) -> NoCnd {
        NoCnd::Memory
    }
}
