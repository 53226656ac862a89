// Why a text is no query.
ghost use Rattle.std.specs.Prelude.{◌≡◌};
ghost use Rattle.sql_pieces.specs.declared.fault.SqlFault.TheVariants.{Memory};

use jr_value::Kind;
use std::alloc::{AllocError, AllocFailed};
use thiserror::Error;

/// Why a text is no query.
#[derive(Clone, Copy, Debug, PartialEq, Eq, Drop, Error)]
pub enum SqlFault {
    /// The offset of the first byte of the first token that can't stand there, or the text's length at its end.
    #[error("the query goes wrong at byte {0}")]
    InvalidQuery(usize),
    /// The kind in a CAST, and STRING: its text has no value of that kind.
    #[error("a value of kind {0:?} is required, and one of kind {1:?} was found")]
    Cast(Kind, Kind),
    /// Memory was refused.
    #[error("memory was refused")]
    Memory,
}

impl From<AllocError> for SqlFault {
    ghost from_gives = { λ _ e. e ≡ Memory };

    fn from(_: AllocError) -> SqlFault {
        SqlFault::Memory
    }
}

impl<T: Drop> From<AllocFailed<T>> for SqlFault {
    ghost from_gives = { λ _ e. e ≡ Memory };

    fn from(_: AllocFailed<T>) -> SqlFault {
        SqlFault::Memory
    }
}
