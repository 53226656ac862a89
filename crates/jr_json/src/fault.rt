// Why a JSON value is no property.
ghost use Rattle.std.specs.Prelude.{◌≡◌};
ghost use Rattle.jr_json.specs.declared.fault.ValueFault.TheVariants.{Memory};

use jr_value::Kind;
use std::alloc::{AllocError, AllocFailed};
use thiserror::Error;

/// Why a JSON value is no property.
#[derive(Clone, Copy, Debug, PartialEq, Eq, Drop, Error)]
pub enum ValueFault {
    /// The kind that is required and the kind that was found: of a list's first item and of its first item of
    /// another kind. Where no two kinds differ, both are the kind whose form is begun, or STRING.
    #[error("a value of kind {0:?} is required, and one of kind {1:?} was found")]
    ValueFormat(Kind, Kind),
    /// Memory was refused.
    #[error("out of memory")]
    Memory,
}

impl From<AllocError> for ValueFault {
    ghost from_gives = { λ _ e. e ≡ Memory };

    fn from(_: AllocError) -> ValueFault {
        ValueFault::Memory
    }
}

impl<T: Drop> From<AllocFailed<T>> for ValueFault {
    ghost from_gives = { λ _ e. e ≡ Memory };

    fn from(_: AllocFailed<T>) -> ValueFault {
        ValueFault::Memory
    }
}
