// Why documents can't be opened.
ghost use Rattle.std.specs.Prelude.{◌≡◌};
ghost use Rattle.oak_open.specs.declared.fault.OpenFault.TheVariants.{Memory};

use std::alloc::{AllocError, AllocFailed};
use thiserror::Error;

/// Why documents can't be opened.
#[derive(Clone, Copy, Debug, PartialEq, Eq, Drop, Error)]
pub enum OpenFault {
    /// The first rule that is broken, and the first document in store order that breaks it, counted
    /// from 0.
    #[error("document {document} breaks rule {rule}")]
    Unsound { rule: u8, document: usize },
    /// Memory was refused.
    #[error("out of memory")]
    Memory,
}

impl From<AllocError> for OpenFault {
    ghost from_gives = { λ _ e. e ≡ Memory };

    fn from(_: AllocError) -> OpenFault {
        OpenFault::Memory
    }
}

impl<T: Drop> From<AllocFailed<T>> for OpenFault {
    ghost from_gives = { λ _ e. e ≡ Memory };

    fn from(_: AllocFailed<T>) -> OpenFault {
        OpenFault::Memory
    }
}
