// Why a JSON value is no document.
ghost use Rattle.std.specs.Prelude.{◌≡◌};
ghost use Rattle.jr_docs_read.specs.declared.fault.DocFault.TheVariants.{Memory};
ghost use Rattle.jr_path.specs.declared.fault.PathFault.TheVariants as path;

use jr_path::PathFault;
use std::alloc::{AllocError, AllocFailed};
use thiserror::Error;

/// Why a JSON value is no document.
#[derive(Clone, Copy, Debug, PartialEq, Eq, Drop, Error)]
pub enum DocFault {
    /// It isn't the JSON of any document.
    #[error("the JSON is that of no document")]
    NotADocument,
    /// Memory was refused.
    #[error("out of memory")]
    Memory,
}

impl From<AllocError> for DocFault {
    ghost from_gives = { λ _ e. e ≡ Memory };

    fn from(_: AllocError) -> DocFault {
        DocFault::Memory
    }
}

impl<T: Drop> From<AllocFailed<T>> for DocFault {
    ghost from_gives = { λ _ e. e ≡ Memory };

    fn from(_: AllocFailed<T>) -> DocFault {
        DocFault::Memory
    }
}

/// The fault of a text that is no path or no name.
pub fn fault_of(fault: PathFault) -> DocFault
    ensures { fault ≡ path.Memory → result ≡ Memory }
{
    match fault {
        PathFault::Memory => DocFault::Memory,
        _ => DocFault::NotADocument,
    }
}
