// Why a text is no name or no path.
ghost use Rattle.std.specs.Prelude.{◌≡◌};
ghost use Rattle.jr_path.specs.declared.fault.PathFault.TheVariants.{Memory};

use std::alloc::{AllocError, AllocFailed};
use thiserror::Error;

/// Why a text is no name, or no path within the limits. Faults of the grammar come before limits, and the
/// limit on names before that on bytes.
#[derive(Clone, Copy, Debug, PartialEq, Eq, Drop, Error)]
pub enum PathFault {
    /// The offset of the first byte that no name has there, or the text's length where the name isn't whole.
    #[error("no name goes on at byte {0}")]
    BadName(usize),
    /// The offset of the first byte that no path has there, or the text's length where the path isn't whole.
    #[error("no path goes on at byte {0}")]
    BadPath(usize),
    /// The path has this many names, more than 64.
    #[error("the path has {0} names")]
    TooDeep(usize),
    /// The path's text has this many bytes, more than 1,024.
    #[error("the path has {0} bytes")]
    TooLong(usize),
    /// Memory was refused.
    #[error("memory was refused")]
    Memory,
}

impl From<AllocError> for PathFault {
    ghost from_gives = { λ _ e. e ≡ Memory };

    fn from(_: AllocError) -> PathFault {
        PathFault::Memory
    }
}

impl<T: Drop> From<AllocFailed<T>> for PathFault {
    ghost from_gives = { λ _ e. e ≡ Memory };

    fn from(_: AllocFailed<T>) -> PathFault {
        PathFault::Memory
    }
}
