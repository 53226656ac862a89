// The limits of the nodes that an edit adds.
ghost use Rattle.std.specs.Prelude.{◌≡◌, IfErr, IfOk, None, OnOk};
ghost use Rattle.jr_items.specs.Refusals.{IsTheRefusal};
ghost use Rattle.jcr_lock.specs.Locks.{IsDue, IsDueRefusal};
ghost use Rattle.jcr_version.specs.Limits.{added_limit, within_limits, write_limit};

use jr_items::check_limits;
use jr_tree::{Edit, Refusal, Write};
use std::alloc::Global;

/// The edit itself, where each node that it adds has a path of at most 64 names and 1,024 bytes. Refused
/// 15 by the first such path, in the order of the writes, that passes a limit, the names before the bytes.
pub fn within_limits(alloc: Global, edit: Edit) -> Result<Edit, Refusal>
    ensures ok { IfOk result (IsDue (within_limits edit.writes)) }
    ensures err { IfErr result (IsDueRefusal (within_limits edit.writes)) }
{
    match check_added(alloc, edit.writes.as_slice()) {
        Ok(()) => Ok(edit),
        Err(refusal) => Err(refusal),
    }
}

// The paths of the nodes that the writes add are within the limits.
fn check_added(alloc: Global, writes: &[Write]) -> Result<(), Refusal>
    ensures ok { OnOk result (added_limit writes.now ≡ None) }
    ensures err { IfErr result (IsTheRefusal (added_limit writes.now)) }
{
    for write in writes {
        check_write(alloc, write)?;
    }
    Ok(())
}

// The path of the node that the write adds is within the limits.
fn check_write(alloc: Global, write: &Write) -> Result<(), Refusal>
    ensures ok { OnOk result (write_limit write.now ≡ None) }
    ensures err { IfErr result (IsTheRefusal (write_limit write.now)) }
{
    match write {
        Write::Here(path) => check_limits(alloc, path),
        _ => Ok(()),
    }
}
