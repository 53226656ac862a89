// What is answered to an update, to a removal and by a memory, before any of them changes.
ghost use Rattle.std.specs.Prelude.{◌≡◌, IfOk, map};
ghost use Rattle.std.specs.Option.{option_copied};
ghost use Rattle.oak_gc.specs.Bounding.{node_reply};
ghost use Rattle.oak_store.specs.Tables.{removal_of};
ghost use Rattle.oak_acts.specs.Acts.{reply_of};
ghost use Rattle.oak_tidy.specs.Replies.{node_tells};

use jr_path::{DeepCopy, DocId, List};
use jr_rev::Pin;
use oak_doc::{Document, OpFault, RemoveOut, Reply, UpdateOp, apply_op};
use oak_node::NodeMem;
use oak_store::DocTable;
use std::alloc::{AllocError, Global};

// What the documents will answer to an update, which isn't made yet.
pub(crate) fn update_reply(
    alloc: Global,
    table: &DocTable,
    op: &UpdateOp,
) -> Result<Reply, AllocError>
    ensures { IfOk result (λ reply. reply ≡ reply_of table.now op.now) }
{
    let before = table.find(&op.id);
    match apply_op(alloc, before, op, 0) {
        Ok(after) => {
            drop(after);
            Ok(Reply::Updated(copied(before)?))
        }
        Err(OpFault::Unmet(cond, kept)) => Ok(Reply::Unmet(cond, kept)),
        Err(OpFault::Absent) => Ok(Reply::Absent),
        Err(OpFault::Memory) => Err(AllocError),
    }
}

fn copied(document: Option<&Document>) -> Result<Option<Document>, AllocError>
    ensures { IfOk result (λ copy. copy ≡ option_copied document.entry) }
{
    match document {
        Some(document) => Ok(Some(document.copy()?)),
        None => Ok(None),
    }
}

// What the documents will answer to a removal, which isn't made yet.
pub(crate) fn removal_reply(table: &DocTable, id: &DocId, number: u64) -> RemoveOut
    ensures { result ≡ removal_of table.now id.now number }
{
    let Some(document) = table.find(id) else {
        return RemoveOut::Absent;
    };
    if document.mod_count != number || number == u64::MAX {
        return RemoveOut::Changed(document.mod_count);
    }
    RemoveOut::Removed
}

// What a cluster node tells a collection.
pub(crate) fn memory_reply(alloc: Global, memory: &NodeMem) -> Result<Reply, AllocError>
    ensures { IfOk result (λ reply. reply ≡ node_reply (node_tells memory.now)) }
{
    if memory.is_recovered() {
        return Ok(Reply::Gone);
    }
    Ok(Reply::Pins {
        head: memory.head(),
        sweep: memory.sweep(),
        pins: pins_of(alloc, memory.pins())?,
    })
}

// The pins without their owners.
fn pins_of(alloc: Global, owned: &[(u32, Pin)]) -> Result<List<Pin>, AllocError>
    ensures { IfOk result (λ pins. pins ≡ map (λ e. e.1) owned.now) }
{
    let mut pins = List::new(alloc);
    for (_, pin) in owned {
        pins.push(*pin)?;
    }
    Ok(pins)
}
