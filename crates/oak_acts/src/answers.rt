// What the documents answer to readers, one document at a time.
ghost use Rattle.std.specs.Prelude.{◌≡◌, IfOk};
ghost use Rattle.std.specs.Option.{option_copied};
ghost use Rattle.oak_read.specs.Reading.{answer};

use jr_path::DeepCopy;
use oak_doc::{Ask, Document, Reply};
use oak_store::DocTable;
use std::alloc::AllocError;

/// What the documents answer to an ask that changes none.
pub fn answer(table: &DocTable, asking: Ask) -> Result<Reply, AllocError>
    ensures { IfOk result (λ reply. reply ≡ answer table.now.documents asking) }
{
    match asking {
        Ask::Find(id) => {
            let found = copied(table.find(&id));
            drop(id);
            Ok(Reply::Found(found?))
        }
        Ask::NextAfter(id) => {
            let found = copied(table.next_after(id.as_ref()));
            drop(id);
            Ok(Reply::Found(found?))
        }
        other => {
            drop(other);
            Ok(Reply::Found(None))
        }
    }
}

fn copied(document: Option<&Document>) -> Result<Option<Document>, AllocError>
    ensures { IfOk result (λ copy. copy ≡ option_copied document.entry) }
{
    match document {
        Some(document) => Ok(Some(document.copy()?)),
        None => Ok(None),
    }
}
