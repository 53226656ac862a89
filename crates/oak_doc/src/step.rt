// One update of one document.
ghost use Rattle.std.specs.Prelude.{◌≡◌, IfOk, OnOk, fold};
ghost use Rattle.std.specs.Option.{option_copied};
ghost use Rattle.oak_doc.specs.Updates.{IsUpdateAnswer, after_changes, changed, updated};

use crate::change::apply_change;
use crate::condition::{is_held, kept_against};
use crate::{Change, Document, OpFault, UpdateOp};
use jr_path::{DeepCopy, List};
use std::alloc::{AllocError, Global};

/// One update of one document, or of none: the document after it, with the number as its `_modCount`.
/// Refused where there is no document and none is to be made, and else where the condition is false.
pub fn apply_op(
    alloc: Global,
    before: Option<&Document>,
    op: &UpdateOp,
    number: u64,
) -> Result<Document, OpFault>
    ensures { IsUpdateAnswer result (updated (option_copied before.entry) op.now number) }
{
    if before.is_none() && !op.create {
        return Err(OpFault::Absent);
    }
    if let Some(cond) = op.cond {
        if !is_held(before, cond) {
            return Err(OpFault::Unmet(cond, kept_against(before, cond)?));
        }
    }
    Ok(changed_document(alloc, before, op, number)?)
}

// The document, or an empty one, after the changes of the update, with the number.
fn changed_document(
    alloc: Global,
    before: Option<&Document>,
    op: &UpdateOp,
    number: u64,
) -> Result<Document, AllocError>
    ensures { IfOk result (λ document. document ≡ after_changes (option_copied before.entry) op.now number) }
{
    let mut document = match before {
        Some(document) => document.copy()?,
        None => Document::empty(alloc, op.id.copy()?),
    };
    apply_changes(alloc, &mut document, &op.changes)?;
    document.mod_count = number;
    Ok(document)
}

// The changes of a document, in their order.
fn apply_changes(
    alloc: Global,
    document: &mut Document,
    changes: &List<Change>,
) -> Result<(), AllocError>
    ensures { OnOk result (document.new ≡ fold changed document.old changes.now) }
{
    for change in changes.inner() {
        apply_change(alloc, document, change)?;
    }
    Ok(())
}
