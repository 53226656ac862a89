// The conditions of an update.
ghost use Rattle.std.specs.Prelude.{◌≡◌, IfOk, None, Some};
ghost use Rattle.std.specs.Option.{option_copied};
ghost use Rattle.oak_doc.specs.Updates.{holds, kept};

use crate::{Cond, Document, Kept};
use jr_path::DeepCopy;
use std::alloc::AllocError;

// Whether a condition holds of the document, if there is one.
pub(crate) fn is_held(before: Option<&Document>, cond: Cond) -> bool
    ensures { result ≡ holds (option_copied before.entry) cond }
{
    match before {
        Some(document) => is_held_by(document, cond),
        None => is_held_by_none(cond),
    }
}

// Whether a condition holds of the document.
fn is_held_by(document: &Document, cond: Cond) -> bool
    ensures { result ≡ holds (Some document.now) cond }
{
    match cond {
        Cond::NoCollision(r) => !document.collisions.contains(&r),
        Cond::NotCommitted(r) => !document.revisions.contains(&r),
        Cond::Unchanged(number) => document.mod_count == number && number != u64::MAX,
        Cond::Exists => true,
        Cond::Missing => false,
    }
}

// Whether a condition holds where there is no document.
fn is_held_by_none(cond: Cond) -> bool
    ensures { result ≡ holds None cond }
{
    match cond {
        Cond::NoCollision(_) | Cond::NotCommitted(_) | Cond::Missing => true,
        Cond::Unchanged(_) | Cond::Exists => false,
    }
}

// What stands against a condition.
pub(crate) fn kept_against(before: Option<&Document>, cond: Cond) -> Result<Kept, AllocError>
    ensures { IfOk result (λ found. found ≡ kept (option_copied before.entry) cond) }
{
    let Some(document) = before else {
        return Ok(Kept::Nothing);
    };
    match cond {
        Cond::NoCollision(r) => match document.collisions.get(&r) {
            Some((other, item)) => Ok(Kept::Entry(*other, item.copy()?)),
            None => Ok(Kept::Nothing),
        },
        Cond::Unchanged(_) => Ok(Kept::Number(document.mod_count)),
        _ => Ok(Kept::Nothing),
    }
}
