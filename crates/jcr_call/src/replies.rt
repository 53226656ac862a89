// Texts of replies.
ghost use Rattle.std.specs.Prelude.{◌≡◌, IfOk, string_bytes};
ghost use Rattle.jr_items.specs.Names.{version_storage};
ghost use Rattle.jr_items.specs.Refusals.{out_of_memory, own_rule};
ghost use Rattle.jcr_trans.specs.Texts.{answer_text};
ghost use Rattle.jcr_version.specs.Edits.{checked_in_version};
ghost use Rattle.jcr_law.specs.Commits.{unwritten_answer, version_answer};
ghost use Rattle.jcr_law.specs.Law.{no_text};
ghost use Rattle.jcr_law.specs.Queries.{events_reply};
ghost use Rattle.jcr_law.specs.State.{Call};

use crate::versions::{storage, version_told};
use jcr_observe::{JcrEvent, events_text};
use jcr_trans::{Command, null_reply, refusal_text, text_reply};
use jr_items::own_rule;
use jr_path::Path;
use jr_tree::{Refusal, Tree};
use std::alloc::{AllocError, Global};

/// The reply of a refusal that doesn't stand for want of memory; for one that does, memory is
/// wanted here.
pub fn cause_text(alloc: Global, refusal: &Refusal) -> Result<String, AllocError>
    ensures { IfOk result (λ text. ¬ (refusal.now ≡ out_of_memory)
        × (string_bytes text ≡ no_text refusal.now)) }
{
    if refusal.number == 16 {
        return Err(AllocError);
    }
    refusal_text(alloc, refusal)
}

// The text of a cause, of a refusal that nobody needs any more.
pub(crate) fn cause_told(alloc: Global, refusal: Refusal) -> Result<String, AllocError>
    ensures { IfOk result (λ text. ¬ (refusal ≡ out_of_memory)
        × (string_bytes text ≡ no_text refusal)) }
{
    let text = cause_text(alloc, &refusal);
    drop(refusal);
    text
}

/// The reply that shows events (JSR 283, 12.3 Events): `ok` and their JSON, as `ok [[1,"/a"]]`.
pub fn events_reply(alloc: Global, shown: &[JcrEvent]) -> Result<String, AllocError>
    ensures { IfOk result (λ reply. string_bytes reply ≡ events_reply shown.now) }
{
    let text = events_text(alloc, shown)?;
    Ok(format!(in alloc; "ok {text}")?)
}

/// The reply that shows the version that a check-in of a node makes, or that is the node's base
/// version where it is checked in (JSR 283, 15.2 Check-In); `null` where there is none.
pub fn version_reply(alloc: Global, tree: &Tree, path: &Path) -> Result<String, AllocError>
    ensures { IfOk result (λ reply. string_bytes reply
        ≡ answer_text (version_answer (checked_in_version tree.now path.now))) }
{
    match version_told(alloc, tree, path)? {
        Some(name) => text_reply(alloc, name.as_str()),
        None => null_reply(alloc),
    }
}

// The reply where nothing has to be written.
pub(crate) fn unwritten_reply(
    alloc: Global,
    base: &Tree,
    command: &Command,
) -> Result<String, AllocError>
    ensures { (c : Call) → base.now ≡ c.base → IfOk result (λ reply. string_bytes reply
        ≡ answer_text (unwritten_answer c command.now)) }
{
    match command {
        Command::Checkin(path) => version_reply(alloc, base, path),
        _ => null_reply(alloc),
    }
}

// The reply where the writes are not proper.
pub(crate) fn improper_reply(alloc: Global) -> Result<String, AllocError>
    ensures { IfOk result (λ reply. string_bytes reply ≡ no_text (own_rule version_storage)) }
{
    let storage = storage(alloc)?;
    cause_told(alloc, own_rule(alloc, &storage))
}
