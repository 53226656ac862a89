// What a `checkpoint` begins with.
ghost use Rattle.std.specs.Prelude.{◌<◌, ◌≤◌, IfOk};
ghost use Rattle.jr_tree.specs.declared.shared.Who.{Who};
ghost use Rattle.jcr_call.specs.Checkpoints.{IsNextOf};

use crate::{cause_text, next_id};
use jcr_ref::MAX_IDS;
use jcr_trans::text_reply;
use jr_items::over_limit;
use jr_path::Text;
use jr_tree::Who;
use std::alloc::{AllocError, Global};

/// What a `checkpoint` begins with: the identifier under which it is made, the session's next one,
/// and its reply once it is; or the reply where the session has drawn all its identifiers (JSR 283,
/// 3.8 Referenceable Identifiers).
#[derive(Drop)]
pub enum NextCheckpoint {
    Named(Text, String),
    Refused(String),
}

/// What a `checkpoint` of a session begins with (Oak, DocumentNodeStore: "Checkpoints"). No
/// identifier is drawn yet: an accepted reply draws it.
pub fn next_checkpoint(alloc: Global, who: &Who) -> Result<NextCheckpoint, AllocError>
    ensures { IfOk result (IsNextOf who.now) }
{
    if who.ids >= MAX_IDS {
        return refused(alloc);
    }
    named(alloc, who)
}

// The session's next identifier, and the reply that shows it.
fn named(alloc: Global, who: &Who) -> Result<NextCheckpoint, AllocError>
    requires { who.now.ids < 16777215 }
    ensures { IfOk result (IsNextOf who.now) }
{
    let id = next_id(alloc, who)?;
    let reply = text_reply(alloc, id.as_str())?;
    Ok(NextCheckpoint::Named(id, reply))
}

// The reply where a session has drawn all its identifiers.
fn refused(alloc: Global) -> Result<NextCheckpoint, AllocError>
    ensures { (who : Who) → 16777215 ≤ who.ids → IfOk result (IsNextOf who) }
{
    let refusal = over_limit(alloc, "ids", MAX_IDS as u64);
    Ok(NextCheckpoint::Refused(cause_text(alloc, &refusal)?))
}
