// The edit that is due for a command that commits.
ghost use Rattle.std.specs.Prelude.{◌≡◌, ◌+◌, Err, IfErr, IfOk, List, Result, Some, option_map};
ghost use Rattle.jr_tree.specs.declared.edit.Write.{Write};
ghost use Rattle.jr_tree.specs.declared.shared.Refusal.{Refusal};
ghost use Rattle.jr_items.specs.Refusals.{or_else, out_of_memory};
ghost use Rattle.jcr_lock.specs.Locks.{IsDue, IsDueRefusal, lock_edit, unlock_edit};
ghost use Rattle.jcr_ref.specs.Drawn.{too_many_ids};
ghost use Rattle.jcr_restore.specs.Edits.{restore_edit};
ghost use Rattle.jcr_version.specs.Edits.{checkin_edit, checkout_edit, label_edit, unlabel_edit};
ghost use Rattle.jcr_law.specs.Commits.{drawing_one};
ghost use Rattle.jcr_law.specs.State.{Call, next_id};
ghost use Rattle.jcr_call.specs.Dues.{due_at_once, writes_due};
ghost use Rattle.jcr_call.specs.Footings.{IsOn};

use crate::footing::Footing;
use crate::ids::next_id;
use crate::tokens::strings;
use jcr_lock::{lock_edit, unlock_edit};
use jcr_ref::MAX_IDS;
use jcr_restore::restore_edit;
use jcr_trans::Command;
use jcr_version::{checkin_edit, checkout_edit, label_edit, unlabel_edit};
use jr_items::over_limit;
use jr_path::{Name, Path};
use jr_tree::{Edit, Refusal, Tree, Who};
use std::alloc::{AllocError, Global};

/// What is due of a command that commits (JSR 283, 10.11 Saving): an edit, or the command's
/// refusal.
#[derive(Drop)]
pub enum Due {
    Edited(Edit),
    Refused(Refusal),
}

/// The edit that is due for a command that commits whatever is pending, or its refusal: for those
/// of locks (JSR 283, 17 Locking) and of versions (15 Versioning). There is none for `save`, whose
/// edit is what is pending, nor for a command that doesn't commit.
pub fn edit_due(
    alloc: Global,
    footing: &Footing<'_>,
    command: &Command,
) -> Result<Option<Due>, AllocError>
    ensures { (c : Call) → IsOn footing.now c → IfOk result (λ due. option_map writes_due due
        ≡ due_at_once c command.now) }
{
    match command {
        Command::Lock(path, deep) => lock_due(alloc, footing, path, *deep),
        Command::Unlock(path) => unlock_due(alloc, footing, path),
        Command::Checkin(path) => checkin_due(alloc, footing, path),
        Command::Checkout(path) => checkout_due(alloc, footing.base, path),
        Command::Label(path, version, label, take) => {
            label_due(alloc, footing.base, path, version.as_str(), label, *take)
        }
        Command::Unlabel(path, label) => unlabel_due(alloc, footing.base, path, label),
        Command::Restore(path, version) => restore_due(alloc, footing, path, version.as_str()),
        _ => Ok(None),
    }
}

// The edit or the refusal of a call that may want memory.
fn made_due(made: Result<Edit, Refusal>) -> Result<Option<Due>, AllocError>
    ensures { (due : Result (List Write) Refusal)
        → IfOk made (IsDue due) → IfErr made (IsDueRefusal due)
        → IfOk result (λ found. option_map writes_due found ≡ Some due) }
{
    match made {
        Ok(edit) => Ok(Some(Due::Edited(edit))),
        Err(refusal) => refused(refusal),
    }
}

// A refusal that doesn't stand for want of memory.
fn refused(refusal: Refusal) -> Result<Option<Due>, AllocError>
    ensures { IfOk result (λ found. ¬ (refusal ≡ out_of_memory)
        × (option_map writes_due found ≡ Some (Err refusal))) }
{
    if refusal.number == 16 {
        drop(refusal);
        return Err(AllocError);
    }
    Ok(Some(Due::Refused(refusal)))
}

// The edit that locks a node with the session's next identifier.
fn lock_due(
    alloc: Global,
    footing: &Footing<'_>,
    path: &Path,
    deep: bool,
) -> Result<Option<Due>, AllocError>
    ensures { (c : Call) → IsOn footing.now c → IfOk result (λ found. option_map writes_due found
        ≡ Some (drawing_one c (lock_edit c.base path.now deep (next_id c.who)))) }
{
    let token = next_id(alloc, footing.who)?;
    lock_by(alloc, footing, path, deep, token.as_str())
}

// The edit that locks a node with a token, for which one identifier is drawn.
fn lock_by(
    alloc: Global,
    footing: &Footing<'_>,
    path: &Path,
    deep: bool,
    token: &str,
) -> Result<Option<Due>, AllocError>
    ensures { (c : Call) → IsOn footing.now c → IfOk result (λ found. option_map writes_due found
        ≡ Some (drawing_one c (lock_edit c.base path.now deep token.now))) }
{
    match lock_edit(alloc, footing.base, path, deep, token) {
        Ok(edit) => drawing_one(alloc, footing.who, edit),
        Err(refusal) => refused(refusal),
    }
}

// An edit for which one identifier is drawn.
fn drawing_one(alloc: Global, who: &Who, edit: Edit) -> Result<Option<Due>, AllocError>
    ensures { IfOk result (λ found. option_map writes_due found
        ≡ Some (or_else (too_many_ids (who.now.ids + 1)) edit.writes)) }
{
    if who.ids >= MAX_IDS {
        drop(edit);
        return refused(over_limit(alloc, "ids", MAX_IDS as u64));
    }
    Ok(Some(Due::Edited(edit)))
}

// The edit that unlocks a node, for the tokens that the session holds.
fn unlock_due(alloc: Global, footing: &Footing<'_>, path: &Path) -> Result<Option<Due>, AllocError>
    ensures { (c : Call) → IsOn footing.now c → IfOk result (λ found. option_map writes_due found
        ≡ Some (unlock_edit c.base path.now c.state.tokens)) }
{
    let tokens = strings(alloc, footing.tokens)?;
    made_due(unlock_edit(alloc, footing.base, path, tokens.as_slice()))
}

// The edit that checks a node in.
fn checkin_due(alloc: Global, footing: &Footing<'_>, path: &Path) -> Result<Option<Due>, AllocError>
    ensures { (c : Call) → IsOn footing.now c → IfOk result (λ found. option_map writes_due found
        ≡ Some (checkin_edit c.types c.base path.now c.who)) }
{
    let mut who = *footing.who;
    made_due(checkin_edit(alloc, footing.types, footing.base, path, &mut who))
}

// The edit that checks a node out.
fn checkout_due(alloc: Global, base: &Tree, path: &Path) -> Result<Option<Due>, AllocError>
    ensures { IfOk result (λ found. option_map writes_due found
        ≡ Some (checkout_edit base.now path.now)) }
{
    made_due(checkout_edit(alloc, base, path))
}

// The edit that labels a version.
fn label_due(
    alloc: Global,
    base: &Tree,
    path: &Path,
    version: &str,
    label: &Name,
    take: bool,
) -> Result<Option<Due>, AllocError>
    ensures { IfOk result (λ found. option_map writes_due found
        ≡ Some (label_edit base.now path.now version.now label.now take)) }
{
    made_due(label_edit(alloc, base, path, version, label, take))
}

// The edit that takes a label away.
fn unlabel_due(
    alloc: Global,
    base: &Tree,
    path: &Path,
    label: &Name,
) -> Result<Option<Due>, AllocError>
    ensures { IfOk result (λ found. option_map writes_due found
        ≡ Some (unlabel_edit base.now path.now label.now)) }
{
    made_due(unlabel_edit(alloc, base, path, label))
}

// The edit that brings a node back to a version.
fn restore_due(
    alloc: Global,
    footing: &Footing<'_>,
    path: &Path,
    version: &str,
) -> Result<Option<Due>, AllocError>
    ensures { (c : Call) → IsOn footing.now c → IfOk result (λ found. option_map writes_due found
        ≡ Some (restore_edit c.types c.base path.now version.now)) }
{
    made_due(restore_edit(alloc, footing.types, footing.base, path, version))
}
