// The updates of the settings' document.
ghost use Rattle.std.specs.Prelude.{◌≡◌, [], ◌∷◌, IfOk};
ghost use Rattle.oak_checkpoint.specs.Settings.{attach_op, checkpoint_of, create_op, detach_op, drop_readers_op, release_op, settings_op};

use jr_path::{DocId, List, Text};
use jr_rev::Pin;
use oak_doc::{Change, Document, UpdateOp};
use std::alloc::{AllocError, Global};

/// Keeps a pin as the checkpoint of an id, in the place of one that is there.
pub fn create(alloc: Global, id: &str, pin: &Pin) -> Result<UpdateOp, AllocError>
    ensures { IfOk result (λ op. op ≡ create_op id.now pin.now) }
{
    let id = Text::copy_of(alloc, id)?;
    update(alloc, Change::Checkpoint(id, *pin))
}

/// Copies the checkpoint of an id under a session's number, which makes the session a reader of it. Where
/// there is no such checkpoint, it changes nothing; `found` tells.
pub fn attach(alloc: Global, session: u32, id: &str) -> Result<UpdateOp, AllocError>
    ensures { IfOk result (λ op. op ≡ attach_op session id.now) }
{
    let id = Text::copy_of(alloc, id)?;
    update(alloc, Change::Attach(session, id))
}

/// Drops the reader of a session.
pub fn detach(alloc: Global, session: u32) -> Result<UpdateOp, AllocError>
    ensures { IfOk result (λ op. op ≡ detach_op session) }
{
    update(alloc, Change::Detach(session))
}

/// Drops the checkpoint of an id. Where there is none, it changes nothing; `found` tells.
pub fn release(alloc: Global, id: &str) -> Result<UpdateOp, AllocError>
    ensures { IfOk result (λ op. op ≡ release_op id.now) }
{
    let id = Text::copy_of(alloc, id)?;
    update(alloc, Change::Release(id))
}

/// Drops the readers of some sessions, in one update.
pub fn drop_readers(alloc: Global, sessions: &[u32]) -> Result<UpdateOp, AllocError>
    ensures { IfOk result (λ op. op ≡ drop_readers_op sessions.now) }
{
    let mut changes = List::new(alloc);
    for session in sessions {
        changes.push(Change::Detach(*session))?;
    }
    Ok(update_with(changes))
}

/// The checkpoint of an id in the settings' document, if it has one. Of the document before an `attach` or a
/// `release` this tells whether the update had that checkpoint, and which. It takes no memory.
pub fn found(before: &Document, id: &str) -> Option<Pin>
    ensures { result ≡ checkpoint_of before.now id.now }
{
    for (key, pin) in before.checkpoints.iter() {
        if key.as_str() == id {
            return Some(*pin);
        }
    }
    None
}

// One change of the settings' document.
fn update(alloc: Global, change: Change) -> Result<UpdateOp, AllocError>
    ensures { IfOk result (λ op. op ≡ settings_op (change ∷ [])) }
{
    let mut changes = List::new(alloc);
    changes.push(change)?;
    Ok(update_with(changes))
}

// Changes of the settings' document, which is there: none is made.
fn update_with(changes: List<Change>) -> UpdateOp
    ensures { result ≡ settings_op changes }
{
    UpdateOp {
        id: DocId::Settings,
        create: false,
        cond: None,
        changes,
    }
}
