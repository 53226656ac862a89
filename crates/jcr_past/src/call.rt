// What the next command of a session is run with.
ghost use Rattle.std.specs.Prelude.{◌≡◌, IfOk, option_map, reverse};
ghost use Rattle.jcr_law.specs.State.{call_at, call_of};
ghost use Rattle.jcr_past.specs.Calls.{called};

use crate::state::state_of;
use jcr_law::{JcrLaw, State};
use jr_rev::RevVec;
use jr_tree::{Tree, Who};
use oak_machine::{Event, Start};
use oak_past::{base_of, tree_from};
use std::alloc::{AllocError, Global};

/// What a command of a session is run with, but for the types: the session at its base, the tree
/// there, and the session's state.
#[derive(Drop)]
pub struct Call {
    pub who: Who,
    pub base: Tree,
    pub state: State,
}

/// What the next command of a session is run with, where the session has a base. Memory is taken,
/// and all events are gone over for each of them.
pub fn call_of(
    alloc: Global,
    law: &JcrLaw,
    start: &Option<Start>,
    events: &[Event],
    session: u32,
) -> Result<Option<Call>, AllocError>
    ensures { IfOk result (λ found. option_map (called law.now.types) found
        ≡ call_of law.now start.now (reverse events.now) session) }
{
    match base_of(events, session) {
        Some(v) => {
            let state = state_of(alloc, law, start, events, session)?;
            Ok(Some(call_at(alloc, law, start, events, session, v, state)?))
        }
        None => Ok(None),
    }
}

// What a command is run with by a session whose base is at a vector, with such a state.
pub(crate) fn call_at(
    alloc: Global,
    law: &JcrLaw,
    start: &Option<Start>,
    events: &[Event],
    session: u32,
    v: RevVec,
    state: State,
) -> Result<Call, AllocError>
    ensures { IfOk result (λ call. called law.now.types call
        ≡ call_at law.now start.now (reverse events.now) session v state) }
{
    let base = match tree_from(alloc, start, events, &v) {
        Ok(base) => base,
        Err(AllocError) => {
            drop(state);
            return Err(AllocError);
        }
    };
    let who = Who {
        session,
        earlier: law.earlier,
        ids: state.ids,
        base: v,
    };
    Ok(Call { who, base, state })
}
