// What a history says of a session: its view, its tokens, its cursor, and how many identifiers it
// has drawn.
ghost use Rattle.std.specs.Prelude.{◌≡◌, ◌∷◌, [], IfOk, IsTrue, None, OnOk, Some, cond, is_some, option_map, reverse};
ghost use Rattle.std.specs.List.{list_any};
ghost use Rattle.std.specs.Option.{option_copied, option_map_or};
ghost use Rattle.oak_machine.specs.Commits.{tree_at};
ghost use Rattle.oak_machine.specs.History.{begin_tree};
ghost use Rattle.oak_machine.specs.Sessions.{drawn_since};
ghost use Rattle.jcr_view.specs.Outcomes.{eval, is_viewed};
ghost use Rattle.jcr_view.specs.Rebases.{moved_view};
ghost use Rattle.jcr_law.specs.State.{accepted, state_answered, base_tree, command_at, counted, is_ok_text, moved, new_state, next_id, state_replied, session_state, used, viewed, with_token, without_token};
ghost use Rattle.jcr_law.specs.declared.state.Cursor.{Cursor as Standing};
ghost use Rattle.jcr_past.specs.Calls.{called};

use crate::call::{Call, call_at};
use jcr_call::{next_id, with_token, without_token};
use jcr_law::{Cursor, JcrLaw, State};
use jcr_observe::Filter;
use jcr_trans::Command;
use jcr_view::{evaluate, is_viewed, move_view};
use jr_path::{DeepCopy, List, Path, Text};
use jr_rev::RevVec;
use jr_tree::Tree;
use jr_types::Registry;
use oak_machine::{Event, Start};
use oak_past::{base_of, begin_tree, drawn_since, last_checkpoint, tree_from};
use std::alloc::{AllocError, Global};

// The state of a session after these events.
#[tactic(auto, using(oak_machine::proofs::Forward::past_more))]
pub(crate) fn state_of(
    alloc: Global,
    law: &JcrLaw,
    start: &Option<Start>,
    events: &[Event],
    session: u32,
) -> Result<State, AllocError>
    ensures { IfOk result (λ state. state
        ≡ session_state law.now start.now (reverse events.now) session) }
{
    let mut state = new_state(alloc, begin_tree(alloc, start)?);
    for at in 0..events.len() {
        state = state_next(
            alloc,
            law,
            start,
            &events[..at],
            session,
            &events[at],
            state,
        )?;
    }
    Ok(state)
}

// The state of a session at its login, with this view.
fn new_state(alloc: Global, view: Tree) -> State
    ensures { result ≡ record { view = view; tokens = []; cursor = None; ids = 0 } }
{
    State {
        view,
        tokens: List::new(alloc),
        cursor: None,
        ids: 0,
    }
}

// The state of a session after one event more.
fn state_next(
    alloc: Global,
    law: &JcrLaw,
    start: &Option<Start>,
    before: &[Event],
    session: u32,
    event: &Event,
    state: State,
) -> Result<State, AllocError>
    requires { state ≡ session_state law.now start.now (reverse before.now) session }
    ensures { IfOk result (λ state. state
        ≡ session_state law.now start.now (event.now ∷ reverse before.now) session) }
{
    match event {
        Event::Login(s, v) => {
            if *s == session {
                drop(state);
                return login(alloc, start, before, v);
            }
            Ok(state)
        }
        Event::Refresh(s, v) => {
            if *s == session {
                return moved(alloc, start, before, session, Some(*v), state);
            }
            Ok(state)
        }
        Event::Attach(s, id) => {
            if *s == session {
                let v = last_checkpoint(before, id);
                return moved(alloc, start, before, session, v, state);
            }
            Ok(state)
        }
        Event::Said(s, index, text) => {
            if *s == session {
                return replied(alloc, law, start, before, session, *index, text, state);
            }
            Ok(state)
        }
        _ => Ok(state),
    }
}

// The state of a session that logs in at a vector.
fn login(
    alloc: Global,
    start: &Option<Start>,
    before: &[Event],
    v: &RevVec,
) -> Result<State, AllocError>
    ensures { IfOk result (λ state. state ≡ record (new_state start.now) {
      view = tree_at start.now (reverse before.now) v.now;
    }) }
{
    let view = tree_from(alloc, start, before, v)?;
    Ok(new_state(alloc, view))
}

// The state of a session whose base moves to a vector, or to the beginning.
fn moved(
    alloc: Global,
    start: &Option<Start>,
    before: &[Event],
    session: u32,
    at: Option<RevVec>,
    state: State,
) -> Result<State, AllocError>
    ensures { IfOk result (λ new. new ≡ moved (base_tree start.now (reverse before.now) session)
        (option_map_or (tree_at start.now (reverse before.now)) at (begin_tree start.now))
        state) }
{
    match moved_view(alloc, start, before, session, at, &state.view) {
        Ok(view) => {
            drop(state.view);
            Ok(State { view, ..state })
        }
        Err(AllocError) => {
            drop(state);
            Err(AllocError)
        }
    }
}

// The view of a session whose base moves to a vector, or to the beginning.
fn moved_view(
    alloc: Global,
    start: &Option<Start>,
    before: &[Event],
    session: u32,
    at: Option<RevVec>,
    view: &Tree,
) -> Result<Tree, AllocError>
    ensures { IfOk result (λ moved. moved
        ≡ moved_view (base_tree start.now (reverse before.now) session)
        (option_map_or (tree_at start.now (reverse before.now)) at (begin_tree start.now))
        view.now) }
{
    let old = base_tree(alloc, start, before, session)?;
    let new = match tree_or_begin(alloc, start, before, at) {
        Ok(new) => new,
        Err(AllocError) => {
            drop(old);
            return Err(AllocError);
        }
    };
    let moved = move_view(alloc, &old, &new, view);
    drop(old);
    drop(new);
    moved
}

// The tree at the base of a session.
fn base_tree(
    alloc: Global,
    start: &Option<Start>,
    events: &[Event],
    session: u32,
) -> Result<Tree, AllocError>
    ensures { IfOk result (λ tree. tree
        ≡ base_tree start.now (reverse events.now) session) }
{
    tree_or_begin(alloc, start, events, base_of(events, session))
}

// The tree that a vector sees, or that at the beginning.
fn tree_or_begin(
    alloc: Global,
    start: &Option<Start>,
    events: &[Event],
    at: Option<RevVec>,
) -> Result<Tree, AllocError>
    ensures { IfOk result (λ tree. tree
        ≡ option_map_or (tree_at start.now (reverse events.now)) at (begin_tree start.now)) }
{
    match at {
        Some(v) => tree_from(alloc, start, events, &v),
        None => begin_tree(alloc, start),
    }
}

/// The command of an index of a session, if the session and the index are there.
pub fn command_at(law: &JcrLaw, session: u32, index: usize) -> Option<&Command>
    ensures { option_copied result ≡ command_at law.now session index }
{
    match law.sessions.as_slice().get(session as usize) {
        Some(script) => script.commands.as_slice().get(index),
        None => None,
    }
}

// What a reply of a session leaves, if there is such a command and the session has a base.
fn replied(
    alloc: Global,
    law: &JcrLaw,
    start: &Option<Start>,
    before: &[Event],
    session: u32,
    index: u32,
    text: &Text,
    state: State,
) -> Result<State, AllocError>
    ensures { IfOk result (λ new. new
        ≡ state_replied law.now start.now (reverse before.now) session index text.now state) }
{
    match (
        command_at(law, session, index as usize),
        base_of(before, session),
    ) {
        (Some(command), Some(v)) => {
            let call = call_at(alloc, law, start, before, session, v, state)?;
            let drew = has_drawn(before, session);
            answered(alloc, &law.types, call, command, is_ok_text(text), drew)
        }
        _ => Ok(state),
    }
}

// Whether a reply accepts.
fn is_ok_text(text: &Text) -> bool
    ensures { result ≡ is_ok_text text.now }
{
    text.as_str().starts_with("ok")
}

// Whether a session drew a revision for the command that it has not answered yet.
fn has_drawn(events: &[Event], session: u32) -> bool
    ensures { result ≡ is_some (drawn_since (reverse events.now) session) }
{
    drawn_since(events, session).is_some()
}

// What a command leaves, as it was accepted or refused, and drew a revision or none.
fn answered(
    alloc: Global,
    types: &Registry,
    call: Call,
    command: &Command,
    ok: bool,
    drew: bool,
) -> Result<State, AllocError>
    ensures { IfOk result (λ state. state
        ≡ state_answered ok drew (called types.now call) command.now) }
{
    if ok {
        let state = accepted(alloc, types, call, command)?;
        Ok(counted(state, command, ok, drew))
    } else {
        drop(call.base);
        Ok(counted(call.state, command, ok, drew))
    }
}

// With the identifiers that the command used, up to the limit.
fn counted(state: State, command: &Command, ok: bool, drew: bool) -> State
    ensures { result ≡ counted ok drew command.now state }
{
    let ids = state.ids.saturating_add(used(command, ok, drew));
    State {
        ids: ids.min(16_777_215),
        ..state
    }
}

// How many identifiers a command has used that is no command of the view.
fn used(command: &Command, ok: bool, drew: bool) -> u32
    ensures { result ≡ used ok drew command.now }
{
    match command {
        Command::Lock(_, _) => u32::from(drew),
        Command::Checkin(_) => u32::from(drew),
        Command::Checkpoint => u32::from(ok),
        _ => 0,
    }
}

// What an accepted command leaves.
fn accepted(
    alloc: Global,
    types: &Registry,
    call: Call,
    command: &Command,
) -> Result<State, AllocError>
    ensures { IfOk result (λ state. state ≡ accepted (called types.now call) command.now) }
{
    match command {
        Command::Save => Ok(without_pending(call)),
        Command::Refresh(false) => Ok(without_pending(call)),
        Command::Token(token) => {
            drop(call.base);
            holding(alloc, call.state, token)
        }
        Command::DropToken(token) => {
            drop(call.base);
            dropping(alloc, call.state, token)
        }
        Command::Lock(_, _) => locked(alloc, call),
        Command::Observe(path, deep, mask) => match path.copy() {
            Ok(path) => Ok(observing(call, path, *deep, *mask)),
            Err(AllocError) => {
                drop(call);
                Err(AllocError)
            }
        },
        Command::Events => Ok(observed(call)),
        _ => viewed(alloc, types, call, command),
    }
}

// Nothing is pending.
fn without_pending(call: Call) -> State
    ensures { result ≡ record call.state { view = call.base } }
{
    let view = call.base;
    let state = call.state;
    drop(state.view);
    State { view, ..state }
}

// The session holds one token more.
fn holding(alloc: Global, state: State, token: &Text) -> Result<State, AllocError>
    ensures { IfOk result (λ new. new
        ≡ record state { tokens = with_token state.tokens token.now }) }
{
    match with_token(alloc, state.tokens.as_slice(), token) {
        Ok(tokens) => Ok(State { tokens, ..state }),
        Err(AllocError) => {
            drop(state);
            Err(AllocError)
        }
    }
}

// The session holds a token no more.
fn dropping(alloc: Global, state: State, token: &Text) -> Result<State, AllocError>
    ensures { IfOk result (λ new. new
        ≡ record state { tokens = without_token state.tokens token.now }) }
{
    match without_token(alloc, state.tokens.as_slice(), token) {
        Ok(tokens) => Ok(State { tokens, ..state }),
        Err(AllocError) => {
            drop(state);
            Err(AllocError)
        }
    }
}

// The session holds the token of the lock that it made.
fn locked(alloc: Global, call: Call) -> Result<State, AllocError>
    ensures { IfOk result (λ state. state ≡ record call.state {
      tokens = with_token call.state.tokens (next_id call.who);
    }) }
{
    drop(call.base);
    let token = next_id(alloc, &call.who)?;
    holding(alloc, call.state, &token)
}

// The cursor stands at the base.
fn observing(call: Call, path: Path, deep: bool, mask: u32) -> State
    ensures { result ≡ record call.state {
      cursor = Some (record {
        at = call.who.base;
        filter = record { path = path; deep = deep; mask = mask };
      });
    } }
{
    let at = call.who.base;
    let state = call.state;
    drop(call.base);
    let filter = Filter { path, deep, mask };
    State {
        cursor: Some(Cursor { at, filter }),
        ..state
    }
}

// The cursor, where there is one, moves to the base.
fn observed(call: Call) -> State
    ensures { result ≡ record call.state {
      cursor = option_map (λ (x : Standing). record x { at = call.who.base }) call.state.cursor;
    } }
{
    let at = call.who.base;
    let mut state = call.state;
    drop(call.base);
    if let Some(cursor) = &mut state.cursor {
        cursor.at = at;
    }
    state
}

// What an accepted command leaves that the view answers, or that leaves all as it is.
fn viewed(
    alloc: Global,
    types: &Registry,
    call: Call,
    command: &Command,
) -> Result<State, AllocError>
    ensures { IfOk result (λ state. state ≡ cond (is_viewed command.now) (viewed
        (eval types.now call.who call.base call.state.view command.now) call.state)
        call.state) }
{
    if is_viewed(command) {
        evaluated(alloc, types, call, command)
    } else {
        drop(call.base);
        Ok(call.state)
    }
}

// What a command leaves that the view answers.
fn evaluated(
    alloc: Global,
    types: &Registry,
    mut call: Call,
    command: &Command,
) -> Result<State, AllocError>
    requires { IsTrue (is_viewed command.now) }
    ensures { IfOk result (λ state. state ≡ viewed
        (eval types.now call.who call.base call.state.view command.now) call.state) }
{
    let made = evaluate(
        alloc,
        types,
        &mut call.who,
        &call.base,
        &mut call.state.view,
        command,
    );
    match made {
        Ok(shown) => {
            drop(shown);
            drop(call.base);
            Ok(with_ids(call.state, call.who.ids))
        }
        Err(refusal) => {
            let number = refusal.number;
            drop(refusal);
            if number == 16 {
                drop(call);
                return Err(AllocError);
            }
            drop(call.base);
            Ok(with_ids(call.state, call.who.ids))
        }
    }
}

fn with_ids(state: State, ids: u32) -> State
    ensures { result ≡ record state { ids = ids } }
{
    State { ids, ..state }
}
