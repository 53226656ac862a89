// Which events pass a filter.
ghost use Rattle.std.specs.Prelude.{◌≡◌, ◌≢◌, ◌∷◌, [], ◌++◌, false, IfOk, OnOk};
ghost use Rattle.std.specs.Option.{option_map_or};
ghost use Rattle.jr_path.specs.Names.{is_under, parent_of};
ghost use Rattle.jcr_observe.specs.Observed.{event_code, commit_end, event_of, observed_events, events_of_changes, events_of_commit, is_in_mask, is_observed, is_place_observed, passes_filter};

use crate::event::{
    Filter, JcrEvent, NODE_ADDED, NODE_REMOVED, PERSIST, PROPERTY_ADDED, PROPERTY_CHANGED,
    PROPERTY_REMOVED,
};
use jr_path::{DeepCopy, Item};
use jr_tree::{CommitChanges, ItemChange, is_child};
use std::alloc::{AllocError, Global};

/// The events of commits that pass a filter: commit by commit as they are given, of each its changes as they are given, and
/// behind them `PERSIST`, where some passed and the filter asks for it (JSR 283, 12.3 Events). It costs the changes given, and
/// copies the items that pass alone.
pub fn events(
    alloc: Global,
    commits: &[CommitChanges],
    filter: &Filter,
) -> Result<Vec<JcrEvent>, AllocError>
    ensures { IfOk result (λ events. events.items ≡ observed_events filter.now commits.now) }
{
    let mut events = Vec::new(alloc);
    for commit in commits {
        add_commit(&mut events, commit.changes.as_slice(), filter)?;
    }
    Ok(events)
}

// Adds the events of a commit.
fn add_commit(
    events: &mut Vec<JcrEvent>,
    changes: &[ItemChange],
    filter: &Filter,
) -> Result<(), AllocError>
    ensures { OnOk result (events.new.items ≡ events.old.items ++ events_of_commit filter.now changes.now) }
{
    let before = events.len();
    add_changes(events, changes, filter)?;
    if events.len() == before || !is_in_mask(PERSIST, filter.mask) {
        return Ok(());
    }
    add_end(events)
}

// Adds the end of a commit's events.
fn add_end(events: &mut Vec<JcrEvent>) -> Result<(), AllocError>
    ensures { OnOk result (events.new.items ≡ events.old.items ++ commit_end ∷ []) }
{
    events.push(JcrEvent {
        code: PERSIST,
        item: None,
    })?;
    Ok(())
}

// Adds the events of the changes that pass.
fn add_changes(
    events: &mut Vec<JcrEvent>,
    changes: &[ItemChange],
    filter: &Filter,
) -> Result<(), AllocError>
    ensures { OnOk result (events.new.items ≡ events.old.items ++ events_of_changes filter.now changes.now) }
{
    for change in changes {
        if passes(change, filter) {
            events.push(event_of(change)?)?;
        }
    }
    Ok(())
}

fn event_of(change: &ItemChange) -> Result<JcrEvent, AllocError>
    ensures { IfOk result (λ event. event ≡ event_of change.now) }
{
    Ok(JcrEvent {
        code: code_of(change),
        item: Some(change.item.copy()?),
    })
}

// The code of the event of a change.
fn code_of(change: &ItemChange) -> u32
    ensures { result ≡ event_code change.now }
{
    match (&change.item.name, change.before, change.after) {
        (None, _, true) => NODE_ADDED,
        (None, _, false) => NODE_REMOVED,
        (Some(_), false, true) => PROPERTY_ADDED,
        (Some(_), true, true) => PROPERTY_CHANGED,
        (Some(_), _, false) => PROPERTY_REMOVED,
    }
}

// Whether the event of a change passes the filter.
fn passes(change: &ItemChange, filter: &Filter) -> bool
    ensures { result ≡ passes_filter filter.now change.now }
{
    is_in_mask(code_of(change), filter.mask) && is_observed(&change.item, filter)
}

// Whether the code is one of the sum.
fn is_in_mask(code: u32, mask: u32) -> bool
    requires { code ≢ 0 }
    ensures { result ≡ is_in_mask code mask }
{
    mask / code % 2 == 1
}

// Whether the node above the item is observed. It takes no memory.
fn is_observed(item: &Item, filter: &Filter) -> bool
    ensures { result ≡ is_observed filter.now item.now }
{
    match item.name {
        Some(_) => is_property_observed(item, filter),
        None => is_node_observed(item, filter),
    }
}

// Whether the node that has the property is observed.
fn is_property_observed(item: &Item, filter: &Filter) -> bool
    ensures { result ≡ is_place_observed filter.now item.now.path }
{
    if filter.deep {
        return item.path.is_under(&filter.path);
    }
    filter.path == item.path
}

// Whether the parent of the node is observed.
fn is_node_observed(item: &Item, filter: &Filter) -> bool
    ensures { result ≡ option_map_or (is_place_observed filter.now) (parent_of item.now.path) false }
{
    if filter.deep {
        return is_below(item, filter);
    }
    is_child(&filter.path, &item.path)
}

// Whether the parent of the node is at or below the filter's path.
#[tactic(auto, using(crate::proofs::Below::parent_under))]
fn is_below(item: &Item, filter: &Filter) -> bool
    ensures { result ≡ option_map_or (λ q. is_under q filter.now.path) (parent_of item.now.path) false }
{
    item.path.is_under(&filter.path) && filter.path.depth() < item.path.depth()
}
