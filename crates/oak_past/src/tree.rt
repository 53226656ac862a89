// The tree that a vector sees.
ghost use Rattle.std.specs.Prelude.{◌≡◌, IfOk, None, OnOk, reverse};
ghost use Rattle.std.specs.List.{filter};
ghost use Rattle.jr_rev.specs.Vectors.{sees};
ghost use Rattle.oak_machine.specs.History.{begin_tree, history_of};
ghost use Rattle.oak_machine.specs.Commits.{applied_all, committed_edits, with_commit, tree_at};

use crate::past::draw_of;
use jr_path::{DeepCopy, Keyed, List};
use jr_rev::{RevVec, Revision};
use jr_tree::{Edit, Tree, Write};
use oak_machine::{Event, Journal, Start};
use std::alloc::{AllocError, Global};

/// The tree that a vector sees: that of the start, with the edits of the committed revisions that it sees
/// applied in ascending order, each with its revision (Oak, DocumentNodeStore: Revisions). It goes over the
/// whole journal.
pub fn tree_at(journal: &Journal, v: &RevVec) -> Result<Tree, AllocError>
    ensures { let h = history_of journal.now in IfOk result (λ tree. tree ≡ tree_at h.begin h.past v.now) }
{
    let alloc = journal.events.allocator();
    tree_from(alloc, &journal.start, journal.events.as_slice(), v)
}

/// The tree that a vector sees of events that begin before any commit: the initial tree, with the edits of the
/// committed revisions that the vector sees applied in ascending order, each with its revision (Oak,
/// DocumentNodeStore: Revisions). It goes over all the events.
pub fn tree_among(alloc: Global, events: &[Event], v: &RevVec) -> Result<Tree, AllocError>
    ensures { IfOk result (λ tree. tree ≡ tree_at None (reverse events.now) v.now) }
{
    tree_from(alloc, &None, events, v)
}

/// The tree that a vector sees of events from a start on: that of the start, or the initial tree where there is none,
/// with the edits of the committed revisions that the vector sees applied in ascending order, each with its revision
/// (Oak, DocumentNodeStore: Revisions). It goes over all the events.
pub fn tree_from(
    alloc: Global,
    start: &Option<Start>,
    events: &[Event],
    v: &RevVec,
) -> Result<Tree, AllocError>
    ensures { IfOk result (λ tree. tree ≡ tree_at start.now (reverse events.now) v.now) }
{
    let mut tree = begin_tree(alloc, start)?;
    put_seen(alloc, &mut tree, events, v)?;
    Ok(tree)
}

// Puts the edits of the committed revisions that a vector sees.
fn put_seen(alloc: Global, tree: &mut Tree, events: &[Event], v: &RevVec) -> Result<(), AllocError>
    ensures { OnOk result (tree.new
        ≡ applied_all tree.old (filter (λ e. sees v.now e.0) (committed_edits (reverse events.now)))) }
{
    let edits = committed_edits(alloc, events)?;
    for (r, writes) in edits.into_inner() {
        if v.sees(r) {
            tree.apply(&Edit { writes }, Some(r))?;
        }
    }
    Ok(())
}

/// The tree at a start, or before any commit.
pub fn begin_tree(alloc: Global, start: &Option<Start>) -> Result<Tree, AllocError>
    ensures { IfOk result (λ tree. tree ≡ begin_tree start.now) }
{
    match start {
        Some(start) => start.tree.copy(),
        None => Tree::initial(alloc),
    }
}

// The writes of each committed revision.
#[tactic(auto, using(oak_machine::proofs::Forward::past_more))]
pub(crate) fn committed_edits(
    alloc: Global,
    events: &[Event],
) -> Result<Keyed<Revision, List<Write>>, AllocError>
    ensures { IfOk result (λ edits. edits ≡ committed_edits (reverse events.now)) }
{
    let mut edits = Keyed::new(alloc);
    for at in 0..events.len() {
        if let Event::Commit(r) = &events[at] {
            put_commit(&mut edits, &events[..at], *r)?;
        }
    }
    Ok(edits)
}

// Puts the writes of a revision, where it was drawn before.
fn put_commit(
    edits: &mut Keyed<Revision, List<Write>>,
    before: &[Event],
    r: Revision,
) -> Result<(), AllocError>
    ensures { OnOk result (edits.new ≡ with_commit (reverse before.now) edits.old r) }
{
    if let Some(draw) = draw_of(before, r) {
        edits.put(r, draw.edit.writes.copy()?)?;
    }
    Ok(())
}
