// The steps of a commit: its draw, the operations on documents, its end.
ghost use Rattle.std.specs.Prelude.{◌≡◌, ◌⊎◌, ◌<◌, ◌≤◌, ◌+◌, ◌*◌, ◌-◌, ◌^◌, ◌∷◌, ◌++◌, [], IfOk, IsSome, None, OnErr, OnOk, length, slice_get};
ghost use Rattle.oak_clash.specs.Clashes.{marked_paths};
ghost use Rattle.oak_commit.specs.Committing.{begun, due_of, wanting, written_paths};
ghost use Rattle.oak_commit.specs.Stages.{stage_of};
ghost use Rattle.oak_commit.specs.declared.stage.Stage.TheVariants as stage;
ghost use Rattle.oak_doc.specs.declared.asks.Ask.TheVariants as ask;
ghost use Rattle.oak_machine.specs.declared.event.Event.TheVariants as event;
ghost use Rattle.oak_node.specs.Heads.{IsInFlight, finished, known_time, next_draw, with_draw};
ghost use Rattle.oak_node.specs.Notes.{with_notes};
ghost use Rattle.oak_read.specs.Reading.{IsTable};
ghost use Rattle.oak_acts.specs.Acts.{pinned_base};
ghost use Rattle.oak_saves.specs.Saves.{IsUpdateDue, IsLast, IsLastFault, IsMarked, IsRefusedBy, IsDocumentUndone, IsUpdating, IsWritten, UpdatesDocument, end_events, fed_previous, needed_by, mark_refusal, saving};

use jr_path::{DeepCopy, Item, List};
use jr_rev::{RevVec, Revision};
use jr_tree::Edit;
use oak_acts::{answer, base_of};
use oak_clash::{MarkAt, marked_paths};
use oak_commit::{Committer, Stage};
use oak_doc::{Ask, Kept, OpFault, Reply, UpdateOp};
use oak_machine::{Draw, Event, Events, StepKind};
use oak_node::NodeMem;
use oak_store::DocTable;
use std::alloc::{AllocError, Global};

/// The draw of an edit with its marks, at the base of session `s`: the paths of the marked nodes
/// are noted with it, and the journal keeps places for all that the commit appends from then on,
/// but for its marks. Where memory is refused nothing changes, and edit and marks are dropped.
pub fn begin(
    alloc: Global,
    memory: &mut NodeMem,
    events: &mut Events,
    s: u32,
    edit: Edit,
    marks: List<MarkAt>,
) -> Result<Committer, AllocError>
    requires { known_time memory.old < 2 ^ 64 - 1 }
    ensures committer { IfOk result
        (λ committer. committer
        ≡ begun (next_draw memory.old) (pinned_base memory.old s) edit marks) }
    ensures memory { OnOk result (memory.new ≡ with_notes (next_draw memory.old)
        (with_draw memory.old (next_draw memory.old)) (marked_paths marks)) }
    ensures list { OnOk result (events.new.list ≡ events.old.list ++ event.Draw (record {
      revision = next_draw memory.old;
      session = s;
      base = pinned_base memory.old s;
      edit = edit;
      marks = marks;
    }) ∷ []) }
    ensures places { OnOk result
        (events.new.places ≡ events.old.places + 2 * length (written_paths marks) + 4) }
    ensures kept { OnErr result (memory.new ≡ memory.old) }
    ensures err { OnErr result (events.new.list ≡ events.old.list) }
    ensures back { OnErr result (events.new.places ≡ events.old.places) }
{
    let base = base_of(memory, s);
    let revision = memory.next_draw();
    let Ok(committer) = prepared(alloc, revision, &base, &edit, &marks) else {
        drop(edit);
        drop(marks);
        return Err(AllocError);
    };
    match draw(
        alloc,
        memory,
        events,
        committer.documents(),
        marks.as_slice(),
    ) {
        Ok(()) => {
            events.push_kept(Event::Draw(Draw {
                revision,
                session: s,
                base,
                edit,
                marks,
            }));
            Ok(committer)
        }
        Err(AllocError) => {
            drop(committer);
            drop(edit);
            drop(marks);
            Err(AllocError)
        }
    }
}

// The committer of copies of an edit and its marks.
fn prepared(
    alloc: Global,
    revision: Revision,
    base: &RevVec,
    edit: &Edit,
    marks: &List<MarkAt>,
) -> Result<Committer, AllocError>
    ensures { IfOk result (λ committer. committer ≡ begun revision base.now edit.now marks.now) }
{
    let edit = edit.copy()?;
    match marks.copy() {
        Ok(marks) => Committer::new(alloc, revision, base, edit, marks),
        Err(AllocError) => {
            drop(edit);
            Err(AllocError)
        }
    }
}

// The draw of a commit of so many documents, with the paths of its marks and with places for all
// its events but its marks.
fn draw(
    alloc: Global,
    memory: &mut NodeMem,
    events: &mut Events,
    documents: usize,
    marks: &[MarkAt],
) -> Result<(), AllocError>
    requires { known_time memory.old < 2 ^ 64 - 1 }
    ensures memory { OnOk result (memory.new ≡ with_notes (next_draw memory.old)
        (with_draw memory.old (next_draw memory.old)) (marked_paths marks.now)) }
    ensures places { OnOk result (events.new.places ≡ events.old.places + 2 * documents + 5) }
    ensures kept { OnErr result (memory.new ≡ memory.old) }
    ensures back { OnErr result (events.new.places ≡ events.old.places) }
    ensures list { events.new.list ≡ events.old.list }
{
    if documents > u32::MAX as usize {
        return Err(AllocError);
    }
    let paths = marked_paths(alloc, marks)?;
    let places = 2 * documents + 5;
    events.keep(places)?;
    if memory.draw_noting(paths.as_slice()).is_err() {
        events.give_back(places);
        return Err(AllocError);
    }
    Ok(())
}

/// The operation on a document that is due to a commit is made, or answered: a mark, a write, a
/// look at a previous document, the last write, or an undoing, whose kind is told. A mark or a last
/// write that is refused, since another commit was first, is answered too. Where memory is refused
/// nothing changes; none is refused for undoing.
#[tactic(auto, using(crate::proofs::Acting::mark_going, crate::proofs::Acting::write_going, crate::proofs::Acting::look_going, crate::proofs::Acting::last_going))]
pub fn update(
    table: &mut DocTable,
    events: &mut Events,
    committer: &mut Committer,
    s: u32,
) -> Result<StepKind, AllocError>
    requires updating { IsUpdating (stage_of committer.old) }
    requires places { needed_by committer.old ≤ events.old.places }
    requires table { IsTable table.old.documents }
    ensures made { IfOk result
        (λ kind. UpdatesDocument s (saving table.old events.old.list committer.old)
        (saving table.new events.new.list committer.new) kind) }
    ensures going { OnErr result (committer.old.outcome ≡ None) }
    ensures table { OnErr result (table.new ≡ table.old) }
    ensures list { OnErr result (events.new.list ≡ events.old.list) }
    ensures committer { OnErr result (committer.new ≡ committer.old) }
    ensures places { events.old.places + needed_by committer.new
        ≤ events.new.places + needed_by committer.old }
    ensures order { IsTable table.new.documents }
{
    match committer.stage() {
        Stage::Mark => {
            mark(table, events, committer, s)?;
            Ok(StepKind::Mark)
        }
        Stage::Write => {
            write(table, events, committer, s)?;
            Ok(StepKind::Write)
        }
        Stage::Look => {
            look(table, committer)?;
            Ok(StepKind::Read)
        }
        Stage::Last => {
            last(table, events, committer)?;
            Ok(StepKind::Last)
        }
        Stage::Undo => {
            undo(table, events, committer, s);
            Ok(StepKind::Undo)
        }
        Stage::Finish | Stage::Done => unreachable!(),
    }
}

// The update that is due.
fn next_update(committer: &Committer) -> Result<UpdateOp, AllocError>
    requires { IsUpdateDue committer.now }
    ensures { IfOk result (λ op. ask.Update op ≡ due_of committer.now) }
{
    match committer.next()? {
        Ask::Update(op) => Ok(op),
        _ => unreachable!(),
    }
}

// The mark that is due: it is made, or the commit is refused since the other is committed. Where
// memory is refused nothing changes.
#[tactic(auto, using(crate::proofs::Acting::mark_asks, crate::proofs::Acting::mark_there))]
fn mark(
    table: &mut DocTable,
    events: &mut Events,
    committer: &mut Committer,
    s: u32,
) -> Result<(), AllocError>
    requires table { IsTable table.old.documents }
    requires stage { stage_of committer.old ≡ stage.Mark }
    ensures made { OnOk result (IsMarked s (saving table.old events.old.list committer.old)
        (saving table.new events.new.list committer.new)) }
    ensures needs { OnOk result (needed_by committer.new ≤ needed_by committer.old) }
    ensures table { OnErr result (table.new ≡ table.old) }
    ensures list { OnErr result (events.new.list ≡ events.old.list) }
    ensures committer { OnErr result (committer.new ≡ committer.old) }
    ensures places { events.new.places ≡ events.old.places }
    ensures order { IsTable table.new.documents }
{
    let (item, other) = met(committer)?;
    let op = next_update(committer)?;
    if events.keep(1).is_err() {
        drop(op);
        return Err(AllocError);
    }
    let made = mark_by(table, events, committer, s, &op, item, other);
    drop(op);
    made
}

// The mark that is due, by its update, with its own item and the other revision, and with a place
// that is kept for it.
fn mark_by(
    table: &mut DocTable,
    events: &mut Events,
    committer: &mut Committer,
    s: u32,
    op: &UpdateOp,
    item: Item,
    other: Revision,
) -> Result<(), AllocError>
    requires table { IsTable table.old.documents }
    requires stage { stage_of committer.old ≡ stage.Mark }
    requires due { ask.Update op.now ≡ due_of committer.old }
    requires refusal { mark_refusal committer.old (event.Refuse committer.old.revision item other) }
    requires place { 0 < events.old.places }
    ensures made { OnOk result (IsMarked s (saving table.old events.old.list committer.old)
        (saving table.new events.new.list committer.new)) }
    ensures needs { OnOk result (needed_by committer.new ≤ needed_by committer.old) }
    ensures table { OnErr result (table.new ≡ table.old) }
    ensures list { OnErr result (events.new.list ≡ events.old.list) }
    ensures committer { OnErr result (committer.new ≡ committer.old) }
    ensures place { events.new.places + 1 ≡ events.old.places }
    ensures order { IsTable table.new.documents }
{
    match oak_acts::update(table, op) {
        Ok(before) => {
            events.push_kept(Event::Went(s, StepKind::Mark));
            // Memory is taken for what is found in a document that is written, and this is a mark.
            let _ = committer.feed(Reply::Updated(before));
            Ok(())
        }
        Err(OpFault::Unmet(cond, kept)) => {
            events.push_kept(Event::Refuse(committer.revision(), item, other));
            // A refusal takes no memory.
            let _ = committer.feed(Reply::Unmet(cond, kept));
            Ok(())
        }
        Err(OpFault::Memory) => {
            events.give_back(1);
            Err(AllocError)
        }
        // A mark makes the document where there is none.
        Err(OpFault::Absent) => unreachable!(),
    }
}

// The committer's own item and the other revision of the mark that is due.
fn met(committer: &Committer) -> Result<(Item, Revision), AllocError>
    requires { IsSome (slice_get committer.now.writer.due 0) }
    ensures { IfOk result
        (λ met. mark_refusal committer.now (event.Refuse committer.now.revision met.0 met.1)) }
{
    match (committer.due_item(), committer.due_other()) {
        (Some(item), Some(other)) => Ok((item.copy()?, other)),
        _ => unreachable!(),
    }
}

// The write of the document that is next, with a place that is kept for it. Where memory is refused
// for the write nothing changes.
#[tactic(auto, using(crate::proofs::Acting::write_asks))]
fn write(
    table: &mut DocTable,
    events: &mut Events,
    committer: &mut Committer,
    s: u32,
) -> Result<(), AllocError>
    requires table { IsTable table.old.documents }
    requires stage { stage_of committer.old ≡ stage.Write }
    requires place { 0 < events.old.places }
    ensures made { OnOk result (IsWritten s (saving table.old events.old.list committer.old)
        (saving table.new events.new.list committer.new)) }
    ensures needs { OnOk result (needed_by committer.new + 1 ≤ needed_by committer.old) }
    ensures place { OnOk result (events.new.places + 1 ≡ events.old.places) }
    ensures table { OnErr result (table.new ≡ table.old) }
    ensures list { OnErr result (events.new.list ≡ events.old.list) }
    ensures committer { OnErr result (committer.new ≡ committer.old) }
    ensures places { OnErr result (events.new.places ≡ events.old.places) }
    ensures order { IsTable table.new.documents }
{
    let op = next_update(committer)?;
    match oak_acts::update(table, &op) {
        Ok(before) => {
            events.push_kept(Event::Went(s, StepKind::Write));
            // Where memory is refused for what is found in the document, the committer turns to
            // undoing itself, and the write is made.
            let _ = committer.feed(Reply::Updated(before));
            drop(op);
            Ok(())
        }
        Err(OpFault::Memory) => {
            drop(op);
            Err(AllocError)
        }
        // A write makes the document where there is none, and has no condition.
        Err(OpFault::Absent) => unreachable!(),
        Err(OpFault::Unmet(_, _kept)) => unreachable!(),
    }
}

// The previous document that is asked for is looked at, and one that is gone as if it were empty.
// Where memory is refused for its copy nothing changes.
#[tactic(auto, using(crate::proofs::Acting::looked_is, crate::proofs::Needs::look_needs))]
fn look(table: &DocTable, committer: &mut Committer) -> Result<(), AllocError>
    requires stage { stage_of committer.old ≡ stage.Look }
    ensures looked { OnOk result ((committer.new ≡ fed_previous table.now committer.old)
        ⊎ (committer.new ≡ wanting (fed_previous table.now committer.old))) }
    ensures needs { OnOk result (needed_by committer.new ≤ needed_by committer.old) }
    ensures committer { OnErr result (committer.new ≡ committer.old) }
{
    let reply = answer(table, committer.next()?)?;
    // Where memory is refused for what is found there, the committer turns to undoing itself.
    let _ = committer.feed(reply);
    Ok(())
}

// The last write, with a place that is kept for it: the revision is committed, or it is refused
// since another has marked it. Where memory is refused nothing changes.
#[tactic(auto, using(crate::proofs::Acting::last_asks))]
fn last(
    table: &mut DocTable,
    events: &mut Events,
    committer: &mut Committer,
) -> Result<(), AllocError>
    requires table { IsTable table.old.documents }
    requires stage { stage_of committer.old ≡ stage.Last }
    requires place { 0 < events.old.places }
    ensures made { OnOk result (IsLast (saving table.old events.old.list committer.old)
        (saving table.new events.new.list committer.new)) }
    ensures needs { OnOk result (needed_by committer.new + 1 ≤ needed_by committer.old) }
    ensures place { OnOk result (events.new.places + 1 ≡ events.old.places) }
    ensures table { OnErr result (table.new ≡ table.old) }
    ensures list { OnErr result (events.new.list ≡ events.old.list) }
    ensures committer { OnErr result (committer.new ≡ committer.old) }
    ensures places { OnErr result (events.new.places ≡ events.old.places) }
    ensures order { IsTable table.new.documents }
{
    let op = next_update(committer)?;
    let r = committer.revision();
    match oak_acts::update(table, &op) {
        Ok(before) => {
            events.push_kept(Event::Commit(r));
            // Memory is taken for what is found in a document that is written, and all are.
            let _ = committer.feed(Reply::Updated(before));
            drop(op);
            Ok(())
        }
        Err(fault) => {
            drop(op);
            refused_last(events, committer, fault)
        }
    }
}

// The last write was refused: the commit is, where a collision is noted there; and else memory was.
fn refused_last(
    events: &mut Events,
    committer: &mut Committer,
    fault: OpFault,
) -> Result<(), AllocError>
    requires place { 0 < events.old.places }
    requires stage { stage_of committer.old ≡ stage.Last }
    requires fault { IsLastFault fault }
    ensures made { OnOk result
        (IsRefusedBy fault events.old.list events.new.list committer.old committer.new) }
    ensures place { OnOk result (events.new.places + 1 ≡ events.old.places) }
    ensures list { OnErr result (events.new.list ≡ events.old.list) }
    ensures committer { OnErr result (committer.new ≡ committer.old) }
    ensures places { OnErr result (events.new.places ≡ events.old.places) }
{
    match fault {
        OpFault::Unmet(cond, Kept::Entry(other, item)) => {
            events.push_kept(Event::Refuse(committer.revision(), item.copy()?, other));
            // A refusal takes no memory.
            let _ = committer.feed(Reply::Unmet(cond, Kept::Entry(other, item)));
            Ok(())
        }
        OpFault::Memory => Err(AllocError),
        OpFault::Absent => unreachable!(),
        OpFault::Unmet(_, Kept::Number(_)) => unreachable!(),
        OpFault::Unmet(_, Kept::Nothing) => unreachable!(),
    }
}

// The undoing of a document, with a place that is kept for it. No memory is taken.
fn undo(table: &mut DocTable, events: &mut Events, committer: &mut Committer, s: u32)
    requires table { IsTable table.old.documents }
    requires stage { stage_of committer.old ≡ stage.Undo }
    requires place { 0 < events.old.places }
    ensures made { IsDocumentUndone s (saving table.old events.old.list committer.old)
        (saving table.new events.new.list committer.new) }
    ensures needs { needed_by committer.new + 1 ≤ needed_by committer.old }
    ensures places { events.new.places + 1 ≡ events.old.places }
    ensures order { IsTable table.new.documents }
{
    oak_acts::undo(table, committer.undo_id(), committer.revision());
    events.push_kept(Event::Went(s, StepKind::Undo));
    // Undoing takes no memory.
    let _ = committer.feed(Reply::Undone);
}

/// The end of a revision of cluster node `node`, with two places that are kept for it: one event
/// tells the end, and one the head, where that moved. No memory is taken.
pub fn end(memory: &mut NodeMem, events: &mut Events, node: u32, r: Revision)
    requires flying { IsInFlight memory.old r }
    requires places { 2 ≤ events.old.places }
    ensures memory { memory.new ≡ finished memory.old r }
    ensures list { events.new.list ≡ events.old.list ++ end_events node memory.old r }
    ensures places { events.old.places ≤ events.new.places + 2 }
{
    let moved = memory.finish(r);
    events.push_kept(Event::End(r));
    if moved {
        events.push_kept(Event::Head(node, memory.head()));
    }
}
