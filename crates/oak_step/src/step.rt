// One step of a session.
ghost use Rattle.std.specs.Prelude.{◌≡◌, ◌≤◌, ◌+◌, ◌++◌, ℕ};
ghost use Rattle.oak_commit.specs.Stages.{stage_of};
ghost use Rattle.oak_node.specs.Heads.{finished};
ghost use Rattle.oak_read.specs.Reading.{IsTable};
ghost use Rattle.oak_store.specs.Tables.{Table};
ghost use Rattle.oak_step.specs.Parts.{CanMove, CanStep, CommitsOn, EndsSo, Moves, Steps, UpdatesOn, needed, stepping};
ghost use Rattle.oak_saves.specs.Saves.{CanCommit, IsOver, IsUpdating, end_events, needed_by, parts, saving};

use crate::load::{read, read_changes};
use crate::upkeep::keep_up;
use crate::work::Work;
use jr_rev::Revision;
use oak_acts::{leave, login, refresh, refresh_kept};
use oak_commit::{CommitEnd, Committer, Stage};
use oak_doc::Reply;
use oak_machine::{Events, StepKind};
use oak_node::{Awaits, NodeMem};
use oak_port::{StepOut, TaskEnd};
use oak_store::DocTable;
use std::alloc::{AllocError, Global};

/// One step of what session `s` of cluster node `node` does: what it does then, and the answer.
/// Splits and collections, which ask all cluster nodes, are stepped by oak_tidy.
pub fn step_work(
    alloc: Global,
    table: &mut DocTable,
    memory: &mut NodeMem,
    events: &mut Events,
    node: u32,
    s: u32,
    work: Work,
) -> (Work, StepOut)
    requires can { CanStep s memory.old events.old.places work }
    requires table { IsTable table.old.documents }
    ensures made { Steps s node (parts table.old memory.old events.old.list) work
        (parts table.new memory.new events.new.list) result.0 result.1 }
    ensures places { events.old.places + needed result.0 ≤ events.new.places + needed work }
    ensures order { IsTable table.new.documents }
{
    match work {
        Work::Rest | Work::Tidy(_) | Work::Told(_) => unreachable!(),
        Work::Login => match login(memory, events, s) {
            Ok(pin) => (Work::Rest, StepOut::Ready(TaskEnd::Pinned(pin))),
            Err(AllocError) => (Work::Rest, StepOut::Memory),
        },
        Work::End => match leave(memory, events, s) {
            Ok(()) => (Work::Rest, StepOut::Ready(TaskEnd::Ended)),
            Err(AllocError) => (Work::Rest, StepOut::Memory),
        },
        Work::Refresh => match refresh(memory, events, s) {
            Ok(pin) => (Work::Rest, StepOut::Ready(TaskEnd::Pinned(pin))),
            Err(AllocError) => (Work::Rest, StepOut::Memory),
        },
        Work::Read(reader) => read(table, reader),
        Work::Changes(reader) => read_changes(table, reader),
        Work::Plan(edit, marks) => match oak_saves::begin(alloc, memory, events, s, edit, marks) {
            Ok(committer) => (Work::Commit(committer), StepOut::Went(StepKind::Draw)),
            Err(AllocError) => (Work::Rest, StepOut::Memory),
        },
        Work::Commit(committer) => commit_on(table, memory, events, node, s, committer),
        Work::Move(r) => move_on(memory, events, s, r),
        Work::Upkeep(upkeep) => keep_up(alloc, table, memory, events, node, s, upkeep),
    }
}

// A step of a commit that has drawn its revision: the end, or an operation on a document.
fn commit_on(
    table: &mut DocTable,
    memory: &mut NodeMem,
    events: &mut Events,
    node: u32,
    s: u32,
    committer: Committer,
) -> (Work, StepOut)
    requires can { CanCommit memory.old events.old.places committer }
    requires table { IsTable table.old.documents }
    ensures made { CommitsOn (stepping s node (parts table.old memory.old events.old.list))
        committer (parts table.new memory.new events.new.list) result.0 result.1 }
    ensures places { events.old.places + needed result.0 ≤ events.new.places + needed_by committer }
    ensures order { IsTable table.new.documents }
{
    match committer.stage() {
        Stage::Finish | Stage::Done => end_on(memory, events, node, committer),
        Stage::Mark | Stage::Write | Stage::Look | Stage::Last | Stage::Undo => {
            let mut committer = committer;
            let answer = update_on(table, events, &mut committer, s);
            (Work::Commit(committer), answer)
        }
    }
}

// The operation on a document that is due. Where memory is refused for it nothing changes, and the
// commit turns to undoing.
#[tactic(auto, using(oak_saves::proofs::Feeding::want_is, oak_saves::proofs::Needs::want_needs))]
fn update_on(
    table: &mut DocTable,
    events: &mut Events,
    committer: &mut Committer,
    s: u32,
) -> StepOut
    requires updating { IsUpdating (stage_of committer.old) }
    requires places { needed_by committer.old ≤ events.old.places }
    requires table { IsTable table.old.documents }
    ensures made { UpdatesOn s (saving table.old events.old.list committer.old)
        (saving table.new events.new.list committer.new) result }
    ensures places { events.old.places + needed_by committer.new
        ≤ events.new.places + needed_by committer.old }
    ensures order { IsTable table.new.documents }
{
    match oak_saves::update(table, events, committer, s) {
        Ok(kind) => StepOut::Went(kind),
        Err(AllocError) => {
            committer.refuse_memory();
            StepOut::Memory
        }
    }
}

// The end of a commit's revision.
fn end_on(
    memory: &mut NodeMem,
    events: &mut Events,
    node: u32,
    committer: Committer,
) -> (Work, StepOut)
    requires can { CanCommit memory.old events.old.places committer }
    requires over { IsOver committer }
    ensures made { EndsSo committer result.0 result.1 }
    ensures memory { memory.new ≡ finished memory.old committer.revision }
    ensures list { events.new.list
        ≡ events.old.list ++ end_events node memory.old committer.revision }
    ensures places { events.old.places + needed result.0 ≤ events.new.places + needed_by committer }
{
    oak_saves::end(memory, events, node, committer.revision());
    ended(committer)
}

// What a session does whose commit's revision has ended.
#[tactic(auto, using(oak_saves::proofs::Needs::settled_needs, oak_saves::proofs::Needs::committed_needs))]
fn ended(committer: Committer) -> (Work, StepOut)
    requires { IsOver committer }
    ensures made { EndsSo committer result.0 result.1 }
    ensures places { needed result.0 + 2 ≤ needed_by committer }
{
    let mut committer = committer;
    let r = committer.revision();
    // The end takes no memory.
    let _ = committer.feed(Reply::Finished);
    match committer.end() {
        CommitEnd::Committed(_) => (Work::Move(r), StepOut::Went(StepKind::Finish)),
        end => (Work::Rest, StepOut::Ready(TaskEnd::Commit(end))),
    }
}

// An accepted commit that has ended: the base moves to the head once that sees the revision.
fn move_on(memory: &mut NodeMem, events: &mut Events, s: u32, r: Revision) -> (Work, StepOut)
    requires { CanMove s memory.old events.old.places r }
    ensures made { (k : ℕ) (t : Table) → Moves (stepping s k (parts t memory.old events.old.list)) r
        (parts t memory.new events.new.list) result.0 result.1 }
    ensures places { events.old.places + needed result.0 ≤ events.new.places + 1 }
{
    match memory.awaits(r) {
        Awaits::Pending(q) => (Work::Move(r), StepOut::Wait(q)),
        Awaits::Ready => {
            refresh_kept(memory, events, s);
            let end = CommitEnd::Committed(r);
            (Work::Rest, StepOut::Ready(TaskEnd::Commit(end)))
        }
    }
}
