// The steps of a background write and of a background read: each makes the operation for which its
// automaton asks, and feeds it the reply.
ghost use Rattle.std.specs.Prelude.{◌≡◌, ◌∷◌, ◌++◌, [], ℕ, IfOk, OnErr, OnOk};
ghost use Rattle.oak_machine.specs.declared.event.Event.TheVariants as event;
ghost use Rattle.oak_machine.specs.declared.event.StepKind.TheVariants as kind;
ghost use Rattle.oak_node.specs.Memory.{NodeState};
ghost use Rattle.oak_node.specs.Notes.{IsPending, without_seen};
ghost use Rattle.oak_read.specs.Reading.{IsTable};
ghost use Rattle.oak_store.specs.Tables.{Table};
ghost use Rattle.oak_sync.specs.Learning as learning;
ghost use Rattle.oak_sync.specs.Publishing as publishing;
ghost use Rattle.oak_sync.specs.declared.stage.Stage.TheVariants as stage;
ghost use Rattle.oak_step.specs.Parts.{IsPublishing, IsBackReading, KeepsUp, LearnsOn, PublishesOn, stepping};
ghost use Rattle.oak_saves.specs.Saves.{parts};
ghost use Rattle.oak_step.specs.declared.upkeep.Upkeep.TheVariants as upkeep;
ghost use Rattle.oak_step.specs.declared.work.Work.TheVariants as work;

use crate::upkeep::Upkeep;
use crate::work::Work;
use oak_acts::ask;
use oak_doc::Reply;
use oak_machine::{Event, Events, StepKind};
use oak_node::{NodeMem, Pending};
use oak_port::{StepOut, TaskEnd};
use oak_store::DocTable;
use oak_sync::{BackRead, BackWrite, Stage};
use std::alloc::{AllocError, Global};

// The notes are taken whose revision the head sees.
pub(crate) fn write(memory: &mut NodeMem, events: &mut Events, s: u32) -> (Work, StepOut)
    ensures made { (k : ℕ) (t : Table) → KeepsUp (stepping s k (parts t memory.old events.old.list))
        upkeep.Write (parts t memory.new events.new.list) result.0 result.1 }
    ensures places { events.new.places ≡ events.old.places }
{
    match take(memory, events, s) {
        Ok(pending) => {
            let work = Work::Upkeep(Upkeep::Noted(pending));
            (work, StepOut::Went(StepKind::Back))
        }
        Err(AllocError) => (Work::Rest, StepOut::Memory),
    }
}

fn take(memory: &mut NodeMem, events: &mut Events, s: u32) -> Result<Pending, AllocError>
    ensures pending { IfOk result (IsPending memory.old) }
    ensures memory { OnOk result (memory.new ≡ without_seen memory.old) }
    ensures list { OnOk result (events.new.list ≡ events.old.list ++ event.Went s kind.Back ∷ []) }
    ensures kept { OnErr result (memory.new ≡ memory.old) }
    ensures err { OnErr result (events.new.list ≡ events.old.list) }
    ensures places { events.new.places ≡ events.old.places }
{
    events.keep(1)?;
    let Ok(pending) = memory.take_pending() else {
        events.give_back(1);
        return Err(AllocError);
    };
    events.push_kept(Event::Went(s, StepKind::Back));
    Ok(pending)
}

// A background write begins with the notes that it took, and makes its first update.
pub(crate) fn begin(
    alloc: Global,
    table: &mut DocTable,
    events: &mut Events,
    node: u32,
    s: u32,
    pending: Pending,
) -> (Work, StepOut)
    requires table { IsTable table.old.documents }
    ensures made { (m : NodeState) → KeepsUp (stepping s node (parts table.old m events.old.list))
        (upkeep.Noted pending) (parts table.new m events.new.list) result.0 result.1 }
    ensures places { events.new.places ≡ events.old.places }
    ensures order { IsTable table.new.documents }
{
    match BackWrite::new(alloc, pending) {
        Ok(write) => publish(table, events, node, s, write),
        Err(AllocError) => (Work::Rest, StepOut::Memory),
    }
}

// The update that a background write has due is made: of a document below the root, or the root's,
// which publishes.
pub(crate) fn publish(
    table: &mut DocTable,
    events: &mut Events,
    node: u32,
    s: u32,
    write: BackWrite,
) -> (Work, StepOut)
    requires table { IsTable table.old.documents }
    requires due { IsPublishing (publishing.stage_of write) }
    ensures made { (m : NodeState) → PublishesOn
        (stepping s node (parts table.old m events.old.list)) write
        (parts table.new m events.new.list) result.0 result.1 }
    ensures places { events.new.places ≡ events.old.places }
    ensures order { IsTable table.new.documents }
{
    let r = write.upto();
    let Ok(asking) = write.next() else {
        return (Work::Rest, StepOut::Memory);
    };
    match write.stage() {
        Stage::Write => match ask(table, events, asking, Event::Went(s, StepKind::Back)) {
            Ok(reply) => (told_write(write, reply), StepOut::Went(StepKind::Back)),
            Err(AllocError) => (Work::Rest, StepOut::Memory),
        },
        Stage::Publish => match ask(table, events, asking, Event::Out(node, r)) {
            Ok(_reply) => (Work::Rest, StepOut::Ready(TaskEnd::Published(r))),
            Err(AllocError) => (Work::Rest, StepOut::Memory),
        },
        Stage::Read | Stage::Learn | Stage::Done => unreachable!(),
    }
}

// A background write that has been told what it asked.
fn told_write(write: BackWrite, reply: Reply) -> Work
    ensures { result ≡ work.Upkeep (upkeep.Publish (publishing.fed write reply)) }
{
    let mut write = write;
    // A reply takes no memory.
    let _ = write.feed(reply);
    Work::Upkeep(Upkeep::Publish(write))
}

// What a background read has due: the root's document is read, or the memory learns what that told.
pub(crate) fn read(
    table: &mut DocTable,
    memory: &mut NodeMem,
    events: &mut Events,
    node: u32,
    s: u32,
    read: BackRead,
) -> (Work, StepOut)
    requires table { IsTable table.old.documents }
    requires due { IsBackReading (learning.stage_of read) }
    ensures made { LearnsOn (stepping s node (parts table.old memory.old events.old.list)) read
        (parts table.new memory.new events.new.list) result.0 result.1 }
    ensures places { events.new.places ≡ events.old.places }
    ensures order { IsTable table.new.documents }
{
    match read.stage() {
        Stage::Read => read_root(table, events, s, read),
        Stage::Learn => learn(memory, events, node, &read),
        Stage::Write | Stage::Publish | Stage::Done => unreachable!(),
    }
}

// The root's document is read.
fn read_root(table: &mut DocTable, events: &mut Events, s: u32, read: BackRead) -> (Work, StepOut)
    requires table { IsTable table.old.documents }
    requires due { learning.stage_of read ≡ stage.Read }
    ensures made { (k : ℕ) (m : NodeState) → LearnsOn
        (stepping s k (parts table.old m events.old.list)) read (parts table.new m events.new.list)
        result.0 result.1 }
    ensures places { events.new.places ≡ events.old.places }
    ensures order { IsTable table.new.documents }
{
    let Ok(asking) = read.next() else {
        return (Work::Rest, StepOut::Memory);
    };
    match ask(table, events, asking, Event::Went(s, StepKind::Back)) {
        Ok(reply) => (told_read(read, reply), StepOut::Went(StepKind::Back)),
        Err(AllocError) => (Work::Rest, StepOut::Memory),
    }
}

// A background read that has been told what it asked.
fn told_read(read: BackRead, reply: Reply) -> Work
    ensures { result ≡ work.Upkeep (upkeep.Read (learning.fed read reply)) }
{
    let mut read = read;
    // A reply takes no memory.
    let _ = read.feed(reply);
    Work::Upkeep(Upkeep::Read(read))
}

// The memory learns what the root told, and the background read ends.
fn learn(memory: &mut NodeMem, events: &mut Events, node: u32, read: &BackRead) -> (Work, StepOut)
    requires { learning.stage_of read.now ≡ stage.Learn }
    ensures made { (s : ℕ) (t : Table) → LearnsOn
        (stepping s node (parts t memory.old events.old.list)) read.now
        (parts t memory.new events.new.list) result.0 result.1 }
    ensures places { events.new.places ≡ events.old.places }
{
    if events.keep(1).is_err() {
        return (Work::Rest, StepOut::Memory);
    }
    memory.learn(read.last(), read.sweep());
    let head = memory.head();
    events.push_kept(Event::In(node, head));
    (Work::Rest, StepOut::Ready(TaskEnd::Learnt(head)))
}
