// The steps of a sweep: each makes the operation for which its automaton asks, and feeds it the
// reply.
ghost use Rattle.std.specs.Prelude.{◌≡◌, ◌≢◌, ◌∷◌, ◌++◌, [], ℕ, OnErr, OnOk};
ghost use Rattle.jr_rev.specs.declared.revision.Revision.{Revision};
ghost use Rattle.jr_rev.specs.declared.vector.RevVec.{RevVec};
ghost use Rattle.oak_doc.specs.declared.asks.Ask.TheVariants as ask;
ghost use Rattle.oak_doc.specs.declared.asks.MemoryAsk.TheVariants as asked;
ghost use Rattle.oak_machine.specs.declared.event.Event.TheVariants as event;
ghost use Rattle.oak_machine.specs.declared.event.StepKind.TheVariants as kind;
ghost use Rattle.oak_node.specs.Heads.{learned};
ghost use Rattle.oak_node.specs.Memory.{NodeState};
ghost use Rattle.oak_read.specs.Reading.{IsTable};
ghost use Rattle.oak_store.specs.Tables.{Table};
ghost use Rattle.oak_sweep.specs.Sweeping as sweeping;
ghost use Rattle.oak_sweep.specs.declared.stage.Stage.TheVariants as swept;
ghost use Rattle.oak_sweep.specs.declared.sweeper.Sweeper.{Sweeper};
ghost use Rattle.oak_step.specs.Parts.{IsPassing, KeepsUp, PassesOn, sweep_event, stepping};
ghost use Rattle.oak_saves.specs.Saves.{parts};
ghost use Rattle.oak_step.specs.declared.upkeep.Upkeep.TheVariants as upkeep;
ghost use Rattle.oak_step.specs.declared.work.Work.TheVariants as work;

use crate::upkeep::Upkeep;
use crate::work::Work;
use jr_rev::Revision;
use oak_acts::ask;
use oak_doc::{Ask, Change, MemoryAsk, Reply, UpdateOp};
use oak_machine::{Event, Events, StepKind};
use oak_node::NodeMem;
use oak_port::{StepOut, TaskEnd};
use oak_store::DocTable;
use oak_sweep::{Stage, Sweeper};
use std::alloc::{AllocError, Global};

// The sweep of a cluster node begins: of the root is read how far it goes.
pub(crate) fn begin_sweep(
    alloc: Global,
    table: &mut DocTable,
    events: &mut Events,
    node: u32,
    s: u32,
) -> (Work, StepOut)
    requires table { IsTable table.old.documents }
    ensures made { (m : NodeState) → KeepsUp (stepping s node (parts table.old m events.old.list))
        upkeep.Sweep (parts table.new m events.new.list) result.0 result.1 }
    ensures places { events.new.places ≡ events.old.places }
    ensures order { IsTable table.new.documents }
{
    match Sweeper::new(alloc, node) {
        Ok(sweeper) => pass(table, events, node, s, sweeper),
        Err(AllocError) => (Work::Rest, StepOut::Memory),
    }
}

// What a sweep has due: a document is passed, the root is told, or the memory learns how far the
// sweep went.
pub(crate) fn go_on(
    table: &mut DocTable,
    memory: &mut NodeMem,
    events: &mut Events,
    node: u32,
    s: u32,
    sweeper: Sweeper,
) -> (Work, StepOut)
    requires table { IsTable table.old.documents }
    requires due { sweeping.stage_of sweeper ≢ swept.Done }
    ensures made { PassesOn (stepping s node (parts table.old memory.old events.old.list)) sweeper
        (parts table.new memory.new events.new.list) result.0 result.1 }
    ensures places { events.new.places ≡ events.old.places }
    ensures order { IsTable table.new.documents }
{
    match sweeper.stage() {
        Stage::Root | Stage::Document | Stage::Publish => pass(table, events, node, s, sweeper),
        Stage::Learn => learn(memory, events, s, sweeper),
        Stage::Done => unreachable!(),
    }
}

// What a sweep asks of the documents is done and answered.
fn pass(
    table: &mut DocTable,
    events: &mut Events,
    node: u32,
    s: u32,
    sweeper: Sweeper,
) -> (Work, StepOut)
    requires table { IsTable table.old.documents }
    requires due { IsPassing (sweeping.stage_of sweeper) }
    ensures made { (m : NodeState) → PassesOn (stepping s node (parts table.old m events.old.list))
        sweeper (parts table.new m events.new.list) result.0 result.1 }
    ensures places { events.new.places ≡ events.old.places }
    ensures order { IsTable table.new.documents }
{
    let Ok(asking) = sweeper.next() else {
        return (Work::Rest, StepOut::Memory);
    };
    let told = sweep_event(&asking, node, s);
    match ask(table, events, asking, told) {
        Ok(reply) => (told_sweep(sweeper, reply), StepOut::Went(StepKind::Sweep)),
        Err(AllocError) => (Work::Rest, StepOut::Memory),
    }
}

// The event of what a sweep asks: that of the root's update tells how far its cluster node has
// swept.
fn sweep_event(asking: &Ask, node: u32, s: u32) -> Event
    requires { (x : Sweeper) × (asking.now ≡ sweeping.due x) }
    ensures { (x : Sweeper) → asking.now ≡ sweeping.due x
        → result ≡ sweep_event s node x asking.now }
{
    match asking {
        Ask::Update(op) => Event::Sweep(node, swept_by(op)),
        _ => Event::Went(s, StepKind::Sweep),
    }
}

// How far the root's update tells that a cluster node has swept.
fn swept_by(op: &UpdateOp) -> Revision
    requires { (r : Revision) × (op.now ≡ sweeping.sweep_op r) }
    ensures { op.now ≡ sweeping.sweep_op result }
{
    match op.changes.as_slice() {
        [Change::SweepRev(r)] => *r,
        _ => unreachable!(),
    }
}

// A sweep that has been told what it asked.
fn told_sweep(sweeper: Sweeper, reply: Reply) -> Work
    ensures { result ≡ work.Upkeep (upkeep.Sweeping (sweeping.fed sweeper reply)) }
{
    let mut sweeper = sweeper;
    // A reply takes no memory.
    let _ = sweeper.feed(reply);
    Work::Upkeep(Upkeep::Sweeping(sweeper))
}

// The memory learns how far the sweep of its cluster node went, and the sweep ends.
fn learn(memory: &mut NodeMem, events: &mut Events, s: u32, sweeper: Sweeper) -> (Work, StepOut)
    requires { sweeping.stage_of sweeper ≡ swept.Learn }
    ensures made { (k : ℕ) (t : Table) → PassesOn
        (stepping s k (parts t memory.old events.old.list)) sweeper
        (parts t memory.new events.new.list) result.0 result.1 }
    ensures places { events.new.places ≡ events.old.places }
{
    let Ok(asking) = sweeper.next() else {
        return (Work::Rest, StepOut::Memory);
    };
    match teach(memory, events, s, &asking) {
        Ok(()) => {
            let end = TaskEnd::Swept(target_of(sweeper));
            (Work::Rest, StepOut::Ready(end))
        }
        Err(AllocError) => (Work::Rest, StepOut::Memory),
    }
}

// The memory learns what is asked.
fn teach(memory: &mut NodeMem, events: &mut Events, s: u32, asking: &Ask) -> Result<(), AllocError>
    requires { (v : RevVec) × (t : RevVec) × (asking.now ≡ ask.Memory (asked.Learn v t)) }
    ensures memory { OnOk result ((v t : RevVec) → asking.now ≡ ask.Memory (asked.Learn v t)
        → memory.new ≡ learned memory.old v t) }
    ensures list { OnOk result (events.new.list ≡ events.old.list ++ event.Went s kind.Learn ∷ []) }
    ensures kept { OnErr result (memory.new ≡ memory.old) }
    ensures err { OnErr result (events.new.list ≡ events.old.list) }
    ensures places { events.new.places ≡ events.old.places }
{
    match asking {
        Ask::Memory(MemoryAsk::Learn(last, sweep)) => {
            events.keep(1)?;
            memory.learn(last, sweep);
            events.push_kept(Event::Went(s, StepKind::Learn));
            Ok(())
        }
        _ => unreachable!(),
    }
}

// How far a sweep went that the memory has learned.
fn target_of(sweeper: Sweeper) -> Revision
    requires { sweeping.stage_of sweeper ≡ swept.Learn }
    ensures { result ≡ sweeper.target }
{
    let mut sweeper = sweeper;
    // A reply takes no memory.
    let _ = sweeper.feed(Reply::Learnt);
    sweeper.end()
}
