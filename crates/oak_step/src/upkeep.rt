// Background work of a cluster node, and the settings.
ghost use Rattle.std.specs.Prelude.{◌≡◌, ◌<◌, ◌∷◌, ◌++◌, [], ℕ, IfOk, IsSome, OnErr, OnOk, Some};
ghost use Rattle.oak_machine.specs.declared.event.Event.TheVariants as event;
ghost use Rattle.oak_machine.specs.declared.event.StepKind.TheVariants as kind;
ghost use Rattle.oak_node.specs.Pins.{pin_of, with_pin};
ghost use Rattle.core_nodes.specs.Nodes.{cursor_owner};
ghost use Rattle.oak_read.specs.Reading.{IsTable};
ghost use Rattle.oak_store.specs.Tables.{Table};
ghost use Rattle.oak_step.specs.Parts.{CanKeepUp, KeepsUp, stepping};
ghost use Rattle.oak_saves.specs.Saves.{parts};
ghost use Rattle.oak_step.specs.declared.upkeep.Upkeep.TheVariants as upkeep;
ghost use Rattle.oak_step.specs.Upkeeps.{kind_kept, kind_read, kind_swept};

use crate::work::Work;
use crate::{back, settings, sweep};
use jr_path::Text;
use jr_rev::Pin;
use oak_acts::refresh;
use oak_machine::{Event, Events, StepKind};
use oak_node::{NodeMem, Pending};
use oak_port::{StepOut, TaskEnd};
use oak_store::DocTable;
use oak_sweep::Sweeper;
use oak_sync::{BackRead, BackWrite, Stage};
use std::alloc::{AllocError, Global};

/// Background work, or a change of the settings.
#[derive(Drop)]
pub enum Upkeep {
    /// A background write that has not taken its notes.
    Write,
    /// The notes that it took.
    Noted(Pending),
    /// A background write that has told some documents, and has still to tell the root's.
    Publish(BackWrite),
    /// A background read. The stage of the read tells whether it reads the root, or the memory is
    /// to learn what that told.
    Read(BackRead),
    /// A sweep that has read nothing.
    Sweep,
    /// A sweep that knows how far it goes. Its stage tells whether it passes over a document or
    /// tells the root, or the memory is to learn how far it went.
    Sweeping(Sweeper),
    Checkpoint(Text),
    Release(Text),
    /// The session is to read at the checkpoint of that name.
    Attach(Text),
    /// A detaching whose base has not moved to the head.
    Detach,
    /// The session is pinned there, at the head, and is to be no reader any more.
    Detaching(Pin),
    /// The session's cursor is to be pinned at the session's own pin.
    Observe,
}

impl Upkeep {
    /// The kind of the next step.
    pub fn due(&self) -> StepKind
        ensures { result ≡ kind_kept self.now }
    {
        match self {
            Upkeep::Write | Upkeep::Noted(_) | Upkeep::Publish(_) => StepKind::Back,
            Upkeep::Read(read) => kind_read(read.stage()),
            Upkeep::Sweep => StepKind::Sweep,
            Upkeep::Sweeping(sweeper) => kind_swept(sweeper.stage()),
            Upkeep::Checkpoint(_) | Upkeep::Release(_) | Upkeep::Attach(_) | Upkeep::Detaching(_) =>
                StepKind::Settings,
            Upkeep::Detach | Upkeep::Observe => StepKind::Pin,
        }
    }
}

// The kind of the next step of a background read.
fn kind_read(stage: Stage) -> StepKind
    ensures { result ≡ kind_read stage }
{
    match stage {
        Stage::Learn => StepKind::Learn,
        Stage::Write | Stage::Publish | Stage::Read | Stage::Done => StepKind::Back,
    }
}

// The kind of the next step of a sweep.
fn kind_swept(stage: oak_sweep::Stage) -> StepKind
    ensures { result ≡ kind_swept stage }
{
    match stage {
        oak_sweep::Stage::Learn => StepKind::Learn,
        oak_sweep::Stage::Root
        | oak_sweep::Stage::Document
        | oak_sweep::Stage::Publish
        | oak_sweep::Stage::Done => StepKind::Sweep,
    }
}

// One step of an upkeep. Where memory is refused nothing changes.
pub(crate) fn keep_up(
    alloc: Global,
    table: &mut DocTable,
    memory: &mut NodeMem,
    events: &mut Events,
    node: u32,
    s: u32,
    upkeep: Upkeep,
) -> (Work, StepOut)
    requires can { CanKeepUp s memory.old upkeep }
    requires table { IsTable table.old.documents }
    ensures made { KeepsUp (stepping s node (parts table.old memory.old events.old.list)) upkeep
        (parts table.new memory.new events.new.list) result.0 result.1 }
    ensures places { events.new.places ≡ events.old.places }
    ensures order { IsTable table.new.documents }
{
    match upkeep {
        Upkeep::Write => back::write(memory, events, s),
        Upkeep::Noted(pending) => back::begin(alloc, table, events, node, s, pending),
        Upkeep::Publish(write) => back::publish(table, events, node, s, write),
        Upkeep::Read(read) => back::read(table, memory, events, node, s, read),
        Upkeep::Sweep => sweep::begin_sweep(alloc, table, events, node, s),
        Upkeep::Sweeping(sweeper) => sweep::go_on(table, memory, events, node, s, sweeper),
        Upkeep::Checkpoint(name) => settings::checkpoint(alloc, table, memory, events, s, &name),
        Upkeep::Release(name) => settings::release(alloc, table, events, s, &name),
        Upkeep::Attach(name) => settings::attach(alloc, table, events, s, &name),
        Upkeep::Detach => pin_on(memory, events, s),
        Upkeep::Detaching(pin) => settings::detach(alloc, table, events, s, pin),
        Upkeep::Observe => observe_on(memory, events, s),
    }
}

// The first step of a detaching: the session is pinned at the head, and reads there from then on.
fn pin_on(memory: &mut NodeMem, events: &mut Events, s: u32) -> (Work, StepOut)
    requires pinned { IsSome (pin_of memory.old s) }
    ensures made { (k : ℕ) (t : Table) → KeepsUp (stepping s k (parts t memory.old events.old.list))
        upkeep.Detach (parts t memory.new events.new.list) result.0 result.1 }
    ensures places { events.new.places ≡ events.old.places }
{
    match refresh(memory, events, s) {
        Ok(pin) => {
            let work = Work::Upkeep(Upkeep::Detaching(pin));
            (work, StepOut::Went(StepKind::Pin))
        }
        Err(AllocError) => (Work::Rest, StepOut::Memory),
    }
}

// The session's cursor is pinned at the session's own pin: what it observes begins there.
fn observe_on(memory: &mut NodeMem, events: &mut Events, s: u32) -> (Work, StepOut)
    requires few { s < 64 }
    requires pinned { IsSome (pin_of memory.old s) }
    ensures made { (k : ℕ) (t : Table) → KeepsUp (stepping s k (parts t memory.old events.old.list))
        upkeep.Observe (parts t memory.new events.new.list) result.0 result.1 }
    ensures places { events.new.places ≡ events.old.places }
{
    match observe(memory, events, s) {
        Ok(pin) => (Work::Rest, StepOut::Ready(TaskEnd::Pinned(pin))),
        Err(AllocError) => (Work::Rest, StepOut::Memory),
    }
}

fn observe(memory: &mut NodeMem, events: &mut Events, s: u32) -> Result<Pin, AllocError>
    requires few { s < 64 }
    requires pinned { IsSome (pin_of memory.old s) }
    ensures pin { IfOk result (λ pin. pin_of memory.old s ≡ Some pin) }
    ensures memory { IfOk result (λ pin. memory.new ≡ with_pin memory.old (cursor_owner s) pin) }
    ensures list { OnOk result (events.new.list ≡ events.old.list ++ event.Went s kind.Pin ∷ []) }
    ensures kept { OnErr result (memory.new ≡ memory.old) }
    ensures err { OnErr result (events.new.list ≡ events.old.list) }
    ensures places { events.new.places ≡ events.old.places }
{
    events.keep(1)?;
    let Ok(pin) = memory.pin_like(64 + s, s) else {
        events.give_back(1);
        return Err(AllocError);
    };
    events.push_kept(Event::Went(s, StepKind::Pin));
    Ok(pin)
}
