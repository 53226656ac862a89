// The steps on the settings' document: checkpoints, and the sessions that are attached to them.
ghost use Rattle.std.specs.Prelude.{◌≡◌, ◌∷◌, ◌++◌, [], ℕ, IsSome, OnErr, OnOk, cond};
ghost use Rattle.oak_checkpoint.specs.Settings.{attach_op, create_op, detach_op, release_op};
ghost use Rattle.oak_machine.specs.declared.event.Event.TheVariants as event;
ghost use Rattle.oak_machine.specs.declared.event.StepKind.TheVariants as kind;
ghost use Rattle.oak_node.specs.Memory.{NodeState};
ghost use Rattle.oak_node.specs.Pins.{pin_of};
ghost use Rattle.oak_read.specs.Reading.{IsTable};
ghost use Rattle.core_world.specs.Steps.{after_update};
ghost use Rattle.oak_step.specs.Parts.{KeepsUp, stepping};
ghost use Rattle.oak_saves.specs.Saves.{parts};
ghost use Rattle.oak_step.specs.Upkeeps.{set_checkpoint};
ghost use Rattle.oak_step.specs.declared.upkeep.Upkeep.TheVariants as upkeep;

use crate::work::Work;
use jr_path::{DeepCopy, DocId, Text};
use jr_rev::Pin;
use oak_acts::change;
use oak_doc::Reply;
use oak_machine::{Event, Events, StepKind};
use oak_node::NodeMem;
use oak_port::{StepOut, TaskEnd};
use oak_store::DocTable;
use std::alloc::{AllocError, Global};

// A checkpoint is made at the session's pin.
pub(crate) fn checkpoint(
    alloc: Global,
    table: &mut DocTable,
    memory: &NodeMem,
    events: &mut Events,
    s: u32,
    name: &Text,
) -> (Work, StepOut)
    requires pinned { IsSome (pin_of memory.now s) }
    requires table { IsTable table.old.documents }
    ensures made { (k : ℕ) → KeepsUp (stepping s k (parts table.old memory.now events.old.list))
        (upkeep.Checkpoint name.now) (parts table.new memory.now events.new.list)
        result.0 result.1 }
    ensures places { events.new.places ≡ events.old.places }
    ensures order { IsTable table.new.documents }
{
    match memory.pin_of(s) {
        Some(pin) => match create(alloc, table, events, name, pin) {
            Ok(_) => (Work::Rest, StepOut::Ready(TaskEnd::Set(None))),
            Err(AllocError) => (Work::Rest, StepOut::Memory),
        },
        None => unreachable!(),
    }
}

fn create(
    alloc: Global,
    table: &mut DocTable,
    events: &mut Events,
    name: &Text,
    pin: Pin,
) -> Result<Reply, AllocError>
    requires table { IsTable table.old.documents }
    ensures table { OnOk result (table.new ≡ after_update table.old (create_op name.now pin)) }
    ensures list { OnOk result
        (events.new.list ≡ events.old.list ++ event.Checkpoint name.now pin.base ∷ []) }
    ensures kept { OnErr result (table.new ≡ table.old) }
    ensures err { OnErr result (events.new.list ≡ events.old.list) }
    ensures places { events.new.places ≡ events.old.places }
    ensures order { IsTable table.new.documents }
{
    let told = name.copy()?;
    let op = oak_checkpoint::create(alloc, name.as_str(), &pin)?;
    let done = change(table, events, &op, Event::Checkpoint(told, pin.base));
    drop(op);
    done
}

// A checkpoint is released, where the settings have it.
pub(crate) fn release(
    alloc: Global,
    table: &mut DocTable,
    events: &mut Events,
    s: u32,
    name: &Text,
) -> (Work, StepOut)
    requires table { IsTable table.old.documents }
    ensures made { (k : ℕ) (m : NodeState) → KeepsUp
        (stepping s k (parts table.old m events.old.list)) (upkeep.Release name.now)
        (parts table.new m events.new.list) result.0 result.1 }
    ensures places { events.new.places ≡ events.old.places }
    ensures order { IsTable table.new.documents }
{
    match found(table, name) {
        Some(_) => match drop_checkpoint(alloc, table, events, s, name, true) {
            Ok(_) => (Work::Rest, StepOut::Ready(TaskEnd::Set(None))),
            Err(AllocError) => (Work::Rest, StepOut::Memory),
        },
        None => match drop_checkpoint(alloc, table, events, s, name, false) {
            Ok(_) => (Work::Rest, StepOut::Ready(TaskEnd::NoCheckpoint)),
            Err(AllocError) => (Work::Rest, StepOut::Memory),
        },
    }
}

fn drop_checkpoint(
    alloc: Global,
    table: &mut DocTable,
    events: &mut Events,
    s: u32,
    name: &Text,
    there: bool,
) -> Result<Reply, AllocError>
    requires table { IsTable table.old.documents }
    ensures table { OnOk result (table.new ≡ after_update table.old (release_op name.now)) }
    ensures list { OnOk result (events.new.list ≡ events.old.list
        ++ cond there (event.Release name.now) (event.Went s kind.Settings) ∷ []) }
    ensures kept { OnErr result (table.new ≡ table.old) }
    ensures err { OnErr result (events.new.list ≡ events.old.list) }
    ensures places { events.new.places ≡ events.old.places }
    ensures order { IsTable table.new.documents }
{
    let told = name.copy()?;
    let op = oak_checkpoint::release(alloc, name.as_str())?;
    let done = change(table, events, &op, release_event(s, told, there));
    drop(op);
    done
}

// The event of a release, or of a step that found nothing to release.
fn release_event(s: u32, name: Text, there: bool) -> Event
    ensures { result ≡ cond there (event.Release name) (event.Went s kind.Settings) }
{
    if there {
        Event::Release(name)
    } else {
        Event::Went(s, StepKind::Settings)
    }
}

// The session becomes a reader of a checkpoint, where the settings have it.
pub(crate) fn attach(
    alloc: Global,
    table: &mut DocTable,
    events: &mut Events,
    s: u32,
    name: &Text,
) -> (Work, StepOut)
    requires table { IsTable table.old.documents }
    ensures made { (k : ℕ) (m : NodeState) → KeepsUp
        (stepping s k (parts table.old m events.old.list)) (upkeep.Attach name.now)
        (parts table.new m events.new.list) result.0 result.1 }
    ensures places { events.new.places ≡ events.old.places }
    ensures order { IsTable table.new.documents }
{
    match found(table, name) {
        Some(pin) => match put_reader(alloc, table, events, s, name, true) {
            Ok(_) => (Work::Rest, StepOut::Ready(TaskEnd::Set(Some(pin)))),
            Err(AllocError) => (Work::Rest, StepOut::Memory),
        },
        None => match put_reader(alloc, table, events, s, name, false) {
            Ok(_) => (Work::Rest, StepOut::Ready(TaskEnd::NoCheckpoint)),
            Err(AllocError) => (Work::Rest, StepOut::Memory),
        },
    }
}

fn put_reader(
    alloc: Global,
    table: &mut DocTable,
    events: &mut Events,
    s: u32,
    name: &Text,
    there: bool,
) -> Result<Reply, AllocError>
    requires table { IsTable table.old.documents }
    ensures table { OnOk result (table.new ≡ after_update table.old (attach_op s name.now)) }
    ensures list { OnOk result (events.new.list ≡ events.old.list
        ++ cond there (event.Attach s name.now) (event.Went s kind.Settings) ∷ []) }
    ensures kept { OnErr result (table.new ≡ table.old) }
    ensures err { OnErr result (events.new.list ≡ events.old.list) }
    ensures places { events.new.places ≡ events.old.places }
    ensures order { IsTable table.new.documents }
{
    let told = name.copy()?;
    let op = oak_checkpoint::attach(alloc, s, name.as_str())?;
    let done = change(table, events, &op, attach_event(s, told, there));
    drop(op);
    done
}

// The event of an attaching, or of a step that found nothing to attach to.
fn attach_event(s: u32, name: Text, there: bool) -> Event
    ensures { result ≡ cond there (event.Attach s name) (event.Went s kind.Settings) }
{
    if there {
        Event::Attach(s, name)
    } else {
        Event::Went(s, StepKind::Settings)
    }
}

// The second step of a detaching: the session, which is pinned there at the head, is no reader
// any more.
pub(crate) fn detach(
    alloc: Global,
    table: &mut DocTable,
    events: &mut Events,
    s: u32,
    pin: Pin,
) -> (Work, StepOut)
    requires table { IsTable table.old.documents }
    ensures made { (k : ℕ) (m : NodeState) → KeepsUp
        (stepping s k (parts table.old m events.old.list)) (upkeep.Detaching pin)
        (parts table.new m events.new.list) result.0 result.1 }
    ensures places { events.new.places ≡ events.old.places }
    ensures order { IsTable table.new.documents }
{
    match drop_reader(alloc, table, events, s) {
        Ok(_) => (Work::Rest, StepOut::Ready(TaskEnd::Pinned(pin))),
        Err(AllocError) => (Work::Rest, StepOut::Memory),
    }
}

fn drop_reader(
    alloc: Global,
    table: &mut DocTable,
    events: &mut Events,
    s: u32,
) -> Result<Reply, AllocError>
    requires table { IsTable table.old.documents }
    ensures table { OnOk result (table.new ≡ after_update table.old (detach_op s)) }
    ensures list { OnOk result (events.new.list ≡ events.old.list ++ event.Detach s ∷ []) }
    ensures kept { OnErr result (table.new ≡ table.old) }
    ensures err { OnErr result (events.new.list ≡ events.old.list) }
    ensures places { events.new.places ≡ events.old.places }
    ensures order { IsTable table.new.documents }
{
    let op = oak_checkpoint::detach(alloc, s)?;
    let done = change(table, events, &op, Event::Detach(s));
    drop(op);
    done
}

// The checkpoint of that name that the settings have.
fn found(table: &DocTable, name: &Text) -> Option<Pin>
    ensures { result ≡ set_checkpoint table.now name.now }
{
    match table.find(&DocId::Settings) {
        Some(settings) => oak_checkpoint::found(settings, name.as_str()),
        None => None,
    }
}
