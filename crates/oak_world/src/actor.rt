// A session's seat in the world: what it does, what is kept for its reply, and its steps.
ghost use Rattle.std.specs.Prelude.{◌≡◌, ◌≤◌, ◌+◌, ◌∷◌, ◌++◌, [], false, IfOk, IsTrue, None, OnErr, OnOk, Some, cond, length, reverse};
ghost use Rattle.std.specs.Option.{IsSomeAnd, option_map_or};
ghost use Rattle.oak_machine.specs.declared.event.Event.TheVariants as event;
ghost use Rattle.oak_node.specs.Pins.{pin_of};
ghost use Rattle.oak_read.specs.Reading.{IsTable};
ghost use Rattle.core_world.specs.States.{reader_pin};
ghost use Rattle.oak_step.specs.Parts.{needed};
ghost use Rattle.oak_step.specs.declared.work.Work.TheVariants as work;
ghost use Rattle.oak_world.specs.Kept.{IsPlaced};
ghost use Rattle.oak_tidy.specs.Replies.{all_parts};
ghost use Rattle.oak_world.specs.Acting.{Acts, ActsOnAll, CanAct, is_tidying};
ghost use Rattle.oak_world.specs.Steps.{attached_after, attaching, attaching_by, is_made, reads_after, reads_of_load, work_left};
ghost use Rattle.oak_world.specs.Worlds.{IsAtRest, reply_events, shown_actor, told_first};

use jr_path::{DocId, Text};
use jr_rev::Pin;
use oak_machine::{Event, Events};
use oak_node::NodeMem;
use oak_port::{StepOut, TaskEnd};
use oak_step::{Upkeep, Work, step_work};
use oak_store::DocTable;
use oak_tidy::{Tidied, tidy};
use std::alloc::{AllocError, Global};
use std::marker::Model;
use std::mem;

// A session, with what is kept for it.
pub(crate) struct Actor {
    pub(crate) work: Work,
    // How many events the journal had when it was told what to do.
    pub(crate) began: usize,
    // Room for the session's next reply, where that is reserved.
    pub(crate) reply: Option<Room>,
    // How many of the journal's places are kept for it.
    pub(crate) places: usize,
    // How many documents its loads and lists have read.
    pub(crate) reads: u64,
    // Whether the session is attached to a checkpoint.
    pub(crate) attached: bool,
}

// By hand, so that its parts are let go in one call.
impl Drop for Actor {
    fn drop(self) {
        let Actor {
            work,
            began: _,
            reply,
            places: _,
            reads: _,
            attached: _,
        } = self;
        drop(work);
        drop(reply);
    }
}

impl Actor {
    // A session that does nothing.
    pub(crate) fn idle() -> Actor
        ensures { result ≡ record {
          work = work.Rest;
          began = 0;
          reply = None;
          places = 0;
          reads = 0;
          attached = false;
        } }
    {
        Actor {
            work: Work::Rest,
            began: 0,
            reply: None,
            places: 0,
            reads: 0,
            attached: false,
        }
    }

    // The pin at which it reads: while it is attached that of its checkpoint, which the settings
    // keep for it, else that of its node's memory.
    pub(crate) fn pin(&self, table: &DocTable, memory: &NodeMem, s: u32) -> Option<Pin>
        ensures { result ≡ cond self.now.attached (reader_pin table.now s) (pin_of memory.now s) }
    {
        if self.attached {
            reader_pin(table, s)
        } else {
            memory.pin_of(s)
        }
    }

    // Keeps room for the next reply, and a place of the journal. Where memory is refused nothing
    // changes.
    pub(crate) fn reserve(&mut self, events: &mut Events, room: Room) -> Result<(), AllocError>
        requires placed { IsPlaced self.old }
        requires places { self.old.places ≤ events.old.places }
        ensures ok { OnOk result
            (shown_actor self.new ≡ record (shown_actor self.old) { reply = Some room }) }
        ensures err { OnErr result (shown_actor self.new ≡ shown_actor self.old) }
        ensures list { events.new.list ≡ events.old.list }
        ensures placed { IsPlaced self.new }
        ensures places { events.new.places + self.old.places ≡ events.old.places + self.new.places }
    {
        if self.reply.is_none() {
            events.keep(1)?;
            let _all = events.places();
            self.places += 1;
        }
        self.reply = Some(room);
        Ok(())
    }

    // Begins what the session does now. A split or a collection keeps a place of the journal for
    // how it ends. Where memory is refused nothing changes.
    pub(crate) fn begin(&mut self, events: &mut Events, work: Work) -> Result<(), AllocError>
        requires needed { needed work ≤ cond (is_tidying work) 1 0 }
        requires placed { IsPlaced self.old }
        requires places { self.old.places ≤ events.old.places }
        ensures ok { OnOk result (shown_actor self.new ≡ record (shown_actor self.old) {
          work = work;
          began = length events.old.list;
        }) }
        ensures err { OnErr result (shown_actor self.new ≡ shown_actor self.old) }
        ensures list { events.new.list ≡ events.old.list }
        ensures placed { IsPlaced self.new }
        ensures places { events.new.places + self.old.places ≡ events.old.places + self.new.places }
    {
        if is_tidying(&work) {
            events.keep(1)?;
            let _all = events.places();
            self.places += 1;
        }
        self.began = events.len();
        self.work = work;
        Ok(())
    }

    // Says a reply for which room is kept, and before it how a split or a collection ended, where
    // that is to be told. No memory is taken.
    pub(crate) fn say(&mut self, events: &mut Events, s: u32, index: u32, text: &str)
        requires rest { IsAtRest self.old.work }
        requires room { IsSomeAnd self.old.reply (λ bytes. length text.now ≤ bytes) }
        requires placed { IsPlaced self.old }
        requires places { self.old.places ≤ events.old.places }
        ensures actor { shown_actor self.new ≡ record (shown_actor self.old) {
          work = work.Rest;
          reply = None;
        } }
        ensures list { events.new.list
            ≡ events.old.list ++ reverse (reply_events s index text.now self.old.work) }
        ensures placed { IsPlaced self.new }
        ensures places { events.new.places + self.old.places ≡ events.old.places + self.new.places }
    {
        self.tell(events);
        self.reply(events, s, index, text);
    }

    // Tells how a split or a collection ended, where that is to be told.
    fn tell(&mut self, events: &mut Events)
        requires rest { IsAtRest self.old.work }
        requires placed { IsPlaced self.old }
        requires places { self.old.places ≤ events.old.places }
        ensures actor { shown_actor self.new ≡ record (shown_actor self.old) { work = work.Rest } }
        ensures list { events.new.list ≡ events.old.list ++ told_first self.old.work }
        ensures placed { IsPlaced self.new }
        ensures places { events.new.places + self.old.places ≡ events.old.places + self.new.places }
        ensures kept { self.new.places ≤ events.new.places }
    {
        match mem::replace(&mut self.work, Work::Rest) {
            Work::Told(told) => {
                events.push_kept(told);
                self.places -= 1;
            }
            Work::Rest => {}
            _ => unreachable!(),
        }
    }

    // Says a reply for which room is kept.
    fn reply(&mut self, events: &mut Events, s: u32, index: u32, text: &str)
        requires room { IsSomeAnd self.old.reply (λ bytes. length text.now ≤ bytes) }
        requires placed { IsPlaced self.old }
        requires places { self.old.places ≤ events.old.places }
        ensures actor { shown_actor self.new ≡ record (shown_actor self.old) { reply = None } }
        ensures list { events.new.list ≡ events.old.list ++ event.Said s index text.now ∷ [] }
        ensures placed { IsPlaced self.new }
        ensures places { events.new.places + self.old.places ≡ events.old.places + self.new.places }
    {
        if let Some(room) = self.reply.take() {
            events.push_kept(Event::Said(s, index, room.fill(text)));
            self.places -= 1;
        }
    }
}

// The pair that the settings keep for a session, where they have it as a reader.
fn reader_pin(table: &DocTable, s: u32) -> Option<Pin>
    ensures { result ≡ reader_pin table.now s }
{
    match table.find(&DocId::Settings) {
        Some(settings) => settings.readers.get(&s).copied(),
        None => None,
    }
}

// One step of a session: it keeps its places of the journal, and no others.
pub(crate) fn step_actor(
    alloc: Global,
    table: &mut DocTable,
    memories: &mut Vec<NodeMem>,
    events: &mut Events,
    node: u32,
    s: u32,
    actor: &mut Actor,
) -> StepOut
    requires can { CanAct s node memories.old.items events.old.places actor.old.work }
    requires table { IsTable table.old.documents }
    requires placed { IsPlaced actor.old }
    requires places { actor.old.places ≤ events.old.places }
    ensures made { Acts s node (all_parts table.old memories.old.items events.old.list)
        actor.old.work (all_parts table.new memories.new.items events.new.list) actor.new.work
        result }
    ensures began { actor.new.began ≡ actor.old.began }
    ensures reply { actor.new.reply ≡ actor.old.reply }
    ensures reads { actor.new.reads ≡ reads_after actor.old.work result actor.old.reads }
    ensures attached { actor.new.attached
        ≡ attached_after actor.old.work result actor.old.attached }
    ensures order { IsTable table.new.documents }
    ensures placed { IsPlaced actor.new }
    ensures places { events.new.places + actor.old.places ≡ events.old.places + actor.new.places }
{
    let others = events.places() - actor.places;
    let reads = actor.reads;
    let reading = is_read(&actor.work);
    let attaching = attaching(&actor.work);
    let work = mem::replace(&mut actor.work, Work::Rest);
    let (work, out) = act(alloc, table, memories, events, node, s, work);
    actor.reads = reads_after(reading, &out, reads);
    actor.attached = attached_after(attaching, &out, actor.attached);
    actor.work = work;
    actor.places = events.places() - others;
    settle(events, actor);
    out
}

// One step of what a session does: over all memories, or on that of its cluster node alone.
fn act(
    alloc: Global,
    table: &mut DocTable,
    memories: &mut Vec<NodeMem>,
    events: &mut Events,
    node: u32,
    s: u32,
    work: Work,
) -> (Work, StepOut)
    requires can { CanAct s node memories.old.items events.old.places work }
    requires table { IsTable table.old.documents }
    ensures made { Acts s node (all_parts table.old memories.old.items events.old.list) work
        (all_parts table.new memories.new.items events.new.list) result.0 result.1 }
    ensures places { events.old.places + needed result.0 ≤ events.new.places + needed work }
    ensures order { IsTable table.new.documents }
{
    if is_tidying(&work) {
        act_on_all(alloc, table, memories.as_slice(), events, s, work)
    } else {
        let memory = &mut memories[node as usize - 1];
        step_work(alloc, table, memory, events, node, s, work)
    }
}

// One step of a split or a collection, over all memories.
fn act_on_all(
    alloc: Global,
    table: &mut DocTable,
    memories: &[NodeMem],
    events: &mut Events,
    s: u32,
    work: Work,
) -> (Work, StepOut)
    requires tidies { IsTrue (is_tidying work) }
    requires can { CanAct s 0 memories.now events.old.places work }
    requires table { IsTable table.old.documents }
    ensures made { ActsOnAll s (all_parts table.old memories.now events.old.list) work
        (all_parts table.new memories.now events.new.list) result.0 result.1 }
    ensures places { events.old.places + needed result.0 ≤ events.new.places + needed work }
    ensures order { IsTable table.new.documents }
{
    match work {
        Work::Tidy(tidying) => {
            let (left, out) = tidy(alloc, table, memories, events, s, tidying);
            (work_left(left), out)
        }
        _ => unreachable!(),
    }
}

// What a session does whose split or collection has left this.
fn work_left(left: Tidied) -> Work
    ensures { result ≡ work_left left }
{
    match left {
        Tidied::Going(tidying) => Work::Tidy(tidying),
        Tidied::Told(told) => Work::Told(told),
        Tidied::Gone => Work::Rest,
    }
}

// Whether a session splits or collects.
fn is_tidying(work: &Work) -> bool
    ensures { result ≡ is_tidying work.now }
{
    match work {
        Work::Tidy(_) => true,
        Work::Rest
        | Work::Login
        | Work::End
        | Work::Refresh
        | Work::Read(_)
        | Work::Changes(_)
        | Work::Plan(_, _)
        | Work::Commit(_)
        | Work::Move(_)
        | Work::Upkeep(_)
        | Work::Told(_) => false,
    }
}

// Whether what a session does is a load or a list.
fn is_read(work: &Work) -> bool
    ensures { (out : _) (reads : _)
        → reads_after work.now out reads ≡ cond result (reads_of_load out reads) reads }
{
    match work {
        Work::Read(_) => true,
        Work::Rest
        | Work::Login
        | Work::End
        | Work::Refresh
        | Work::Changes(_)
        | Work::Plan(_, _)
        | Work::Commit(_)
        | Work::Move(_)
        | Work::Upkeep(_)
        | Work::Tidy(_)
        | Work::Told(_) => false,
    }
}

// Whether a session is attached once what it does is made, where that moves its base.
fn attaching(work: &Work) -> Option<bool>
    ensures { result ≡ attaching work.now }
{
    match work {
        Work::Login | Work::Refresh | Work::Move(_) => Some(false),
        Work::Upkeep(upkeep) => attaching_by(upkeep),
        Work::Rest
        | Work::End
        | Work::Read(_)
        | Work::Changes(_)
        | Work::Plan(_, _)
        | Work::Commit(_)
        | Work::Tidy(_)
        | Work::Told(_) => None,
    }
}

fn attaching_by(upkeep: &Upkeep) -> Option<bool>
    ensures { result ≡ attaching_by upkeep.now }
{
    match upkeep {
        Upkeep::Attach(_) => Some(true),
        Upkeep::Detach => Some(false),
        _ => None,
    }
}

// Whether a session is attached after a step, by whether it was.
fn attached_after(attaching: Option<bool>, out: &StepOut, was: bool) -> bool
    ensures { result ≡ option_map_or (λ now. cond (is_made out.now) now was) attaching was }
{
    match attaching {
        Some(now) => { if is_made(out) { now } else { was } }
        None => was,
    }
}

// Whether a step was made, and found what it asked for.
fn is_made(out: &StepOut) -> bool
    ensures { result ≡ is_made out.now }
{
    match out {
        StepOut::Ready(TaskEnd::NoCheckpoint) | StepOut::Wait(_) | StepOut::Memory => false,
        _ => true,
    }
}

// How many documents a session's loads have read after a step.
fn reads_after(reading: bool, out: &StepOut, reads: u64) -> u64
    ensures { result ≡ cond reading (reads_of_load out.now reads) reads }
{
    match out {
        StepOut::Memory => reads,
        _ => {
            if reading {
                reads.saturating_add(1)
            } else {
                reads
            }
        }
    }
}

// Gives back the places that a session at rest has no use for.
fn settle(events: &mut Events, actor: &mut Actor)
    requires placed { IsPlaced actor.old }
    requires places { actor.old.places ≤ events.old.places }
    ensures list { events.new.list ≡ events.old.list }
    ensures work { actor.new.work ≡ actor.old.work }
    ensures began { actor.new.began ≡ actor.old.began }
    ensures reply { actor.new.reply ≡ actor.old.reply }
    ensures reads { actor.new.reads ≡ actor.old.reads }
    ensures attached { actor.new.attached ≡ actor.old.attached }
    ensures placed { IsPlaced actor.new }
    ensures places { events.new.places + actor.old.places ≡ events.old.places + actor.new.places }
{
    if let Work::Rest = actor.work {
        let used = if actor.reply.is_some() { 1 } else { 0 };
        events.give_back(actor.places - used);
        actor.places = used;
    }
}

// Room for the text of a reply of so many bytes.
#[derive(Drop)]
pub(crate) struct Room {
    text: String,
    bytes: usize,
}

impl Model for Room {
    ghost use Rattle.std.specs.Prelude.{◌≡◌, ◌≤◌, ℕ, []};
    ghost use Rattle.std.specs.String.{string_bytes, string_capacity, string_len};
    ghost use Rattle.oak_world.specs.Rooms.{IsRoom};

    ghost Value = { ℕ };

    ghost view = { λ r. r.bytes };

    ghost invariant = { λ r. IsRoom (string_bytes r.text) (string_len r.text)
        (string_capacity r.text) r.bytes };
}

impl Room {
    pub(crate) fn new(alloc: Global, bytes: usize) -> Result<Room, AllocError>
        ensures { IfOk result (λ room. room ≡ bytes) }
    {
        let mut text = String::new(alloc);
        text.reserve(bytes)?;
        Ok(Room { text, bytes })
    }

    // The text, without memory.
    pub(crate) fn fill(self, text: &str) -> Text
        requires { length text.now ≤ self }
        ensures { result ≡ text.now }
    {
        let mut all = self.text;
        let _ = all.push_str(text);
        Text::of(all)
    }
}
