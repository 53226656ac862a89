// What is asked is done and answered, with its event: on documents, or by a memory.
ghost use Rattle.std.specs.Prelude.{◌≡◌, ◌++◌, ◌∷◌, [], IfOk, OnErr, OnOk, cond, length};
ghost use Rattle.oak_doc.specs.declared.asks.Ask.TheVariants as ask;
ghost use Rattle.oak_doc.specs.declared.asks.MemoryAsk.TheVariants as asked;
ghost use Rattle.oak_doc.specs.declared.asks.Reply.TheVariants as reply;
ghost use Rattle.oak_gc.specs.Bounding.{node_reply};
ghost use Rattle.oak_machine.specs.declared.event.Event.TheVariants as event;
ghost use Rattle.oak_machine.specs.declared.event.StepKind.TheVariants as kind;
ghost use Rattle.oak_read.specs.Reading.{IsTable, answer};
ghost use Rattle.oak_store.specs.Tables.{after_removal, removal_of};
ghost use Rattle.core_world.specs.Steps.{after_update};
ghost use Rattle.oak_acts.specs.Acts.{reply_of};
ghost use Rattle.oak_tidy.specs.Replies.{all_parts, node_tells, table_after, told_by_memories};
ghost use Rattle.oak_tidy.specs.Tidyings.{AsksWithin, CanTidy, ComesTo, bound_told, takes_bound, tidied_on, tidy_events, tidying_ask, tidying_fed};

use crate::answers::{memory_reply, removal_reply, update_reply};
use crate::tidying::{Onward, Tidying};
use jr_path::DocId;
use oak_acts::{answer, change};
use oak_doc::{Ask, MemoryAsk, Reply, UpdateOp};
use oak_machine::{Event, Events, StepKind};
use oak_node::NodeMem;
use oak_store::DocTable;
use std::alloc::{AllocError, Global};

// What is due is done, answered and told, and how a task ended is copied. Where memory is refused
// nothing changes.
pub(crate) fn answered(
    alloc: Global,
    table: &mut DocTable,
    memories: &[NodeMem],
    events: &mut Events,
    s: u32,
    tidying: Tidying,
) -> Result<Onward, AllocError>
    requires can { CanTidy (length memories.now) tidying }
    requires table { IsTable table.old.documents }
    ensures table { OnOk result (table.new ≡ table_after table.old (tidying_ask tidying)) }
    ensures onward { IfOk result
        (ComesTo s (tidied_on (all_parts table.old memories.now events.old.list) tidying)) }
    ensures list { OnOk result (events.new.list ≡ events.old.list ++ tidy_events s tidying
        (tidied_on (all_parts table.old memories.now events.old.list) tidying)) }
    ensures kept { OnErr result (table.new ≡ table.old) }
    ensures err { OnErr result (events.new.list ≡ events.old.list) }
    ensures places { events.new.places ≡ events.old.places }
    ensures order { IsTable table.new.documents }
{
    match tidying.next()? {
        Ask::Find(id) => look(table, events, s, tidying, Ask::Find(id)),
        Ask::NextAfter(id) => look(table, events, s, tidying, Ask::NextAfter(id)),
        Ask::Update(op) => update(alloc, table, events, s, tidying, &op),
        Ask::RemoveIf(id, number) => remove(table, events, s, tidying, &id, number),
        Ask::Memory(asking) => remember(alloc, memories, events, s, tidying, &asking),
        Ask::Undo(_) | Ask::Done => unreachable!(),
    }
}

// A document is looked for. A reading step has no event.
fn look(
    table: &DocTable,
    events: &mut Events,
    s: u32,
    tidying: Tidying,
    asking: Ask,
) -> Result<Onward, AllocError>
    requires asked { tidying_ask tidying ≡ asking }
    ensures onward { IfOk result
        (ComesTo s (tidying_fed tidying (answer table.now.documents asking))) }
    ensures list { OnOk result (events.new.list ≡ events.old.list ++ tidy_events s tidying
        (tidying_fed tidying (answer table.now.documents asking))) }
    ensures err { OnErr result (events.new.list ≡ events.old.list) }
    ensures places { events.new.places ≡ events.old.places }
{
    match tidying.due() {
        StepKind::Read => tidying.fed(s, answer(table, asking)?),
        kind => look_counted(table, events, s, tidying, asking, kind),
    }
}

// A counted step that looks for a document has its event.
fn look_counted(
    table: &DocTable,
    events: &mut Events,
    s: u32,
    tidying: Tidying,
    asking: Ask,
    kind: StepKind,
) -> Result<Onward, AllocError>
    ensures onward { IfOk result
        (ComesTo s (tidying_fed tidying (answer table.now.documents asking))) }
    ensures list { OnOk result (events.new.list ≡ events.old.list
        ++ cond (takes_bound tidying asking)
        (event.Bound
        (bound_told (tidying_fed tidying (answer table.now.documents asking))).base
        (bound_told (tidying_fed tidying (answer table.now.documents asking))).sweep)
        (event.Went s kind) ∷ []) }
    ensures err { OnErr result (events.new.list ≡ events.old.list) }
    ensures places { events.new.places ≡ events.old.places }
{
    let takes = takes_bound(&tidying, &asking);
    let mut tidying = tidying;
    feed_found(table, &mut tidying, asking)?;
    let told = look_event(&tidying, s, kind, takes);
    let onward = tidying.onward(s)?;
    events.push(told)?;
    Ok(onward)
}

// What the documents answer is fed.
fn feed_found(table: &DocTable, tidying: &mut Tidying, asking: Ask) -> Result<(), AllocError>
    ensures { OnOk result
        (tidying.new ≡ tidying_fed tidying.old (answer table.now.documents asking)) }
{
    let reply = answer(table, asking)?;
    tidying.feed(reply)
}

// Whether a collection takes its bound once the ask is answered.
fn takes_bound(tidying: &Tidying, asking: &Ask) -> bool
    ensures { result ≡ takes_bound tidying.now asking.now }
{
    match (tidying, asking) {
        (Tidying::Collect(_), Ask::Find(DocId::Settings)) => true,
        _ => false,
    }
}

// The event of a look for a document, after it.
fn look_event(tidying: &Tidying, s: u32, kind: StepKind, takes: bool) -> Event
    ensures { result ≡ cond takes
        (event.Bound (bound_told tidying.now).base (bound_told tidying.now).sweep)
        (event.Went s kind) }
{
    if takes {
        let bound = tidying.bound();
        Event::Bound(bound.base, bound.sweep)
    } else {
        Event::Went(s, kind)
    }
}

// A document is updated, or its update is refused for another cause than memory.
fn update(
    alloc: Global,
    table: &mut DocTable,
    events: &mut Events,
    s: u32,
    tidying: Tidying,
    op: &UpdateOp,
) -> Result<Onward, AllocError>
    requires asked { tidying_ask tidying ≡ ask.Update op.now }
    requires table { IsTable table.old.documents }
    ensures table { OnOk result (table.new ≡ after_update table.old op.now) }
    ensures onward { IfOk result (ComesTo s (tidying_fed tidying (reply_of table.old op.now))) }
    ensures list { OnOk result (events.new.list ≡ events.old.list
        ++ tidy_events s tidying (tidying_fed tidying (reply_of table.old op.now))) }
    ensures kept { OnErr result (table.new ≡ table.old) }
    ensures err { OnErr result (events.new.list ≡ events.old.list) }
    ensures places { events.new.places ≡ events.old.places }
    ensures order { IsTable table.new.documents }
{
    let kind = tidying.due();
    let onward = tidying.fed(s, update_reply(alloc, table, op)?)?;
    change(table, events, op, Event::Went(s, kind))?;
    Ok(onward)
}

// A document is removed, where it has that number.
fn remove(
    table: &mut DocTable,
    events: &mut Events,
    s: u32,
    tidying: Tidying,
    id: &DocId,
    number: u64,
) -> Result<Onward, AllocError>
    requires asked { tidying_ask tidying ≡ ask.RemoveIf id.now number }
    requires table { IsTable table.old.documents }
    ensures table { OnOk result
        (table.new ≡ after_removal table.old id.now (removal_of table.old id.now number)) }
    ensures onward { IfOk result (ComesTo s
        (tidying_fed tidying (reply.Removed (removal_of table.old id.now number)))) }
    ensures list { OnOk result (events.new.list ≡ events.old.list ++ tidy_events s tidying
        (tidying_fed tidying (reply.Removed (removal_of table.old id.now number)))) }
    ensures kept { OnErr result (table.new ≡ table.old) }
    ensures err { OnErr result (events.new.list ≡ events.old.list) }
    ensures places { events.new.places ≡ events.old.places }
    ensures order { IsTable table.new.documents }
{
    let kind = tidying.due();
    let onward = tidying.fed(s, Reply::Removed(removal_reply(table, id, number)))?;
    events.push(Event::Went(s, kind))?;
    let _ = table.remove_if(id, number);
    Ok(onward)
}

// A memory is asked, and tells what is held there.
fn remember(
    alloc: Global,
    memories: &[NodeMem],
    events: &mut Events,
    s: u32,
    tidying: Tidying,
    asking: &MemoryAsk,
) -> Result<Onward, AllocError>
    requires asks { AsksWithin (length memories.now) tidying }
    requires asked { tidying_ask tidying ≡ ask.Memory asking.now }
    ensures onward { IfOk result
        (ComesTo s (tidying_fed tidying (told_by_memories memories.now asking.now))) }
    ensures list { OnOk result (events.new.list ≡ events.old.list ++ tidy_events s tidying
        (tidying_fed tidying (told_by_memories memories.now asking.now))) }
    ensures err { OnErr result (events.new.list ≡ events.old.list) }
    ensures places { events.new.places ≡ events.old.places }
{
    match asking {
        MemoryAsk::Pins(k) => {
            let memory = &memories[*k as usize - 1];
            hear(alloc, memory, events, s, tidying, *k)
        }
        MemoryAsk::Learn(..) | MemoryAsk::Finish(_) | MemoryAsk::Recover(_) => unreachable!(),
    }
}

// A cluster node tells a collection what it holds.
fn hear(
    alloc: Global,
    memory: &NodeMem,
    events: &mut Events,
    s: u32,
    tidying: Tidying,
    node: u32,
) -> Result<Onward, AllocError>
    requires { tidying_ask tidying ≡ ask.Memory (asked.Pins node) }
    ensures onward { IfOk result
        (ComesTo s (tidying_fed tidying (node_reply (node_tells memory.now)))) }
    ensures list { OnOk result (events.new.list ≡ events.old.list
        ++ tidy_events s tidying (tidying_fed tidying (node_reply (node_tells memory.now)))) }
    ensures err { OnErr result (events.new.list ≡ events.old.list) }
    ensures places { events.new.places ≡ events.old.places }
{
    let kind = tidying.due();
    let onward = tidying.fed(s, memory_reply(alloc, memory)?)?;
    events.push(Event::Went(s, kind))?;
    Ok(onward)
}
