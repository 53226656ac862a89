// What is asked of the documents; updates keep them in store order.
ghost use Rattle.std.specs.Prelude.{◌≡◌, ◌∷◌, ◌++◌, [], IfOk, OnErr, OnOk};
ghost use Rattle.oak_read.specs.Reading.{IsTable};
ghost use Rattle.oak_store.specs.Tables.{Updates, after_undo};
ghost use Rattle.core_world.specs.Steps.{after_update};
ghost use Rattle.oak_acts.specs.Acts.{AreIdNames, after_ask, answered_by, reply_of};

use crate::answers::answer;
use jr_path::DocId;
use jr_rev::Revision;
use oak_doc::{Ask, Document, OpFault, Reply, UpdateOp};
use oak_machine::{Event, Events};
use oak_store::DocTable;
use std::alloc::AllocError;

/// One update of one document. Answers the document before; a refusal changes nothing.
pub fn update(table: &mut DocTable, op: &UpdateOp) -> Result<Option<Document>, OpFault>
    requires { IsTable table.old.documents }
    ensures made { Updates table.old table.new op.now result }
    ensures order { IsTable table.new.documents }
{
    in_grammar(&op.id);
    table.update(op)
}

/// What an automaton asks of the documents is done and answered, with an event. Where memory is
/// refused nothing changes.
pub fn ask(
    table: &mut DocTable,
    events: &mut Events,
    asking: Ask,
    told: Event,
) -> Result<Reply, AllocError>
    requires table { IsTable table.old.documents }
    ensures reply { IfOk result (λ reply. reply ≡ answered_by table.old asking) }
    ensures table { OnOk result (table.new ≡ after_ask table.old asking) }
    ensures list { OnOk result (events.new.list ≡ events.old.list ++ told ∷ []) }
    ensures kept { OnErr result (table.new ≡ table.old) }
    ensures err { OnErr result (events.new.list ≡ events.old.list) }
    ensures places { events.new.places ≡ events.old.places }
    ensures order { IsTable table.new.documents }
{
    match asking {
        Ask::Update(op) => {
            let reply = change(table, events, &op, told);
            drop(op);
            reply
        }
        asking => match answer(table, asking) {
            Ok(reply) => {
                events.push(told)?;
                Ok(reply)
            }
            Err(AllocError) => {
                drop(told);
                Err(AllocError)
            }
        },
    }
}

/// An update with its event, and what is answered to it. An update that is refused for another
/// cause than memory changes nothing, and has its event too.
pub fn change(
    table: &mut DocTable,
    events: &mut Events,
    op: &UpdateOp,
    told: Event,
) -> Result<Reply, AllocError>
    requires table { IsTable table.old.documents }
    ensures reply { IfOk result (λ reply. reply ≡ reply_of table.old op.now) }
    ensures table { OnOk result (table.new ≡ after_update table.old op.now) }
    ensures list { OnOk result (events.new.list ≡ events.old.list ++ told ∷ []) }
    ensures kept { OnErr result (table.new ≡ table.old) }
    ensures err { OnErr result (events.new.list ≡ events.old.list) }
    ensures places { events.new.places ≡ events.old.places }
    ensures order { IsTable table.new.documents }
{
    if events.keep(1).is_err() {
        drop(told);
        return Err(AllocError);
    }
    match update(table, op) {
        Err(OpFault::Memory) => {
            drop(told);
            events.give_back(1);
            Err(AllocError)
        }
        Ok(before) => {
            events.push_kept(told);
            Ok(Reply::Updated(before))
        }
        Err(OpFault::Absent) => {
            events.push_kept(told);
            Ok(Reply::Absent)
        }
        Err(OpFault::Unmet(cond, kept)) => {
            events.push_kept(told);
            Ok(Reply::Unmet(cond, kept))
        }
    }
}

/// Drops the entries of a revision from a document.
pub fn undo(table: &mut DocTable, id: &DocId, r: Revision)
    requires { IsTable table.old.documents }
    ensures undone { table.new ≡ after_undo table.old id.now r }
    ensures order { IsTable table.new.documents }
{
    table.undo(id, r);
}

// The names of an id's path are names. Nothing is done: callers learn the fact.
fn in_grammar(id: &DocId)
    ensures { AreIdNames id.now }
{
    match id {
        DocId::Node(path) | DocId::Prev(_, path) => path.in_grammar(),
        DocId::Settings => {}
    }
}
