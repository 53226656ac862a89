// What a table of documents at rest, and the memories of cluster nodes, answer to asks.
use crate::asks::put_ask;
use crate::changes;
use crate::texts::{cut, pin, push};
use jr_path::{DeepCopy, List};
use jr_rev::Pin;
use oak_doc::{Ask, Document, Kept, MemoryAsk, OpFault, RemoveOut, Reply, UpdateOp};
use oak_store::DocTable;
use rows::Out;
use std::alloc::AllocError;

// What a row says beside its documents: what the automaton is begun with, and which changes others
// make meanwhile.
#[derive(Clone, Copy)]
pub(crate) struct Row<'a> {
    pub(crate) arguments: &'a str,
    pub(crate) meanwhile: &'a str,
}

// How many steps an automaton may take; one that goes on is let be, since to drop it would be dear
// to prove.
pub(crate) const STEPS: u64 = 1000;

// Begins the text of a step, before which others make their changes.
pub(crate) fn begin(row: &Row<'_>, step: u64, stage: &str, table: &mut DocTable, out: &mut Out) {
    out.put(stage);
    out.put(" ");
    changes::make_at(row.meanwhile, step, table, out);
}

// Makes what is asked; the text of the ask, and of the reply where there is something to say. What
// is large is let go by a call of its own, here and below: at the end of its scope each of its
// parts would be proved there.
pub(crate) fn reply_to(
    row: &Row<'_>,
    ask: Result<Ask, AllocError>,
    table: &mut DocTable,
    out: &mut Out,
) -> Reply {
    match ask {
        Ok(ask) => told(row, ask, table, out),
        Err(_) => Reply::NoMemory,
    }
}

fn told(row: &Row<'_>, ask: Ask, table: &mut DocTable, out: &mut Out) -> Reply {
    put_ask(&ask, out);
    let reply = answer(row.arguments, &ask, table, out);
    drop(ask);
    put_reply(&reply, out);
    out.put("; ");
    reply
}

// The words are of the memories of cluster nodes.
pub(crate) fn answer(words: &str, ask: &Ask, table: &mut DocTable, out: &mut Out) -> Reply {
    match ask {
        Ask::Find(id) => Reply::Found(copied(table.find(id), out)),
        Ask::NextAfter(id) => Reply::Found(copied(table.next_after(id.as_ref()), out)),
        Ask::Update(op) => updated(op, table),
        Ask::RemoveIf(id, number) => Reply::Removed(table.remove_if(id, *number)),
        Ask::Memory(ask) => remembered(words, ask, out),
        Ask::Undo(_) | Ask::Done => Reply::Undone,
    }
}

pub(crate) fn copied(document: Option<&Document>, out: &mut Out) -> Option<Document> {
    match document {
        Some(document) => out.got(document.copy()),
        None => None,
    }
}

fn updated(op: &UpdateOp, table: &mut DocTable) -> Reply {
    match table.update(op) {
        Ok(before) => Reply::Updated(before),
        Err(OpFault::Unmet(cond, kept)) => Reply::Unmet(cond, kept),
        Err(OpFault::Absent) => Reply::Absent,
        Err(OpFault::Memory) => Reply::NoMemory,
    }
}

// The word for what comes of an update.
pub(crate) fn word_of(op: &UpdateOp, table: &mut DocTable) -> &'static str {
    let made = table.update(op);
    let word = word(&made);
    drop(made);
    word
}

fn word(made: &Result<Option<Document>, OpFault>) -> &'static str {
    match made {
        Ok(_) => " made",
        Err(OpFault::Absent) => " absent",
        Err(_) => " refused",
    }
}

fn remembered(words: &str, ask: &MemoryAsk, out: &mut Out) -> Reply {
    match ask {
        MemoryAsk::Finish(_) => Reply::Finished,
        MemoryAsk::Learn(_, _) => Reply::Learnt,
        MemoryAsk::Pins(cluster) => kept(node_of(words, *cluster), out),
        MemoryAsk::Recover(_) => Reply::Recovered,
    }
}

// The word of a cluster node, behind the count of them.
fn node_of(nodes: &str, cluster: u32) -> &str {
    let mut at = 0u32;
    for word in nodes.split(' ') {
        if at == cluster {
            return word;
        }
        at = at.saturating_add(1);
    }
    "gone"
}

// HEAD/SWEEP+PIN+PIN, or `gone`
fn kept(node: &str, out: &mut Out) -> Reply {
    if node == "gone" {
        return Reply::Gone;
    }
    let (own, pins) = cut(node, '+');
    keeping(pin(own), pins_of(pins, out))
}

fn keeping(own: Pin, pins: List<Pin>) -> Reply {
    Reply::Pins {
        head: own.base,
        sweep: own.sweep,
        pins,
    }
}

fn pins_of(texts: &str, out: &mut Out) -> List<Pin> {
    let mut pins = List::new(out.alloc);
    for text in texts.split('+') {
        if !text.is_empty() {
            push(pin(text), &mut pins, out);
        }
    }
    pins
}

fn put_reply(reply: &Reply, out: &mut Out) {
    match reply {
        Reply::Found(None) => out.put(" none"),
        Reply::Updated(_) => out.put(" made"),
        Reply::Unmet(_, Kept::Number(number)) => out.put_numbered(" unmet ", *number),
        Reply::Unmet(_, _) => out.put(" unmet"),
        Reply::Absent | Reply::Removed(RemoveOut::Absent) => out.put(" absent"),
        Reply::NoMemory => out.put(" no memory"),
        Reply::Removed(RemoveOut::Removed) => out.put(" removed"),
        Reply::Removed(RemoveOut::Changed(number)) => out.put_numbered(" changed ", *number),
        Reply::Gone => out.put(" gone"),
        _ => {}
    }
}
