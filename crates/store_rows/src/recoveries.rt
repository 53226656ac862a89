// Recoveries of a stopped cluster node, step by step.
ghost use Rattle.std.specs.Prelude.{◌≡◌, IsTrue};
ghost use Rattle.oak_doc.specs.declared.asks.Ask.TheVariants as ask;
ghost use Rattle.oak_recover.specs.Recovering.{due};

use crate::replies::{Row, STEPS, begin, reply_to};
use crate::texts::{cut, pin, push};
use jr_path::{DocId, List};
use jr_rev::Revision;
use oak_doc::{Ask, Recovered, Reply};
use oak_recover::{Recovery, Stage};
use oak_store::DocTable;
use rows::{Out, short};
use std::mem;

// CLUSTER BASE/SWEEP SESSION ..: of a cluster node with these sessions, by a session with this pin.
pub(crate) fn add(row: &Row<'_>, table: &mut DocTable, out: &mut Out) {
    let (cluster, rest) = cut(row.arguments, ' ');
    let (own, words) = cut(rest, ' ');
    let sessions = sessions(words, out);
    match Recovery::new(out.alloc, short(cluster), sessions, &pin(own)) {
        Ok(recovery) => run(row, recovery, table, out),
        Err(_) => out.is_broken = true,
    }
}

fn sessions(words: &str, out: &mut Out) -> List<u32> {
    let mut sessions = List::new(out.alloc);
    for word in words.split_whitespace() {
        push(short(word), &mut sessions, out);
    }
    sessions
}

fn run(row: &Row<'_>, recovery: Recovery, table: &mut DocTable, out: &mut Out) {
    let mut recovery = recovery;
    for step in 1..STEPS {
        if recovery.stage() != Stage::Done {
            make_step(row, step, &mut recovery, table, out);
        }
    }
    end(recovery, out);
}

fn make_step(
    row: &Row<'_>,
    step: u64,
    recovery: &mut Recovery,
    table: &mut DocTable,
    out: &mut Out,
) {
    begin(row, step, word(recovery.stage()), table, out);
    let reply = reply(row, recovery, table, out);
    let fed = recovery.feed(reply);
    out.note(fed);
}

fn reply(row: &Row<'_>, recovery: &Recovery, table: &mut DocTable, out: &mut Out) -> Reply {
    match recovery.next() {
        Ok(Ask::Undo(r)) => undone(recovery.undo_id(), r, table, out),
        ask => reply_to(row, ask, table, out),
    }
}

fn undone(id: &DocId, r: Revision, table: &mut DocTable, out: &mut Out) -> Reply {
    table.undo(id, r);
    out.put_id("", id);
    out.put_revision(" ", r);
    out.put("; ");
    Reply::Undone
}

fn word(stage: Stage) -> &'static str {
    match stage {
        Stage::Document => "document",
        Stage::Read => "read",
        Stage::Undo => "undo",
        Stage::Memory => "memory",
        Stage::Write => "write",
        Stage::Publish => "publish",
        Stage::Settings => "settings",
        Stage::Done => "done",
    }
}

fn end(recovery: Recovery, out: &mut Out) {
    if is_done(&recovery) {
        put_end(recovery.end(), out);
    } else {
        mem::forget(recovery);
    }
}

fn is_done(recovery: &Recovery) -> bool
    ensures { IsTrue result → due recovery.now ≡ ask.Done }
{
    let ask = recovery.next();
    let is_done = matches!(ask, Ok(Ask::Done));
    drop(ask);
    is_done
}

fn put_end(recovered: Recovered, out: &mut Out) {
    out.put_revision("end ", recovered.upto);
    out.put_numbered(" undone ", recovered.undone);
}
