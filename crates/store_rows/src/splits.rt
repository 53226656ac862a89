// Splits.
use crate::replies::{Row, STEPS, begin, reply_to};
use crate::texts::{cut, pin};
use oak_doc::SplitEnd;
use oak_prev::{Splitter, Stage};
use oak_store::DocTable;
use rows::Out;
use std::mem;

// PATH BASE/SWEEP
pub(crate) fn add(row: &Row<'_>, table: &mut DocTable, out: &mut Out) {
    let (at, held) = cut(row.arguments, ' ');
    let path = out.path_or_root(at);
    let splitter = Splitter::new(out.alloc, &path, &pin(held));
    drop(path);
    match splitter {
        Ok(splitter) => run(row, splitter, table, out),
        Err(_) => out.is_broken = true,
    }
}

fn run(row: &Row<'_>, splitter: Splitter, table: &mut DocTable, out: &mut Out) {
    let mut splitter = splitter;
    for step in 1..STEPS {
        if !splitter.is_done() {
            make_step(row, step, &mut splitter, table, out);
        }
    }
    end(splitter, out);
}

fn make_step(
    row: &Row<'_>,
    step: u64,
    splitter: &mut Splitter,
    table: &mut DocTable,
    out: &mut Out,
) {
    begin(row, step, word(splitter.stage()), table, out);
    let reply = reply_to(row, splitter.next(), table, out);
    let fed = splitter.feed(reply);
    out.note(fed);
}

fn word(stage: Stage) -> &'static str {
    match stage {
        Stage::Split => "split",
        Stage::Read => "read",
        Stage::Done => "done",
    }
}

fn end(splitter: Splitter, out: &mut Out) {
    if splitter.is_done() {
        put_end(splitter.end().1, out);
    } else {
        mem::forget(splitter);
    }
}

fn put_end(end: SplitEnd, out: &mut Out) {
    match end {
        SplitEnd::Split(moved) => out.put_numbered("end moved ", moved),
        SplitEnd::Skipped(read, found) => {
            out.put_numbered("end skipped ", read);
            out.put_numbered(" ", found);
        }
    }
}
