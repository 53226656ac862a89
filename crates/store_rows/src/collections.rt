// Collections.
use crate::replies::{Row, STEPS, begin, reply_to};
use crate::texts::cut;
use jr_path::DocId;
use jr_rev::Pin;
use oak_doc::Collected;
use oak_gc::{Collector, Stage};
use oak_store::DocTable;
use rows::{Out, short};
use std::mem;

// COUNT NODE ..: the cluster nodes, from 1 on; each has HEAD/SWEEP and then `+` before each pin, or
// is `gone`.
pub(crate) fn add(row: &Row<'_>, table: &mut DocTable, out: &mut Out) {
    let (clusters, _) = cut(row.arguments, ' ');
    match Collector::new(out.alloc, short(clusters)) {
        Ok(collector) => run(row, collector, table, out),
        Err(_) => out.is_broken = true,
    }
}

fn run(row: &Row<'_>, collector: Collector, table: &mut DocTable, out: &mut Out) {
    let mut collector = collector;
    for step in 1..STEPS {
        if !collector.is_done() {
            make_step(row, step, &mut collector, table, out);
        }
    }
    put_bound(&collector.bound(), out);
    end(collector, out);
}

fn make_step(
    row: &Row<'_>,
    step: u64,
    collector: &mut Collector,
    table: &mut DocTable,
    out: &mut Out,
) {
    begin(row, step, word(collector.stage()), table, out);
    let reply = reply_to(row, collector.next(), table, out);
    let fed = collector.feed(reply);
    out.note(fed);
}

fn word(stage: Stage) -> &'static str {
    match stage {
        Stage::Bound => "bound",
        Stage::Collect => "collect",
        Stage::Read => "read",
        Stage::Done => "done",
    }
}

fn end(collector: Collector, out: &mut Out) {
    if collector.is_done() {
        put_end(collector.end(), out);
    } else {
        mem::forget(collector);
    }
}

fn put_bound(bound: &Pin, out: &mut Out) {
    out.put_pin("end bound ", &bound.base, &bound.sweep);
}

fn put_end(collected: Collected, out: &mut Out) {
    out.put_numbered(" entries ", collected.entries);
    out.put_numbered(" documents ", collected.documents);
    for (id, read, found) in collected.skipped.inner() {
        put_skipped(id, *read, *found, out);
    }
    drop(collected);
}

fn put_skipped(id: &DocId, read: u64, found: u64, out: &mut Out) {
    out.put_id(" skipped ", id);
    out.put_numbered(" ", read);
    out.put_numbered(" ", found);
}
