// What commits changed, as it is read step by step.
use crate::asks::put_item;
use crate::replies::{Row, STEPS, begin, reply_to};
use crate::texts::{cut, pin};
use jr_path::List;
use jr_tree::{CommitChanges, ItemChange};
use oak_changes::ChangesReader;
use oak_store::DocTable;
use rows::{Out, vector};
use std::mem;

// VECTOR BASE/SWEEP: of the commits that the base sees and the vector doesn't.
pub(crate) fn add(row: &Row<'_>, table: &mut DocTable, out: &mut Out) {
    let (from, own) = cut(row.arguments, ' ');
    let reader = ChangesReader::new(out.alloc, &vector(from), &pin(own));
    run(row, reader, table, out);
}

fn run(row: &Row<'_>, reader: ChangesReader, table: &mut DocTable, out: &mut Out) {
    let mut reader = reader;
    for step in 1..STEPS {
        if !reader.is_done() {
            make_step(row, step, &mut reader, table, out);
        }
    }
    end(reader, out);
}

fn make_step(
    row: &Row<'_>,
    step: u64,
    reader: &mut ChangesReader,
    table: &mut DocTable,
    out: &mut Out,
) {
    begin(row, step, "read", table, out);
    let reply = reply_to(row, reader.next(), table, out);
    let fed = reader.feed(reply);
    out.note(fed);
}

fn end(reader: ChangesReader, out: &mut Out) {
    if reader.is_done() {
        put_commits(reader.take(), out);
    } else {
        mem::forget(reader);
    }
}

fn put_commits(commits: List<CommitChanges>, out: &mut Out) {
    out.put("end");
    for commit in commits.inner() {
        put_commit(commit, out);
    }
    drop(commits);
}

fn put_commit(commit: &CommitChanges, out: &mut Out) {
    out.put_revision(" ", commit.revision);
    for change in commit.changes.inner() {
        put_change(change, out);
    }
}

fn put_change(change: &ItemChange, out: &mut Out) {
    put_item(&change.item, out);
    out.put(word(change.before, change.after));
}

// Whether an item was there before a commit, and whether it is after.
fn word(before: bool, after: bool) -> &'static str {
    match (before, after) {
        (false, true) => " new",
        (true, true) => " other",
        (true, false) => " gone",
        (false, false) => " none",
    }
}
