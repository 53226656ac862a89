// Background writes, background reads and sweeps.
use crate::replies::{Row, STEPS, begin, reply_to};
use crate::texts::{cut, push};
use jr_path::List;
use jr_rev::RevVec;
use oak_node::Pending;
use oak_store::DocTable;
use oak_sweep::Sweeper;
use oak_sync::{BackRead, BackWrite};
use rows::{Out, revision, short};
use std::mem;

// REVISION PATH ..: the pending paths are published up to the revision.
pub(crate) fn add_write(row: &Row<'_>, table: &mut DocTable, out: &mut Out) {
    match BackWrite::new(out.alloc, pending(row.arguments, out)) {
        Ok(write) => run_write(row, write, table, out),
        Err(_) => out.is_broken = true,
    }
}

fn pending(text: &str, out: &mut Out) -> Pending {
    let (upto, words) = cut(text, ' ');
    let mut paths = List::new(out.alloc);
    for word in words.split_whitespace() {
        push(out.path_or_root(word), &mut paths, out);
    }
    Pending {
        paths,
        upto: revision(upto),
    }
}

fn run_write(row: &Row<'_>, write: BackWrite, table: &mut DocTable, out: &mut Out) {
    let mut write = write;
    for step in 1..STEPS {
        if !write.is_done() {
            write_step(row, step, &mut write, table, out);
        }
    }
    end_write(write, out);
}

fn write_step(
    row: &Row<'_>,
    step: u64,
    write: &mut BackWrite,
    table: &mut DocTable,
    out: &mut Out,
) {
    begin(row, step, sync_word(write.stage()), table, out);
    let reply = reply_to(row, write.next(), table, out);
    let fed = write.feed(reply);
    out.note(fed);
}

fn sync_word(stage: oak_sync::Stage) -> &'static str {
    match stage {
        oak_sync::Stage::Write => "write",
        oak_sync::Stage::Publish => "publish",
        oak_sync::Stage::Read => "read",
        oak_sync::Stage::Learn => "learn",
        oak_sync::Stage::Done => "done",
    }
}

fn end_write(write: BackWrite, out: &mut Out) {
    if write.is_done() {
        out.put_revision("end ", write.end());
    } else {
        mem::forget(write);
    }
}

// What the root tells is learned.
pub(crate) fn add_read(row: &Row<'_>, table: &mut DocTable, out: &mut Out) {
    run_read(row, BackRead::new(out.alloc), table, out);
}

fn run_read(row: &Row<'_>, read: BackRead, table: &mut DocTable, out: &mut Out) {
    let mut read = read;
    for step in 1..STEPS {
        if !read.is_done() {
            read_step(row, step, &mut read, table, out);
        }
    }
    end_read(read, out);
}

fn read_step(row: &Row<'_>, step: u64, read: &mut BackRead, table: &mut DocTable, out: &mut Out) {
    begin(row, step, sync_word(read.stage()), table, out);
    let reply = reply_to(row, read.next(), table, out);
    let fed = read.feed(reply);
    out.note(fed);
}

fn end_read(read: BackRead, out: &mut Out) {
    if read.is_done() {
        put_pair(&read.end(), out);
    } else {
        mem::forget(read);
    }
}

fn put_pair(learned: &(RevVec, RevVec), out: &mut Out) {
    out.put_pin("end ", &learned.0, &learned.1);
}

// CLUSTER
pub(crate) fn add_sweep(row: &Row<'_>, table: &mut DocTable, out: &mut Out) {
    match Sweeper::new(out.alloc, short(row.arguments)) {
        Ok(sweeper) => run_sweep(row, sweeper, table, out),
        Err(_) => out.is_broken = true,
    }
}

fn run_sweep(row: &Row<'_>, sweeper: Sweeper, table: &mut DocTable, out: &mut Out) {
    let mut sweeper = sweeper;
    for step in 1..STEPS {
        if !sweeper.is_done() {
            sweep_step(row, step, &mut sweeper, table, out);
        }
    }
    end_sweep(sweeper, out);
}

fn sweep_step(
    row: &Row<'_>,
    step: u64,
    sweeper: &mut Sweeper,
    table: &mut DocTable,
    out: &mut Out,
) {
    begin(row, step, sweep_word(sweeper.stage()), table, out);
    let reply = reply_to(row, sweeper.next(), table, out);
    let fed = sweeper.feed(reply);
    out.note(fed);
}

fn sweep_word(stage: oak_sweep::Stage) -> &'static str {
    match stage {
        oak_sweep::Stage::Root => "root",
        oak_sweep::Stage::Document => "document",
        oak_sweep::Stage::Publish => "publish",
        oak_sweep::Stage::Learn => "learn",
        oak_sweep::Stage::Done => "done",
    }
}

fn end_sweep(sweeper: Sweeper, out: &mut Out) {
    if sweeper.is_done() {
        out.put_revision("end ", sweeper.end());
    } else {
        mem::forget(sweeper);
    }
}
