// Commits, also over previous documents.
ghost use Rattle.std.specs.Prelude.{◌≡◌, IsTrue};
ghost use Rattle.oak_commit.specs.Committing.{due_of};
ghost use Rattle.oak_doc.specs.declared.asks.Ask.TheVariants as ask;

use crate::asks::put_item;
use crate::replies::{Row, STEPS, begin, reply_to};
use crate::texts::{cut, name, push};
use jr_path::{DocId, Item, List, Name, Path};
use jr_rev::Revision;
use jr_tree::{Edit, Write};
use jr_value::{Property, Value};
use oak_clash::{Mark, MarkAt};
use oak_commit::{CommitEnd, Committer, Stage};
use oak_doc::{Ask, Reply};
use oak_store::DocTable;
use rows::{Out, revision, vector};
use std::alloc::AllocError;
use std::mem;

// REVISION BASE WORD ..: a commit of the revision with writes and marks. A word is WORD@PATH or
// WORD@PATH=NAME; each value that is put is 5.
pub(crate) fn add(row: &Row<'_>, table: &mut DocTable, out: &mut Out) {
    match begun(row.arguments, out) {
        Ok(committer) => run(row, committer, table, out),
        Err(_) => out.is_broken = true,
    }
}

pub(crate) fn begun(text: &str, out: &mut Out) -> Result<Committer, AllocError> {
    let (r, rest) = cut(text, ' ');
    let (base, words) = cut(rest, ' ');
    let edit = edit(words, out);
    let marks = marks(words, out);
    Committer::new(out.alloc, revision(r), &vector(base), edit, marks)
}

fn edit(words: &str, out: &mut Out) -> Edit {
    let mut writes = List::new(out.alloc);
    for text in words.split(' ') {
        push_write(text, &mut writes, out);
    }
    Edit { writes }
}

fn push_write(text: &str, writes: &mut List<Write>, out: &mut Out) {
    let (word, rest) = cut(text, '@');
    let (at, name) = cut(rest, '=');
    match word {
        "here" => push(Write::Here(out.path_or_root(at)), writes, out),
        "gone" => push(Write::Gone(out.path_or_root(at)), writes, out),
        "put" => push_named(at, name, true, writes, out),
        "unset" => push_named(at, name, false, writes, out),
        _ => {}
    }
}

// A write of a property, which is put or unset.
fn push_named(at: &str, text: &str, is_put: bool, writes: &mut List<Write>, out: &mut Out) {
    if let Some(name) = name(text, out) {
        push(write(out.path_or_root(at), name, is_put), writes, out);
    }
}

fn write(at: Path, name: Name, is_put: bool) -> Write {
    if is_put {
        Write::Put(at, name, Property::Single(Value::Long(5)))
    } else {
        Write::Unset(at, name)
    }
}

fn marks(words: &str, out: &mut Out) -> List<MarkAt> {
    let mut marks = List::new(out.alloc);
    for text in words.split(' ') {
        push_mark(text, &mut marks, out);
    }
    marks
}

fn push_mark(text: &str, marks: &mut List<MarkAt>, out: &mut Out) {
    let (word, rest) = cut(text, '@');
    let (at, name) = cut(rest, '=');
    if let Some(mark) = mark(word, name, out) {
        let path = out.path_or_root(at);
        push(MarkAt { path, mark }, marks, out);
    }
}

fn mark(word: &str, text: &str, out: &mut Out) -> Option<Mark> {
    match word {
        "exists" => Some(Mark::Exists),
        "guard" => Some(Mark::Guard),
        "touch" => Some(Mark::Touch),
        "prop" => name(text, out).map(Mark::Prop),
        _ => None,
    }
}

fn run(row: &Row<'_>, committer: Committer, table: &mut DocTable, out: &mut Out) {
    let mut committer = committer;
    for step in 1..STEPS {
        if committer.stage() != Stage::Done {
            make_step(row, step, &mut committer, table, out);
        }
    }
    end(committer, out);
}

fn make_step(
    row: &Row<'_>,
    step: u64,
    committer: &mut Committer,
    table: &mut DocTable,
    out: &mut Out,
) {
    begin(row, step, word(committer.stage()), table, out);
    let reply = reply(row, committer, table, out);
    let fed = committer.feed(reply);
    out.note(fed);
}

fn reply(row: &Row<'_>, committer: &Committer, table: &mut DocTable, out: &mut Out) -> Reply {
    match committer.next() {
        Ok(Ask::Undo(r)) => undone(committer.undo_id(), r, table, out),
        ask => reply_to(row, ask, table, out),
    }
}

fn undone(id: &DocId, r: Revision, table: &mut DocTable, out: &mut Out) -> Reply {
    table.undo(id, r);
    out.put_id("", id);
    out.put("; ");
    Reply::Undone
}

fn word(stage: Stage) -> &'static str {
    match stage {
        Stage::Mark => "mark",
        Stage::Write => "write",
        Stage::Look => "look",
        Stage::Last => "last",
        Stage::Undo => "undo",
        Stage::Finish => "finish",
        Stage::Done => "done",
    }
}

fn end(committer: Committer, out: &mut Out) {
    if is_done(&committer) {
        put_end(committer.end(), out);
    } else {
        mem::forget(committer);
    }
}

pub(crate) fn is_done(committer: &Committer) -> bool
    ensures { IsTrue result → due_of committer.now ≡ ask.Done }
{
    let ask = committer.next();
    let is_done = matches!(ask, Ok(Ask::Done));
    drop(ask);
    is_done
}

fn put_end(end: CommitEnd, out: &mut Out) {
    match &end {
        CommitEnd::Committed(r) => out.put_revision("end committed ", *r),
        CommitEnd::Clash { item, other } => put_clash(item, *other, out),
        CommitEnd::Memory => out.put("end no memory"),
    }
    drop(end);
}

fn put_clash(item: &Item, other: Revision, out: &mut Out) {
    out.put("end refused");
    put_item(item, out);
    out.put_revision(" for ", other);
}
