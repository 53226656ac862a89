// Documents of a table: changes, undoing, removals, and what the table gives.
ghost use Rattle.std.specs.Prelude.{◌≡◌};

use crate::texts::only;
use crate::updates::put_found;
use crate::{letters, nodes, reading, updates};
use jr_path::{DeepCopy, DocId};
use jr_rev::Revision;
use oak_doc::{Collected, RemoveOut};
use oak_store::DocTable;
use rows::{Out, cut, number};

pub(crate) fn add(line: &str, table: &mut DocTable, out: &mut Out) {
    let (word, rest) = cut(line);
    match word {
        "change" => updates::make(rest, table, out),
        "again" => updates::refuse(rest, table, out),
        "undo" => undo(rest, table, out),
        "remove" => remove(rest, table, out),
        "walk" => walk(table, out),
        "commit" => letters::add(rest, out),
        "moved" => letters::add_moved(rest, out),
        "copies" => add_copies(out),
        "memory" => nodes::add(out),
        "changed" => nodes::add_changed(out),
        "node" => reading::add_node(rest, table, out),
        "children" => reading::add_children(rest, table, out),
        _ => out.put("no row"),
    }
}

// The revision of cluster node 1 at a time.
pub(crate) fn at_time(text: &str) -> Revision
    ensures { result.cluster ≡ 1 }
{
    Revision {
        time: number(text),
        counter: 0,
        cluster: 1,
    }
}

// A number with a space behind it.
pub(crate) fn put_count(number: u64, out: &mut Out) {
    out.put_number(number);
    out.put(" ");
}

// A path, with a number before it for a previous document; the settings for `settings`.
pub(crate) fn id_of(text: &str, out: &mut Out) -> DocId {
    if text == "settings" {
        return DocId::Settings;
    }
    match text.split_once(':') {
        Some((before, rest)) => DocId::Prev(number(before), out.path_or_root(rest)),
        None => DocId::Node(out.path_or_root(text)),
    }
}

// ID TIME: the entries of a revision go.
fn undo(rest: &str, table: &mut DocTable, out: &mut Out) {
    let (id, time) = cut(rest);
    let id = id_of(id, out);
    table.undo(&id, at_time(time));
    put_found(table.find(&id), "none", out);
    drop(id);
}

// ID NUMBER
fn remove(rest: &str, table: &mut DocTable, out: &mut Out) {
    let (id, mod_count) = cut(rest);
    let id = id_of(id, out);
    put_removed(&table.remove_if(&id, number(mod_count)), out);
    drop(id);
}

fn put_removed(removed: &RemoveOut, out: &mut Out) {
    match removed {
        RemoveOut::Removed => out.put("removed"),
        RemoveOut::Changed(mod_count) => put_count(*mod_count, out),
        RemoveOut::Absent => out.put("absent"),
    }
}

// The documents in store order, each with its number; a document is found behind the one before it.
fn walk(table: &DocTable, out: &mut Out) {
    let mut last = None;
    for _ in 0..table.documents().len() {
        if let Some(document) = table.next_after(last) {
            out.put_id("", &document.id);
            out.put(" ");
            put_count(document.mod_count, out);
            last = Some(&document.id);
        }
    }
}

// Copies of an id, and of what a collection did.
fn add_copies(out: &mut Out) {
    out.put(if is_copied(DocId::Settings) {
        "copied "
    } else {
        "changed "
    });
    let collected = Collected {
        entries: 1,
        documents: 2,
        skipped: only((DocId::Settings, 3, 4), out),
    };
    match collected.copy() {
        Ok(copy) => put_skips(copy, out),
        Err(_) => out.is_broken = true,
    }
    drop(collected);
}

// Whether the copy of the settings' id is that id.
fn is_copied(id: DocId) -> bool {
    let copy = id.copy();
    drop(id);
    let is_copied = matches!(&copy, Ok(DocId::Settings));
    drop(copy);
    is_copied
}

fn put_skips(collected: Collected, out: &mut Out) {
    put_count(collected.skipped.len() as u64, out);
    drop(collected);
}
