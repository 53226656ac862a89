// Changes of documents, as rows have them: WORD@KEY=VALUE, of which a part may be left out.
use crate::replies::word_of;
use crate::texts::{cut, id, name, pin, push, text_of};
use jr_path::{DocId, Item, List};
use jr_rev::Revision;
use jr_value::{Property, Value};
use oak_doc::{Change, Document, PrevEntry, UpdateOp};
use oak_store::DocTable;
use rows::{Out, number, revision, short};

// ID CHANGE ..; ID CHANGE ..: each is made, in this order, in a document that is made where there
// is none.
pub(crate) fn make_all(text: &str, table: &mut DocTable, out: &mut Out) {
    for update in text.split(';') {
        make(update.trim(), table, out);
    }
}

// STEP ID CHANGE ..; STEP ID CHANGE ..: those of a step are made.
pub(crate) fn make_at(text: &str, step: u64, table: &mut DocTable, out: &mut Out) {
    for part in text.split(';') {
        let (at, update) = cut(part.trim(), ' ');
        if number(at) == step {
            make(update, table, out);
        }
    }
}

// ID CHANGE .., or `drop ID`, which removes the document.
pub(crate) fn make(text: &str, table: &mut DocTable, out: &mut Out) {
    let (word, rest) = cut(text, ' ');
    match word {
        "" => {}
        "drop" => remove(id(rest, out), table),
        _ => update(op(id(word, out), rest, out), table, out),
    }
}

fn remove(id: DocId, table: &mut DocTable) {
    let number = number_of(table.find(&id));
    table.remove_if(&id, number);
}

fn number_of(document: Option<&Document>) -> u64 {
    match document {
        Some(document) => document.mod_count,
        None => 0,
    }
}

fn op(id: DocId, words: &str, out: &mut Out) -> UpdateOp {
    UpdateOp {
        id,
        create: true,
        cond: None,
        changes: changes(words, out),
    }
}

fn update(op: UpdateOp, table: &mut DocTable, out: &mut Out) {
    if word_of(&op, table) != " made" {
        out.is_broken = true;
    }
    drop(op);
}

fn changes(words: &str, out: &mut Out) -> List<Change> {
    let mut changes = List::new(out.alloc);
    for word in words.split_whitespace() {
        push(change(word, out), &mut changes, out);
    }
    changes
}

fn change(text: &str, out: &mut Out) -> Change {
    let (word, rest) = cut(text, '@');
    let (key, value) = cut(rest, '=');
    match word {
        "hit" => collision(revision(key), revision(value), "/", out),
        "list" => listed(number(key), value),
        "checkpoint" => Change::Checkpoint(text_of(key, out), pin(value)),
        "reader" => Change::Attach(short(key), text_of(value, out)),
        _ => simple(word, revision(key), value, out),
    }
}

// A change of a revision; the word is the name of a property where it is none for a change.
pub(crate) fn simple(word: &str, r: Revision, value: &str, out: &mut Out) -> Change {
    match word {
        "here" => Change::Deleted(r, false),
        "gone" => Change::Deleted(r, true),
        "root" => Change::CommitRoot(r, short(value)),
        "rev" | "committed" => Change::Revisions(r),
        "touch" | "touched" => Change::Touched(r),
        "guard" => Change::Guard(r),
        "last" => Change::LastRev(r),
        "swept" | "sweep" => Change::SweepRev(r),
        _ => put(word, r, value, out),
    }
}

// The collision of a revision with another one, in a node.
pub(crate) fn collision(r: Revision, other: Revision, at: &str, out: &mut Out) -> Change {
    let item = Item {
        path: out.path_or_root(at),
        name: None,
    };
    Change::Collision(r, other, item)
}

// HIGH,LOW
fn listed(number: u64, text: &str) -> Change {
    let (high, low) = cut(text, ',');
    Change::List(PrevEntry {
        number,
        high: revision(high),
        low: revision(low),
    })
}

// The value of a property.
pub(crate) fn put(text: &str, r: Revision, value: &str, out: &mut Out) -> Change {
    match name(text, out) {
        Some(name) => Change::Prop(name, r, property(value)),
        None => Change::Undo(r),
    }
}

// A number from 0 on; without one the property is removed.
fn property(text: &str) -> Option<Property> {
    match text.parse::<u32>() {
        Ok(number) => Some(Property::Single(Value::Long(i64::from(number)))),
        Err(_) => None,
    }
}
