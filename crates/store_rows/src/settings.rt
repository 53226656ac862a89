// Checkpoints and attached readers.
use crate::asks::{put_checkpoint, put_update};
use crate::replies::{Row, word_of};
use crate::texts::{cut, pin};
use jr_path::DocId;
use oak_checkpoint::{attach, create, detach, drop_readers, found, release};
use oak_doc::{Document, UpdateOp};
use oak_store::DocTable;
use rows::{Out, short};
use std::alloc::{AllocError, Global};

// WORD ..: each is an update, or the question for a checkpoint; then what the settings keep.
pub(crate) fn add(row: &Row<'_>, table: &mut DocTable, out: &mut Out) {
    for text in row.arguments.split(' ') {
        add_word(text, table, out);
    }
    put_kept(table.find(&DocId::Settings), out);
}

fn add_word(text: &str, table: &mut DocTable, out: &mut Out) {
    let (word, rest) = cut(text, '@');
    let (key, value) = cut(rest, '=');
    if word == "found" {
        return put_found(table.find(&DocId::Settings), key, out);
    }
    match op(word, key, value, out.alloc) {
        Ok(op) => update(op, table, out),
        Err(_) => out.is_broken = true,
    }
}

fn update(op: UpdateOp, table: &mut DocTable, out: &mut Out) {
    put_update(&op, out);
    out.put(word_of(&op, table));
    out.put("; ");
    drop(op);
}

// create@ID=PIN, attach@SESSION=ID, detach@SESSION, release@ID, or drop@SESSION,SESSION
fn op(word: &str, key: &str, value: &str, alloc: Global) -> Result<UpdateOp, AllocError> {
    match word {
        "create" => create(alloc, key, &pin(value)),
        "attach" => attach(alloc, short(key), value),
        "detach" => detach(alloc, short(key)),
        "release" => release(alloc, key),
        _ => drop_all(key, alloc),
    }
}

fn drop_all(words: &str, alloc: Global) -> Result<UpdateOp, AllocError> {
    let mut sessions = Vec::new(alloc);
    for word in words.split(',') {
        sessions.push(short(word))?;
    }
    drop_readers(alloc, sessions.as_slice())
}

fn put_found(settings: Option<&Document>, id: &str, out: &mut Out) {
    match settings {
        Some(document) => put_pin(document, id, out),
        None => out.put("no settings; "),
    }
}

fn put_pin(document: &Document, id: &str, out: &mut Out) {
    match found(document, id) {
        Some(pin) => out.put_pin("found ", &pin.base, &pin.sweep),
        None => out.put("found none"),
    }
    out.put("; ");
}

fn put_kept(settings: Option<&Document>, out: &mut Out) {
    match settings {
        Some(document) => put_both(document, out),
        None => out.put("end none"),
    }
}

fn put_both(document: &Document, out: &mut Out) {
    out.put("end");
    for (id, pin) in document.checkpoints.iter() {
        out.put(" ");
        put_checkpoint(id, pin, out);
    }
    for (session, pin) in document.readers.iter() {
        out.put_numbered(" reader@", u64::from(*session));
        out.put_pin("=", &pin.base, &pin.sweep);
    }
}
