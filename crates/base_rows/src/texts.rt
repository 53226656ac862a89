// Texts of names, paths, ids, revisions and vectors, and JSON of properties.
use crate::values;
use jr_json::{ValueFault, read_property};
use jr_path::{DeepCopy, DocId, Name, Path, PathFault};
use jr_rev::{BadRevision, RevVec, Revision};
use jr_value::{Kind, Property};
use rows::{Out, cut, json_of, number, short};
use serde_json::Value as Json;
use std::alloc::AllocError;

// Whether there is such a row.
pub(crate) fn add(word: &str, rest: &str, out: &mut Out) -> bool {
    match word {
        "name" => add_name(rest, out),
        "path" => add_path(rest, out),
        "long" => add_long(rest, out),
        "id" => add_id(rest, out),
        "order" => add_order(rest, out),
        "revision" => add_revision(rest, out),
        "vector" => put_vector(&RevVec::parse(rest.as_bytes()), out),
        "value" => add_value(rest, out),
        "text" => values::add(rest, out),
        _ => return false,
    }
    true
}

// NUMBER PIECE END: the piece so many times and the end, as a name where it has no slash, and else
// as a path.
fn add_long(rest: &str, out: &mut Out) {
    let (number, rest) = cut(rest);
    let (piece, end) = cut(rest);
    let mut text = String::new(out.alloc);
    push_times(&mut text, short(number), piece, out);
    push_times(&mut text, 1, end, out);
    add_either(piece.contains('/'), text.as_str(), out);
}

// Puts a piece behind a text, so many times.
pub(crate) fn push_times(text: &mut String, number: u32, piece: &str, out: &mut Out) {
    for _ in 0..number {
        let put = text.push_str(piece);
        out.note(put);
    }
}

fn add_either(is_path: bool, text: &str, out: &mut Out) {
    if is_path {
        add_path(text, out);
    } else {
        add_name(text, out);
    }
}

// NUMBER PATH: a document of the node, or with a number a previous one; the settings without a
// path.
fn id_of(text: &str, out: &mut Out) -> DocId {
    let (count, path) = cut(text);
    if path.is_empty() {
        return DocId::Settings;
    }
    id_at(number(count), out.path_or_root(path))
}

fn id_at(number: u64, path: Path) -> DocId {
    match number {
        0 => DocId::Node(path),
        _ => DocId::Prev(number, path),
    }
}

fn add_id(text: &str, out: &mut Out) {
    let id = id_of(text, out);
    let copy = id.copy();
    put_id(&copy, out);
    drop(id);
    drop(copy);
}

fn put_id(id: &Result<DocId, AllocError>, out: &mut Out) {
    match id {
        Ok(id) => out.put_id("", id),
        Err(_) => out.is_broken = true,
    }
}

// Two ids with a comma between.
fn add_order(rest: &str, out: &mut Out) {
    let (first, second) = rest.split_once(',').unwrap_or((rest, ""));
    let first = id_of(first, out);
    let second = id_of(second, out);
    put_order(first < second, out);
    drop(first);
    drop(second);
}

fn put_order(is_before: bool, out: &mut Out) {
    out.put(if is_before { "before" } else { "not before" });
}

fn add_fault(fault: &PathFault, out: &mut Out) {
    match fault {
        PathFault::BadName(at) => put_fault("bad name ", *at, out),
        PathFault::BadPath(at) => put_fault("bad path ", *at, out),
        PathFault::TooDeep(names) => put_fault("too deep ", *names, out),
        PathFault::TooLong(bytes) => put_fault("too long ", *bytes, out),
        PathFault::Memory => out.put("memory"),
    }
}

fn put_fault(kind: &str, number: usize, out: &mut Out) {
    out.put_numbered(kind, number as u64);
}

fn add_name(text: &str, out: &mut Out) {
    match Name::parse(out.alloc, text) {
        Ok(name) => out.put(name.as_str()),
        Err(fault) => add_fault(&fault, out),
    }
}

fn add_path(text: &str, out: &mut Out) {
    match Path::parse(out.alloc, text) {
        Ok(path) => out.put_path(&path),
        Err(fault) => add_fault(&fault, out),
    }
}

// The text printed again, and the three numbers.
fn add_revision(text: &str, out: &mut Out) {
    match Revision::parse(text.as_bytes()) {
        Ok(revision) => put_revision(&revision, out),
        Err(fault) => out.put_number(fault.offset as u64),
    }
}

fn put_revision(revision: &Revision, out: &mut Out) {
    put_printed(revision, out);
    out.put_numbered(" ", revision.time);
    out.put_numbered(" ", u64::from(revision.counter));
    out.put_numbered(" ", u64::from(revision.cluster));
}

fn put_printed(revision: &Revision, out: &mut Out) {
    let mut printed = Vec::new(out.alloc);
    let put = revision.put_text(&mut printed);
    out.note(put);
    out.put_bytes(printed.as_slice());
}

fn put_vector(vector: &Result<RevVec, BadRevision>, out: &mut Out) {
    match vector {
        Ok(vector) => out.put_vector(vector),
        Err(fault) => out.put_number(fault.offset as u64),
    }
}

fn add_value(text: &str, out: &mut Out) {
    let json = json_of(text, out);
    add_json(&json, out);
    drop(json);
}

fn add_json(json: &Option<Json>, out: &mut Out) {
    match json {
        Some(json) => add_property(json, out),
        None => out.put("no JSON"),
    }
}

fn add_property(json: &Json, out: &mut Out) {
    let property = read_property(out.alloc, json);
    put_read(&property, out);
    drop(property);
}

fn put_read(property: &Result<Property, ValueFault>, out: &mut Out) {
    match property {
        Ok(property) => put_property(property, out),
        Err(ValueFault::ValueFormat(required, found)) => put_no(*required, *found, out),
        Err(ValueFault::Memory) => out.put("memory"),
    }
}

fn put_no(required: Kind, found: Kind, out: &mut Out) {
    out.put("no ");
    put_kinds(required, found, out);
}

// The kind that is required and the one that was found.
pub(crate) fn put_kinds(required: Kind, found: Kind, out: &mut Out) {
    out.put(required.as_str());
    out.put(" ");
    out.put(found.as_str());
}

// The property's kind, its text and whether its copy equals it.
fn put_property(property: &Property, out: &mut Out) {
    out.put(property.kind().as_str());
    out.put(" ");
    out.put_property(property);
    if !is_copied(property) {
        out.put(" and another copy");
    }
}

fn is_copied(property: &Property) -> bool {
    let copy = property.copy();
    let is_copied = is_same(&copy, property);
    drop(copy);
    is_copied
}

fn is_same(copy: &Result<Property, AllocError>, property: &Property) -> bool {
    match copy {
        Ok(copy) => copy == property,
        Err(_) => false,
    }
}
