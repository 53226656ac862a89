// Documents and events as text.
use jcr_law::JcrLaw;
use jr_path::Keyed;
use jr_rev::{RevVec, Revision};
use jr_value::Property;
use oak_doc::Document;
use oak_machine::{Event, StepKind};
use oak_world::World;
use rows::Out;

// The documents, a line each, and then the names of the events.
pub(crate) fn told(world: &World<JcrLaw>, out: &mut Out) {
    for (_, document) in world.documents().documents().iter() {
        put_document(document, out);
        out.put("\n");
    }
    for event in world.journal().events.as_slice() {
        out.put(name_of(event));
        out.put(" ");
    }
}

fn put_count(number: u64, out: &mut Out) {
    out.put_number(number);
    out.put(" ");
}

// The time of a vector's one revision, or `-`.
fn put_time(vector: &RevVec, out: &mut Out) {
    match vector.get(1) {
        Some(r) => put_count(r.time, out),
        None => out.put("- "),
    }
}

// A word, and the time of a revision.
fn put_entry(word: &str, r: &Revision, out: &mut Out) {
    out.put(word);
    out.put(" ");
    put_count(r.time, out);
}

// A document: its id, its number, `_lastRev`, `_sweepRev` and `_sessions`; then its entries, each
// with the time of its revision, all of which are of cluster node 1; then how many entries the
// other fields have.
fn put_document(document: &Document, out: &mut Out) {
    out.put_id("", &document.id);
    out.put(" ");
    put_count(document.mod_count, out);
    put_time(&document.last_rev, out);
    put_time(&document.sweep_rev, out);
    put_count(document.sessions as u64, out);
    for (r, deleted) in document.deleted.iter() {
        put_entry(if *deleted { "gone" } else { "here" }, r, out);
    }
    put_entries("root", &document.commit_root, out);
    put_entries("committed", &document.revisions, out);
    put_entries("touched", &document.touched, out);
    put_properties(document, out);
    put_others(document, out);
}

fn put_entries<T>(word: &str, entries: &Keyed<Revision, T>, out: &mut Out) {
    for (r, _) in entries.iter() {
        put_entry(word, r, out);
    }
}

fn put_others(document: &Document, out: &mut Out) {
    put_count(document.collisions.len() as u64, out);
    put_count(document.guard.len() as u64, out);
    put_count(document.prev.inner().len() as u64, out);
    put_count(document.checkpoints.len() as u64, out);
    put_count(document.readers.len() as u64, out);
}

fn put_properties(document: &Document, out: &mut Out) {
    for (name, values) in document.props.iter() {
        for (r, value) in values.iter() {
            put_entry(name.as_str(), r, out);
            put_value(value, out);
        }
    }
}

fn put_value(value: &Option<Property>, out: &mut Out) {
    match value {
        Some(property) => out.put_property(property),
        None => out.put("null"),
    }
    out.put(" ");
}

fn name_of(event: &Event) -> &'static str {
    match event {
        Event::Login(0, _) => "Login",
        Event::Draw(_) => "Draw",
        Event::Went(0, StepKind::Write) => "Write",
        Event::Commit(_) => "Commit",
        Event::End(_) => "End",
        Event::Head(1, _) => "Head",
        Event::Refresh(0, _) => "Refresh",
        Event::Said(0, _, _) => "Said",
        Event::Went(0, StepKind::End) => "Left",
        _ => "another",
    }
}
