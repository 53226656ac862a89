// The texts of asks, with the words for changes that rows have.

use jr_path::{DocId, Item, List, Name, Text};
use jr_rev::{Pin, Revision};
use jr_value::{Property, Value};
use oak_doc::{Ask, Change, Cond, EntryKey, Field, MemoryAsk, PrevEntry, UpdateOp};
use rows::Out;

pub(crate) fn put_ask(ask: &Ask, out: &mut Out) {
    match ask {
        Ask::Find(id) => out.put_id("find ", id),
        Ask::NextAfter(Some(id)) => out.put_id("next ", id),
        Ask::NextAfter(None) => out.put("next"),
        Ask::Update(op) => put_update(op, out),
        Ask::Undo(r) => out.put_revision("undo ", *r),
        Ask::RemoveIf(id, number) => put_removal(id, *number, out),
        Ask::Memory(ask) => put_memory(ask, out),
        Ask::Done => out.put("done"),
    }
}

fn put_removal(id: &DocId, number: u64, out: &mut Out) {
    out.put_id("remove ", id);
    out.put_numbered(" if ", number);
}

fn put_memory(ask: &MemoryAsk, out: &mut Out) {
    match ask {
        MemoryAsk::Finish(r) => out.put_revision("end ", *r),
        MemoryAsk::Learn(head, sweep) => out.put_pin("raise ", head, sweep),
        MemoryAsk::Pins(cluster) => out.put_numbered("pins ", u64::from(*cluster)),
        MemoryAsk::Recover(cluster) => out.put_numbered("recover ", u64::from(*cluster)),
    }
}

// `make` where it makes a document that isn't there, and `change` where it doesn't.
pub(crate) fn put_update(op: &UpdateOp, out: &mut Out) {
    out.put_id(update_word(op.create), &op.id);
    if let Some(cond) = &op.cond {
        put_condition(cond, out);
    }
    for change in op.changes.inner() {
        out.put(" ");
        put_change(change, out);
    }
}

fn update_word(create: bool) -> &'static str {
    if create { "make " } else { "change " }
}

fn put_condition(cond: &Cond, out: &mut Out) {
    match cond {
        Cond::NoCollision(r) => out.put_revision(" if unhit@", *r),
        Cond::NotCommitted(r) => out.put_revision(" if uncommitted@", *r),
        Cond::Unchanged(number) => out.put_numbered(" if ", *number),
        Cond::Exists => out.put(" if there"),
        Cond::Missing => out.put(" if missing"),
    }
}

fn put_change(change: &Change, out: &mut Out) {
    match change {
        Change::Deleted(r, gone) => out.put_revision(deleted_word(*gone), *r),
        Change::CommitRoot(r, depth) => put_root(*r, *depth, out),
        Change::Revisions(r) => out.put_revision("rev@", *r),
        Change::Collision(other, r, item) => put_hit(*other, *r, item, out),
        Change::Touched(r) => out.put_revision("touch@", *r),
        Change::Guard(r) => out.put_revision("guard@", *r),
        Change::Prop(name, r, value) => put_property(name, *r, value, out),
        Change::Undo(r) => out.put_revision("undo@", *r),
        Change::Prune(keys) => put_keys(keys, out),
        Change::List(entry) => put_listed(entry, out),
        Change::Unlist(number) => out.put_numbered("unlist@", *number),
        Change::LastRev(r) => out.put_revision("last@", *r),
        Change::SweepRev(r) => out.put_revision("swept@", *r),
        Change::Checkpoint(id, pin) => put_checkpoint(id, pin, out),
        Change::Release(id) => put_release(id, out),
        Change::Attach(session, id) => put_reader(*session, id, out),
        Change::Detach(session) => out.put_numbered("detach@", u64::from(*session)),
    }
}

fn deleted_word(gone: bool) -> &'static str {
    if gone { "gone@" } else { "here@" }
}

fn put_root(r: Revision, depth: u32, out: &mut Out) {
    out.put_revision("root@", r);
    out.put_numbered("=", u64::from(depth));
}

fn put_hit(other: Revision, r: Revision, item: &Item, out: &mut Out) {
    out.put_revision("hit@", other);
    out.put_revision("=", r);
    put_item(item, out);
}

// ` PATH`, or ` PATH NAME`
pub(crate) fn put_item(item: &Item, out: &mut Out) {
    out.put(" ");
    out.put_path(&item.path);
    if let Some(name) = &item.name {
        out.put(" ");
        out.put(name.as_str());
    }
}

fn put_property(name: &Name, r: Revision, value: &Option<Property>, out: &mut Out) {
    out.put(name.as_str());
    out.put_revision("@", r);
    match value {
        Some(Property::Single(Value::Long(number))) => out.put_numbered("=", number.unsigned_abs()),
        Some(_) => out.put("=?"),
        None => {}
    }
}

fn put_keys(keys: &List<EntryKey>, out: &mut Out) {
    out.put("prune");
    for key in keys.inner() {
        out.put(" ");
        out.put(field_word(&key.field));
        out.put_revision("@", key.revision);
    }
}

fn field_word(field: &Field) -> &str {
    match field {
        Field::Deleted => "deleted",
        Field::CommitRoot => "root",
        Field::Revisions => "rev",
        Field::Collisions => "hit",
        Field::Touched => "touch",
        Field::Guard => "guard",
        Field::Prop(name) => name.as_str(),
    }
}

fn put_listed(entry: &PrevEntry, out: &mut Out) {
    out.put_numbered("list@", entry.number);
    out.put_revision("=", entry.high);
    out.put_revision(",", entry.low);
}

pub(crate) fn put_checkpoint(id: &Text, pin: &Pin, out: &mut Out) {
    out.put("checkpoint@");
    out.put(id.as_str());
    out.put_pin("=", &pin.base, &pin.sweep);
}

fn put_release(id: &Text, out: &mut Out) {
    out.put("release@");
    out.put(id.as_str());
}

fn put_reader(session: u32, id: &Text, out: &mut Out) {
    out.put_numbered("reader@", u64::from(session));
    out.put("=");
    out.put(id.as_str());
}
