// The fields of a document, one after the other.
use jr_path::{Item, Keyed, Name, Text};
use jr_rev::{Pin, RevVec, Revision};
use jr_value::Property;
use oak_doc::{Document, PrevEntry};
use rows::Out;

// Its id and number, and what there is of each field.
pub(crate) fn put_document(document: &Document, out: &mut Out) {
    out.put_id("", &document.id);
    out.put_numbered(" number ", document.mod_count);
    put_commits(document, out);
    put_marks(document, out);
    put_vector(" last ", &document.last_rev, out);
    put_vector(" sweep ", &document.sweep_rev, out);
    put_listed(document.prev.as_slice(), out);
    put_properties(document, out);
    put_settings(document, out);
}

fn put_commits(document: &Document, out: &mut Out) {
    for (revision, is_deleted) in document.deleted.inner() {
        out.put_revision(" deleted ", *revision);
        out.put(" ");
        out.put_answer(*is_deleted);
    }
    for (revision, depth) in document.commit_root.inner() {
        out.put_revision(" root ", *revision);
        out.put_numbered(" ", u64::from(*depth));
    }
    put_revisions(" committed ", &document.revisions, out);
}

fn put_revisions(word: &str, revisions: &Keyed<Revision, ()>, out: &mut Out) {
    for (revision, _) in revisions.inner() {
        out.put_revision(word, *revision);
    }
}

fn put_marks(document: &Document, out: &mut Out) {
    for (revision, collision) in document.collisions.inner() {
        out.put_revision(" collision ", *revision);
        put_collision(collision, out);
    }
    put_revisions(" touched ", &document.touched, out);
    put_revisions(" guard ", &document.guard, out);
}

fn put_collision(collision: &(Revision, Item), out: &mut Out) {
    out.put_revision(" by ", collision.0);
    out.put(" ");
    out.put_path(&collision.1.path);
    out.put(if collision.1.name.is_some() {
        " property"
    } else {
        " node"
    });
}

fn put_vector(word: &str, vector: &RevVec, out: &mut Out) {
    out.put(word);
    out.put_vector(vector);
}

fn put_listed(prev: &[PrevEntry], out: &mut Out) {
    for entry in prev {
        out.put_numbered(" previous ", entry.number);
        out.put_revision(" ", entry.high);
        out.put_revision(" ", entry.low);
    }
}

fn put_properties(document: &Document, out: &mut Out) {
    for (name, values) in document.props.inner() {
        put_values(name, values, out);
    }
}

fn put_values(name: &Name, values: &Keyed<Revision, Option<Property>>, out: &mut Out) {
    for (revision, value) in values.inner() {
        out.put(" property ");
        out.put(name.as_str());
        out.put_revision(" ", *revision);
        put_value(value, out);
    }
}

fn put_value(value: &Option<Property>, out: &mut Out) {
    out.put(" ");
    match value {
        Some(property) => out.put_property(property),
        None => out.put("none"),
    }
}

fn put_settings(document: &Document, out: &mut Out) {
    out.put_numbered(" sessions ", u64::from(document.sessions));
    for (id, pin) in document.checkpoints.inner() {
        put_checkpoint(id, pin, out);
    }
    for (session, pin) in document.readers.inner() {
        out.put_numbered(" reader ", u64::from(*session));
        out.put_pin(" ", &pin.base, &pin.sweep);
    }
}

fn put_checkpoint(id: &Text, pin: &Pin, out: &mut Out) {
    out.put(" checkpoint ");
    out.put(id.as_str());
    out.put_pin(" ", &pin.base, &pin.sweep);
}
