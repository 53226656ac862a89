// One change of one document.
use crate::changes::{collision, put, simple};
use crate::tables::{at_time, id_of, put_count};
use crate::texts::{name, only, text_of};
use jr_rev::{Pin, RevVec, Revision};
use oak_doc::{Change, Cond, Document, EntryKey, Field, Kept, OpFault, PrevEntry, UpdateOp};
use oak_store::DocTable;
use rows::{Out, cut, number};

// ID WORD ARGUMENTS: how many entries the fields of the document then have.
pub(crate) fn make(rest: &str, table: &mut DocTable, out: &mut Out) {
    add(rest, None, table, out);
}

// NUMBER ID WORD ARGUMENTS: the change where the document has this number.
pub(crate) fn refuse(rest: &str, table: &mut DocTable, out: &mut Out) {
    let (mod_count, rest) = cut(rest);
    add(rest, Some(Cond::Unchanged(number(mod_count))), table, out);
}

fn add(rest: &str, cond: Option<Cond>, table: &mut DocTable, out: &mut Out) {
    let op = op_of(rest, cond, out);
    let made = table.update(&op);
    if is_made(&made, out) {
        put_found(table.find(&op.id), "lost", out);
    }
    drop(made);
    drop(op);
}

// Whether the update was made; puts what it was refused for.
fn is_made(made: &Result<Option<Document>, OpFault>, out: &mut Out) -> bool {
    match made {
        Ok(_) => return true,
        Err(OpFault::Unmet(_, Kept::Number(number))) => {
            out.put("unmet ");
            put_count(*number, out);
        }
        Err(_) => out.put("refused"),
    }
    false
}

fn op_of(rest: &str, cond: Option<Cond>, out: &mut Out) -> UpdateOp {
    let (id, rest) = cut(rest);
    let change = change_of(rest, out);
    UpdateOp {
        id: id_of(id, out),
        create: true,
        cond,
        changes: only(change, out),
    }
}

fn change_of(rest: &str, out: &mut Out) -> Change {
    let (word, rest) = cut(rest);
    let (first, second) = cut(rest);
    let r = at_time(first);
    match word {
        "list" => listed(number(second), r),
        "unlist" => Change::Unlist(number(first)),
        "undo" => Change::Undo(r),
        "collision" => collision(r, at_time("2"), second, out),
        "prune" => prune(r, second, out),
        "put" => put(second, r, "5", out),
        "unset" => put(second, r, "", out),
        "checkpoint" => checkpoint(second, out),
        "attach" => Change::Attach(7, text_of(second, out)),
        "detach" => Change::Detach(7),
        "release" => Change::Release(text_of(second, out)),
        _ => simple(word, r, "", out),
    }
}

fn listed(number: u64, r: Revision) -> Change {
    Change::List(PrevEntry {
        number,
        high: r,
        low: r,
    })
}

fn prune(r: Revision, text: &str, out: &mut Out) -> Change {
    match name(text, out) {
        Some(name) => prune_of(Field::Prop(name), r, out),
        None => Change::Undo(r),
    }
}

fn prune_of(field: Field, r: Revision, out: &mut Out) -> Change {
    Change::Prune(only(EntryKey { field, revision: r }, out))
}

// The pin is that of the start.
fn checkpoint(id: &str, out: &mut Out) -> Change {
    let base = RevVec::start(1);
    Change::Checkpoint(text_of(id, out), Pin { base, sweep: base })
}

// How many entries the fields of a document have that is found; a word for none.
pub(crate) fn put_found(document: Option<&Document>, word: &str, out: &mut Out) {
    match document {
        Some(document) => put_sizes(document, out),
        None => out.put(word),
    }
}

// How many entries the fields have: `_deleted`, `_commitRoot`, `_revisions`, `_collisions`,
// `_touched`, `_guard`, `_prev`, properties, checkpoints, readers; and the number.
fn put_sizes(document: &Document, out: &mut Out) {
    put_count(document.deleted.len() as u64, out);
    put_count(document.commit_root.len() as u64, out);
    put_count(document.revisions.len() as u64, out);
    put_count(document.collisions.len() as u64, out);
    put_count(document.touched.len() as u64, out);
    put_count(document.guard.len() as u64, out);
    put_count(document.prev.inner().len() as u64, out);
    put_count(document.props.len() as u64, out);
    put_count(document.checkpoints.len() as u64, out);
    put_count(document.readers.len() as u64, out);
    put_count(document.mod_count, out);
}
