// The changes of a document.
ghost use Rattle.std.specs.Prelude.{◌≡◌, OnOk, ◌∷◌, cond, is_some, not, nat_eq, ◌==◌, length, filter, fold};
ghost use Rattle.std.specs.BTreeMap.{insert_entry, is_at};
ghost use Rattle.std.specs.Map.{lookup};
ghost use Rattle.std.specs.Option.{option_map_or};
ghost use Rattle.std.specs.Ordering.{nat_cmp};
ghost use Rattle.jr_path.specs.Names.{name_cmp};
ghost use Rattle.oak_doc.specs.Updates.{changed, pruned, undone, with_values, with_revision, without_revision, of_revision, values_of_property, props_without_revision};
ghost use Rattle.oak_doc.specs.declared.update.Change.TheVariants.{Undo};

use crate::{Change, Document, EntryKey, Field, PrevEntry};
use jr_path::{DeepCopy, Item, Keyed, List, Name, Text};
use jr_rev::{Pin, Revision};
use jr_value::Property;
use std::alloc::{AllocError, Global};

// The values of a property by revision.
type Values = Keyed<Revision, Option<Property>>;

impl Document {
    /// Drops every entry of a revision but those in `_collisions`, and takes the number. It takes no memory.
    pub fn undo(&mut self, r: Revision, number: u64)
        ensures { self.new ≡ undone self.old r number }
    {
        drop_revision(self, &r);
        self.mod_count = number;
    }
}

// One change of a document.
pub(crate) fn apply_change(
    alloc: Global,
    document: &mut Document,
    change: &Change,
) -> Result<(), AllocError>
    ensures { OnOk result (document.new ≡ changed document.old change.now) }
{
    match change {
        Change::Deleted(r, gone) => document.deleted.put(*r, *gone),
        Change::CommitRoot(r, depth) => document.commit_root.put(*r, *depth),
        Change::Revisions(r) => document.revisions.put(*r, ()),
        Change::Collision(other, r, item) => {
            note_collision(&mut document.collisions, *other, *r, item)
        }
        Change::Touched(r) => document.touched.put(*r, ()),
        Change::Guard(r) => document.guard.put(*r, ()),
        Change::Prop(name, r, value) => put_copy(alloc, &mut document.props, name, *r, value),
        Change::Undo(r) => {
            drop_revision(document, r);
            Ok(())
        }
        Change::Prune(keys) => {
            drop_entries(document, keys);
            Ok(())
        }
        Change::List(entry) => list_first(&mut document.prev, *entry),
        Change::Unlist(number) => {
            unlist(&mut document.prev, *number);
            Ok(())
        }
        Change::LastRev(r) => {
            document.last_rev.raise(*r);
            Ok(())
        }
        Change::SweepRev(r) => {
            document.sweep_rev.raise(*r);
            Ok(())
        }
        Change::Checkpoint(id, pin) => keep_checkpoint(&mut document.checkpoints, id, *pin),
        Change::Release(id) => {
            document.checkpoints.remove(id);
            Ok(())
        }
        Change::Attach(session, id) => {
            attach(&mut document.readers, &document.checkpoints, *session, id)
        }
        Change::Detach(session) => {
            document.readers.remove(session);
            Ok(())
        }
    }
}

// Notes that the revision clashes with the other one in the item, unless the other has a note.
fn note_collision(
    collisions: &mut Keyed<Revision, (Revision, Item)>,
    other: Revision,
    r: Revision,
    item: &Item,
) -> Result<(), AllocError>
    ensures { OnOk result (collisions.new ≡ cond (is_some (of_revision collisions.old other)) collisions.old
        (with_revision collisions.old other (r, item.now))) }
{
    if collisions.contains(&other) {
        return Ok(());
    }
    let item = item.copy()?;
    collisions.put(other, (r, item))
}

// Puts a copy of a property's value at a revision.
fn put_copy(
    alloc: Global,
    props: &mut Keyed<Name, Values>,
    name: &Name,
    r: Revision,
    value: &Option<Property>,
) -> Result<(), AllocError>
    ensures { OnOk result (props.new ≡ with_values props.old name.now
        (with_revision (values_of_property props.old name.now) r value.now)) }
{
    put_value(alloc, props, name, r, value.copy()?)
}

// Lists a previous document before those that are listed.
fn list_first(prev: &mut List<PrevEntry>, entry: PrevEntry) -> Result<(), AllocError>
    ensures { OnOk result (prev.new ≡ entry ∷ prev.old) }
{
    prev.inner_mut().insert(0, entry)?;
    Ok(())
}

// Keeps a checkpoint under a copy of its id.
fn keep_checkpoint(
    checkpoints: &mut Keyed<Text, Pin>,
    id: &Text,
    pin: Pin,
) -> Result<(), AllocError>
    ensures { OnOk result (checkpoints.new ≡ insert_entry name_cmp checkpoints.old id.now pin) }
{
    checkpoints.put(id.copy()?, pin)
}

// Copies the checkpoint of an id, where there is one, under the session's number.
fn attach(
    readers: &mut Keyed<u32, Pin>,
    checkpoints: &Keyed<Text, Pin>,
    session: u32,
    id: &Text,
) -> Result<(), AllocError>
    ensures { OnOk result (readers.new ≡ option_map_or (λ pin. insert_entry nat_cmp readers.old session pin)
        (lookup (is_at (name_cmp id.now)) checkpoints.now) readers.old) }
{
    match checkpoints.get(id) {
        Some(pin) => readers.put(session, *pin),
        None => Ok(()),
    }
}

// Takes the previous document of a number from the list.
fn unlist(prev: &mut List<PrevEntry>, number: u64)
    ensures { prev.new ≡ filter (λ e. not (e.number == number)) prev.old }
{
    prev.inner_mut().retain(|entry| entry.number != number);
}

// Drops every entry of a revision but those in `_collisions`.
fn drop_revision(document: &mut Document, r: &Revision)
    ensures { document.new ≡ changed document.old (Undo r.now) }
{
    document.deleted.remove(r);
    document.commit_root.remove(r);
    document.revisions.remove(r);
    document.touched.remove(r);
    document.guard.remove(r);
    drop_values(&mut document.props, r);
}

// Drops entries one by one.
fn drop_entries(document: &mut Document, keys: &List<EntryKey>)
    ensures { document.new ≡ fold pruned document.old keys.now }
{
    for key in keys.inner() {
        drop_entry(document, key);
    }
}

// Drops one entry.
fn drop_entry(document: &mut Document, key: &EntryKey)
    ensures { document.new ≡ pruned document.old key.now }
{
    let r = &key.revision;
    match &key.field {
        Field::Deleted => document.deleted.remove(r),
        Field::CommitRoot => document.commit_root.remove(r),
        Field::Revisions => document.revisions.remove(r),
        Field::Collisions => document.collisions.remove(r),
        Field::Touched => document.touched.remove(r),
        Field::Guard => document.guard.remove(r),
        Field::Prop(name) => drop_value(&mut document.props, name, r),
    }
}

/// Puts a value of a property at a revision; the property comes with its first value.
///
/// Oak, DocumentNodeStore: "Node Document", on the revisioned values of a property.
pub fn put_value(
    alloc: Global,
    props: &mut Keyed<Name, Values>,
    name: &Name,
    r: Revision,
    value: Option<Property>,
) -> Result<(), AllocError>
    ensures { OnOk result (props.new ≡ with_values props.old name.now
        (with_revision (values_of_property props.old name.now) r value)) }
{
    if let Some(values) = props.inner_mut().get_mut(name) {
        values.put(r, value)?;
        return Ok(());
    }
    let mut values = Keyed::new(alloc);
    values.put(r, value)?;
    props.put(name.copy()?, values)?;
    Ok(())
}

// Drops the value of a property at a revision; the property goes with its last value.
fn drop_value(props: &mut Keyed<Name, Values>, name: &Name, r: &Revision)
    ensures { props.new ≡ with_values props.old name.now
        (without_revision r.now (values_of_property props.old name.now)) }
{
    let Some(values) = props.inner_mut().get_mut(name) else {
        return;
    };
    if !keeps_others(values, r) {
        props.remove(name);
    }
}

// Each property loses its value at a revision, and goes with its last value.
fn drop_values(props: &mut Keyed<Name, Values>, r: &Revision)
    ensures { props.new ≡ props_without_revision r.now props.old }
{
    props
        .inner_mut()
        .retain(|_, values| keeps_others(values, r));
}

// Drops the value at a revision, and tells whether others are left.
fn keeps_others(values: &mut Values, r: &Revision) -> bool
    ensures values { values.new ≡ without_revision r.now values.old }
    ensures left { result ≡ not (nat_eq (length values.new) 0) }
{
    values.remove(r);
    !values.inner().is_empty()
}
