// What a collection may drop, by its bound.
ghost use Rattle.std.specs.Prelude.{◌≡◌, ◌++◌, ◌∷◌, [], ◌&&◌, ◌||◌, IfOk, OnOk, Some, option_to_list};
ghost use Rattle.std.specs.List.{flat_map, list_all, list_any};
ghost use Rattle.std.specs.Map.{keys_of};
ghost use Rattle.jr_rev.specs.declared.revision.Revision.{Revision};
ghost use Rattle.jr_rev.specs.Revisions.{is_before};
ghost use Rattle.jr_rev.specs.Vectors.{sees};
ghost use Rattle.oak_doc.specs.Updates.{values_of_property};
ghost use Rattle.oak_gc.specs.Garbage as gc;
ghost use Rattle.oak_doc.specs.declared.update.Field.TheVariants as field;
ghost use Rattle.oak_read.specs.Meaning.{latest};
ghost use Rattle.oak_gc.specs.Newest.{is_older};

use jr_path::{DeepCopy, Keyed, List, Name};
use jr_rev::{Pin, RevVec, Revision};
use jr_value::Property;
use oak_doc::{Document, EntryKey, Field};
use std::alloc::{AllocError, Global};

// The values of a property by revision.
type Values = Keyed<Revision, Option<Property>>;

// Every entry of a document that is garbage.
pub(crate) fn garbage_in(
    alloc: Global,
    bound: &Pin,
    document: &Document,
) -> Result<List<EntryKey>, AllocError>
    ensures { IfOk result (λ keys. keys ≡ gc.garbage_in bound.now.base bound.now.sweep document.now) }
{
    let mut keys = List::new(alloc);
    put_superseded(&mut keys, bound, &Field::Deleted, &document.deleted)?;
    put_statuses(&mut keys, &bound.sweep, document)?;
    put_notes(&mut keys, &bound.base, document)?;
    for (name, values) in document.props.iter() {
        put_superseded_of(&mut keys, bound, name, values)?;
    }
    Ok(keys)
}

// Puts the statuses and the notes of commit roots that the bound's sweep vector sees.
fn put_statuses(
    keys: &mut List<EntryKey>,
    sweep: &RevVec,
    document: &Document,
) -> Result<(), AllocError>
    ensures { OnOk result (keys.new ≡ keys.old
        ++ gc.keys_where (sees sweep.now) field.CommitRoot document.now.commit_root
        ++ gc.keys_where (sees sweep.now) field.Revisions document.now.revisions) }
{
    put_seen(keys, sweep, &Field::CommitRoot, &document.commit_root)?;
    put_seen(keys, sweep, &Field::Revisions, &document.revisions)
}

// Puts the collisions and the marks that the bound's base sees.
fn put_notes(
    keys: &mut List<EntryKey>,
    base: &RevVec,
    document: &Document,
) -> Result<(), AllocError>
    ensures { OnOk result (keys.new ≡ keys.old
        ++ gc.keys_where (sees base.now) field.Collisions document.now.collisions
        ++ gc.keys_where (sees base.now) field.Touched document.now.touched
        ++ gc.keys_where (sees base.now) field.Guard document.now.guard) }
{
    put_seen(keys, base, &Field::Collisions, &document.collisions)?;
    put_seen(keys, base, &Field::Touched, &document.touched)?;
    put_seen(keys, base, &Field::Guard, &document.guard)
}

// Puts the superseded values of a property.
fn put_superseded_of(
    keys: &mut List<EntryKey>,
    bound: &Pin,
    name: &Name,
    values: &Values,
) -> Result<(), AllocError>
    ensures { OnOk result (keys.new ≡ keys.old
        ++ gc.keys_where (gc.is_superseded bound.now.base bound.now.sweep (keys_of values.now)) (field.Prop name.now) values.now) }
{
    put_superseded(keys, bound, &Field::Prop(name.copy()?), values)
}

// Puts the entries of a field that a vector sees.
fn put_seen<V>(
    keys: &mut List<EntryKey>,
    vector: &RevVec,
    field: &Field,
    entries: &Keyed<Revision, V>,
) -> Result<(), AllocError>
    ensures { OnOk result (keys.new ≡ keys.old ++ gc.keys_where (sees vector.now) field.now entries.now) }
{
    for (r, _) in entries.iter() {
        if vector.sees(*r) {
            put_key(keys, field, *r)?;
        }
    }
    Ok(())
}

// Puts the entries of a field that are superseded there.
fn put_superseded<V>(
    keys: &mut List<EntryKey>,
    bound: &Pin,
    field: &Field,
    entries: &Keyed<Revision, V>,
) -> Result<(), AllocError>
    ensures { OnOk result (keys.new ≡ keys.old
        ++ gc.keys_where (gc.is_superseded bound.now.base bound.now.sweep (keys_of entries.now)) field.now entries.now) }
{
    let newest = newest_of(bound, entries, None);
    for (r, _) in entries.iter() {
        if is_superseded(bound, newest, *r) {
            put_key(keys, field, *r)?;
        }
    }
    Ok(())
}

// Puts an entry.
fn put_key(keys: &mut List<EntryKey>, field: &Field, r: Revision) -> Result<(), AllocError>
    ensures { OnOk result (keys.new ≡ keys.old ++ record { field = field.now; revision = r } ∷ []) }
{
    keys.push(EntryKey {
        field: field.copy()?,
        revision: r,
    })
}

// The greatest of a revision and of those entries that both vectors see. Whatever stands before it is superseded by it.
fn newest_of<V>(
    bound: &Pin,
    entries: &Keyed<Revision, V>,
    newest: Option<Revision>,
) -> Option<Revision>
    ensures { (r : Revision) → is_older r result ≡ (is_older r newest
        || list_any (λ q. is_before r q && sees bound.now.base q && sees bound.now.sweep q) (keys_of entries.now)) }
{
    let mut newest = newest;
    for (q, _) in entries.iter() {
        newest = newest_with(bound, newest, q);
    }
    newest
}

// The greatest of a revision and of one more, where both vectors see that one.
fn newest_with(bound: &Pin, newest: Option<Revision>, q: &Revision) -> Option<Revision>
    ensures { (r : Revision) → is_older r result ≡ (is_older r newest
        || (is_before r q.now && sees bound.now.base q.now && sees bound.now.sweep q.now)) }
{
    if bound.base.sees(*q) && bound.sweep.sees(*q) {
        return Some(later(newest, *q));
    }
    newest
}

// The later of two revisions.
fn later(newest: Option<Revision>, q: Revision) -> Revision
    ensures { (r : Revision) → is_before r result ≡ (is_older r newest || is_before r q) }
{
    match newest {
        Some(found) => { if q < found { found } else { q } }
        None => q,
    }
}

// Whether the bound sees a revision, and it stands before the newest.
fn is_superseded(bound: &Pin, newest: Option<Revision>, r: Revision) -> bool
    ensures { result ≡ (sees bound.now.base r && is_older r newest) }
{
    match newest {
        Some(q) => bound.base.sees(r) && r < q,
        None => false,
    }
}

// Whether the entries of a previous document would all be garbage if they stood in the document that lists it.
pub(crate) fn is_garbage_previous(bound: &Pin, document: &Document, previous: &Document) -> bool
    ensures { result ≡ gc.is_garbage_previous bound.now.base bound.now.sweep document.now previous.now }
{
    if !are_seen(&bound.sweep, &previous.commit_root) {
        return false;
    }
    for (name, values) in previous.props.iter() {
        if !are_superseded(bound, document, name, values) {
            return false;
        }
    }
    true
}

// Whether the values of a property in a previous document would be garbage among those of its document.
fn are_superseded(bound: &Pin, document: &Document, name: &Name, values: &Values) -> bool
    ensures { result ≡ gc.are_superseded bound.now.base bound.now.sweep document.now (name.now, values.now) }
{
    let newest = newest_of(bound, values, newest_in(bound, document, name));
    for (r, _) in values.iter() {
        if !is_superseded(bound, newest, *r) {
            return false;
        }
    }
    true
}

// The greatest of a property's entries in a document that both vectors see.
fn newest_in(bound: &Pin, document: &Document, name: &Name) -> Option<Revision>
    ensures { (r : Revision) → is_older r result
        ≡ list_any (λ q. is_before r q && sees bound.now.base q && sees bound.now.sweep q)
        (keys_of (values_of_property document.now.props name.now)) }
{
    match document.props.get(name) {
        Some(values) => newest_of(bound, values, None),
        None => None,
    }
}

// Whether a document may go whole: its node is absent at the bound, and the bound sees all that it keeps, and each status
// by its sweep vector.
pub(crate) fn is_garbage_document(bound: &Pin, document: &Document) -> bool
    ensures { result ≡ gc.is_garbage_document bound.now.base bound.now.sweep document.now }
{
    is_absent(bound, document)
        && are_all_seen(&bound.base, document)
        && are_seen(&bound.sweep, &document.revisions)
}

// Whether the latest `_deleted` entry that the bound sees says that the node is gone, or there is none.
fn is_absent(bound: &Pin, document: &Document) -> bool
    ensures { result ≡ gc.is_absent bound.now.base bound.now.sweep document.now }
{
    let mut latest: Option<(Revision, bool)> = None;
    for (r, gone) in document.deleted.iter() {
        if bound.base.sees(*r) {
            latest = Some(later_entry(latest, *r, *gone));
        }
    }
    match latest {
        Some((_, gone)) => gone,
        None => true,
    }
}

// The later of the best so far and an entry; of one revision the best so far.
fn later_entry(best: Option<(Revision, bool)>, r: Revision, gone: bool) -> (Revision, bool)
    ensures { Some result ≡ latest (option_to_list best ++ (r, gone) ∷ []) }
{
    match best {
        Some((found, kept)) => { if found < r { (r, gone) } else { (found, kept) } }
        None => (r, gone),
    }
}

// Whether a vector sees all that a document keeps by revision.
fn are_all_seen(base: &RevVec, document: &Document) -> bool
    ensures { result ≡ list_all (sees base.now) (gc.revisions_kept document.now) }
{
    are_seen(base, &document.deleted)
        && are_seen(base, &document.commit_root)
        && are_seen(base, &document.revisions)
        && are_seen(base, &document.collisions)
        && are_seen(base, &document.touched)
        && are_seen(base, &document.guard)
        && are_values_seen(base, &document.props)
}

// Whether a vector sees each revision of some entries.
fn are_seen<V>(vector: &RevVec, entries: &Keyed<Revision, V>) -> bool
    ensures { result ≡ list_all (sees vector.now) (keys_of entries.now) }
{
    for (r, _) in entries.iter() {
        if !vector.sees(*r) {
            return false;
        }
    }
    true
}

// Whether a vector sees each revision of some properties.
fn are_values_seen(vector: &RevVec, props: &Keyed<Name, Values>) -> bool
    ensures { result ≡ list_all (sees vector.now) (flat_map (λ p. keys_of p.1) props.now) }
{
    for (_, values) in props.iter() {
        if !are_seen(vector, values) {
            return false;
        }
    }
    true
}
