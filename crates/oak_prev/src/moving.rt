// What moves out of a document, and the two updates by which it moves.
ghost use Rattle.std.specs.Prelude.{◌≡◌, ◌++◌, IfOk, OnOk, map};
ghost use Rattle.std.specs.List.{list_any};
ghost use Rattle.std.specs.Map.{keys_of};
ghost use Rattle.jr_rev.specs.Revisions.{is_same};
ghost use Rattle.oak_doc.specs.declared.update.Change.TheVariants as change;
ghost use Rattle.oak_prev.specs.Moving.{writing_change, entry_of, entry_key, listing_entry, revisions_of, root_depths};

use jr_path::{DeepCopy, Keyed, List, Name};
use jr_rev::Revision;
use jr_value::Property;
use oak_doc::{Change, EntryKey, Field, PrevEntry};
use std::alloc::{AllocError, Global};

// An entry that moves, as it stands in the document.
#[derive(Clone, Copy)]
pub(crate) struct Moved<'a> {
    pub(crate) name: &'a Name,
    pub(crate) revision: Revision,
    pub(crate) value: &'a Option<Property>,
}

// The keys by which entries are dropped.
pub(crate) fn entry_keys(alloc: Global, moved: &[Moved<'_>]) -> Result<List<EntryKey>, AllocError>
    ensures { IfOk result (λ keys. keys ≡ map entry_key (map entry_of moved.now)) }
{
    let mut keys = List::new(alloc);
    for entry in moved {
        keys.push(EntryKey {
            field: Field::Prop(entry.name.copy()?),
            revision: entry.revision,
        })?;
    }
    Ok(keys)
}

// The revisions of entries.
pub(crate) fn revisions_of(
    alloc: Global,
    moved: &[Moved<'_>],
) -> Result<Keyed<Revision, bool>, AllocError>
    ensures { IfOk result (λ revisions. revisions ≡ revisions_of (map entry_of moved.now)) }
{
    let mut revisions = Keyed::new(alloc);
    for entry in moved {
        revisions.put(entry.revision, true)?;
    }
    Ok(revisions)
}

// How a previous document with these revisions is listed, if there is one.
pub(crate) fn listed_by(number: u64, revisions: &Keyed<Revision, bool>) -> Option<PrevEntry>
    ensures { result ≡ listing_entry number revisions.now }
{
    let revisions = revisions.inner();
    match (revisions.first_key_value(), revisions.last_key_value()) {
        (Some((low, _)), Some((high, _))) => Some(PrevEntry {
            number,
            high: *high,
            low: *low,
        }),
        _ => None,
    }
}

// Puts the depths of the commit roots of some revisions.
pub(crate) fn put_roots(
    changes: &mut List<Change>,
    revisions: &Keyed<Revision, bool>,
    roots: &Keyed<Revision, u32>,
) -> Result<(), AllocError>
    ensures { OnOk result (changes.new ≡ changes.old
        ++ map (λ e. change.CommitRoot e.0 e.1) (root_depths revisions.now roots.now)) }
{
    for (r, depth) in roots.iter() {
        if is_among(revisions, *r) {
            changes.push(Change::CommitRoot(*r, *depth))?;
        }
    }
    Ok(())
}

// Whether it is one of some revisions.
fn is_among(revisions: &Keyed<Revision, bool>, r: Revision) -> bool
    ensures { result ≡ list_any (is_same r) (keys_of revisions.now) }
{
    revisions.contains(&r)
}

// Puts the entries.
pub(crate) fn put_entries(changes: &mut List<Change>, moved: &[Moved<'_>]) -> Result<(), AllocError>
    ensures { OnOk result (changes.new ≡ changes.old ++ map writing_change (map entry_of moved.now)) }
{
    for entry in moved {
        changes.push(Change::Prop(entry.name.copy()?, entry.revision, entry.value.copy()?))?;
    }
    Ok(())
}
