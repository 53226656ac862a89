// The rule of commit roots and previous documents.
ghost use Rattle.std.specs.Prelude.{◌≡◌, ◌||◌, ◌&&◌, not, ◌==◌, [], IfOk, nat_lt, false, length};
ghost use Rattle.std.specs.Prelude.{true};
ghost use Rattle.std.specs.List.{list_all, flat_map};
ghost use Rattle.std.specs.Map.{keys_of};
ghost use Rattle.std.specs.Option.{option_copied, option_map_or};
ghost use Rattle.jr_path.specs.declared.path.DocId.TheVariants.{Node, Prev};
ghost use Rattle.jr_rev.specs.Revisions.{is_at_most, is_before};
ghost use Rattle.oak_doc.specs.Updates.{values_of_property};
ghost use Rattle.oak_read.specs.Meaning.{path_of, documents_in};
ghost use Rattle.oak_sound.specs.Sound.{are_behind, first_breaking, has_later, has_roots_above};
ghost use Rattle.oak_sound.specs.Sound.{is_as_listed, is_in_listed_range, is_well_listed};
ghost use Rattle.oak_sound.specs.Sound.{keeps_previous, keeps_roots};

use crate::committed::{ById, latest_committed};
use jr_path::{DeepCopy, DocId, Keyed, Name, Path};
use jr_rev::{RevVec, Revision};
use jr_value::Property;
use oak_doc::{Document, PrevEntry};
use std::alloc::{AllocError, Global};

// The first document that doesn't keep the rule of commit roots and previous documents.
pub(crate) fn first_misrooted(
    alloc: Global,
    documents: &ById,
    sweep: &RevVec,
) -> Result<Option<usize>, AllocError>
    ensures { IfOk result (λ at. at
        ≡ first_breaking (λ before e. keeps_roots documents.now sweep.now e.0 e.1) []
        documents.now) }
{
    let _ = documents.len();
    for (at, (id, document)) in documents.iter().enumerate() {
        if !keeps_roots(alloc, documents, sweep, id, document)? {
            return Ok(Some(at));
        }
    }
    Ok(None)
}

fn keeps_roots(
    alloc: Global,
    documents: &ById,
    sweep: &RevVec,
    id: &DocId,
    document: &Document,
) -> Result<bool, AllocError>
    ensures { IfOk result (λ keeps. keeps
        ≡ keeps_roots documents.now sweep.now id.now document.now) }
{
    if !has_roots_above(id, document) {
        return Ok(false);
    }
    keeps_previous(alloc, documents, sweep, id, document)
}

// Whether each commit root stands above the document's node.
fn has_roots_above(id: &DocId, document: &Document) -> bool
    ensures { result ≡ has_roots_above id.now document.now }
{
    let depth = depth_of(id);
    for (_, root) in document.commit_root.iter() {
        if !is_above(*root, depth) {
            return false;
        }
    }
    true
}

fn is_above(root: u32, depth: usize) -> bool
    ensures { result ≡ nat_lt root depth }
{
    (root as usize) < depth
}

// How many names the path has of the node whose document or previous document it is.
fn depth_of(id: &DocId) -> usize
    ensures { result ≡ length (path_of id.now) }
{
    match id {
        DocId::Node(path) | DocId::Prev(_, path) => path.depth(),
        DocId::Settings => 0,
    }
}

fn keeps_previous(
    alloc: Global,
    documents: &ById,
    sweep: &RevVec,
    id: &DocId,
    document: &Document,
) -> Result<bool, AllocError>
    ensures { IfOk result (λ keeps. keeps
        ≡ keeps_previous documents.now sweep.now id.now document.now) }
{
    match id {
        DocId::Node(path) => lists_well(alloc, documents, sweep, path, document),
        DocId::Prev(number, path) => is_as_listed(documents, *number, path, document),
        DocId::Settings => Ok(true),
    }
}

// Whether all that a node's document lists is well listed.
fn lists_well(
    alloc: Global,
    documents: &ById,
    sweep: &RevVec,
    path: &Path,
    document: &Document,
) -> Result<bool, AllocError>
    ensures { IfOk result (λ well. well
        ≡ keeps_previous documents.now sweep.now (Node path.now) document.now) }
{
    for entry in document.prev.as_slice() {
        if !is_well_listed(alloc, documents, sweep, path, document, entry)? {
            return Ok(false);
        }
    }
    Ok(true)
}

fn is_well_listed(
    alloc: Global,
    documents: &ById,
    sweep: &RevVec,
    path: &Path,
    document: &Document,
    entry: &PrevEntry,
) -> Result<bool, AllocError>
    ensures { IfOk result (λ well. well
        ≡ is_well_listed documents.now sweep.now path.now document.now entry.now) }
{
    if entry.number >= document.mod_count {
        return Ok(false);
    }
    has_later_where_there(
        alloc,
        documents,
        sweep,
        document,
        DocId::Prev(entry.number, path.copy()?),
    )
}

// Whether a previous document is gone, or the document has later entries for all of it.
fn has_later_where_there(
    alloc: Global,
    documents: &ById,
    sweep: &RevVec,
    document: &Document,
    id: DocId,
) -> Result<bool, AllocError>
    ensures { IfOk result (λ has. has
        ≡ option_map_or (has_later documents.now sweep.now document.now)
        (documents_in documents.now id) true) }
{
    match documents.get(&id) {
        Some(previous) => has_later(alloc, documents, sweep, document, previous),
        None => Ok(true),
    }
}

// Whether the document has, for each entry of a previous one, a later committed one of its item.
fn has_later(
    alloc: Global,
    documents: &ById,
    sweep: &RevVec,
    document: &Document,
    previous: &Document,
) -> Result<bool, AllocError>
    ensures { IfOk result (λ has. has
        ≡ has_later documents.now sweep.now document.now previous.now) }
{
    if !are_behind(
        alloc,
        documents,
        sweep,
        document,
        &document.deleted,
        &previous.deleted,
    )? {
        return Ok(false);
    }
    has_later_values(alloc, documents, sweep, document, &previous.props)
}

fn has_later_values(
    alloc: Global,
    documents: &ById,
    sweep: &RevVec,
    document: &Document,
    props: &Keyed<Name, Keyed<Revision, Option<Property>>>,
) -> Result<bool, AllocError>
    ensures { IfOk result (λ has. has
        ≡ list_all (λ p. are_behind documents.now sweep.now document.now
        (values_of_property document.now.props p.0) p.1) props.now) }
{
    for (name, older) in props.iter() {
        if !is_property_behind(alloc, documents, sweep, document, name, older)? {
            return Ok(false);
        }
    }
    Ok(true)
}

fn is_property_behind(
    alloc: Global,
    documents: &ById,
    sweep: &RevVec,
    document: &Document,
    name: &Name,
    older: &Keyed<Revision, Option<Property>>,
) -> Result<bool, AllocError>
    ensures { IfOk result (λ b. b ≡ are_behind documents.now sweep.now document.now
        (values_of_property document.now.props name.now) older.now) }
{
    match document.props.get(name) {
        Some(values) => are_behind(alloc, documents, sweep, document, values, older),
        None => Ok(are_none(older)),
    }
}

// Whether each of the second entries is before the latest committed one of the first.
fn are_behind<V, W>(
    alloc: Global,
    documents: &ById,
    sweep: &RevVec,
    document: &Document,
    entries: &Keyed<Revision, V>,
    older: &Keyed<Revision, W>,
) -> Result<bool, AllocError>
    ensures { IfOk result (λ b. b
        ≡ are_behind documents.now sweep.now document.now entries.now older.now) }
{
    match latest_committed(alloc, documents, sweep, document, entries)? {
        Some((latest, _)) => Ok(are_before(older, latest)),
        None => Ok(are_none(older)),
    }
}

// Whether there are no entries.
fn are_none<V>(entries: &Keyed<Revision, V>) -> bool
    ensures { result ≡ list_all (λ r. false) (keys_of entries.now) }
{
    entries.len() == 0
}

// Whether each of the entries is before a revision.
fn are_before<V>(entries: &Keyed<Revision, V>, latest: Revision) -> bool
    ensures { result ≡ list_all (λ r. is_before r latest) (keys_of entries.now) }
{
    for (r, _) in entries.iter() {
        if *r >= latest {
            return false;
        }
    }
    true
}

// Whether a previous document is as it is listed, where its node's document is there.
fn is_as_listed(
    documents: &ById,
    number: u64,
    path: &Path,
    previous: &Document,
) -> Result<bool, AllocError>
    ensures { IfOk result (λ is. is ≡ option_map_or (is_as_listed number previous.now)
        (documents_in documents.now (Node path.now)) true) }
{
    let id = DocId::Node(path.copy()?);
    match documents.get(&id) {
        Some(document) => Ok(is_as_listed_in(document.prev.as_slice(), number, previous)),
        None => Ok(true),
    }
}

fn is_as_listed_in(listed: &[PrevEntry], number: u64, previous: &Document) -> bool
    ensures { result
        ≡ list_all (λ e. not (e.number == number) || is_in_listed_range e previous.now)
        listed.now }
{
    listed
        .iter()
        .all(|entry| is_between_if(entry, number, previous))
}

// Whether an entry lists another number, or the document's entries are between its revisions.
fn is_between_if(entry: &PrevEntry, number: u64, previous: &Document) -> bool
    ensures { result
        ≡ (not (entry.now.number == number) || is_in_listed_range entry.now previous.now) }
{
    entry.number != number || is_in_listed_range(entry, previous)
}

fn is_in_listed_range(entry: &PrevEntry, previous: &Document) -> bool
    ensures { result ≡ is_in_listed_range entry.now previous.now }
{
    are_between(entry, &previous.deleted) && are_values_between(entry, &previous.props)
}

fn are_values_between(
    entry: &PrevEntry,
    props: &Keyed<Name, Keyed<Revision, Option<Property>>>,
) -> bool
    ensures { result ≡ list_all (λ r. is_at_most entry.now.low r && is_at_most r entry.now.high)
        (flat_map (λ p. keys_of p.1) props.now) }
{
    for (_, values) in props.iter() {
        if !are_between(entry, values) {
            return false;
        }
    }
    true
}

fn are_between<V>(entry: &PrevEntry, entries: &Keyed<Revision, V>) -> bool
    ensures { result ≡ list_all (λ r. is_at_most entry.now.low r && is_at_most r entry.now.high)
        (keys_of entries.now) }
{
    for (r, _) in entries.iter() {
        if !holds(entry, *r) {
            return false;
        }
    }
    true
}

fn holds(entry: &PrevEntry, r: Revision) -> bool
    ensures { result ≡ (is_at_most entry.now.low r && is_at_most r entry.now.high) }
{
    entry.low <= r && r <= entry.high
}
