// Which documents are read beside that of a node: the previous documents that it lists, and the commit
// roots of their entries.
ghost use Rattle.std.specs.Prelude.{◌≡◌, ◌&&◌, IfOk, OnOk, fold, is_some, map, not, unwrap_or};
ghost use Rattle.std.specs.List.{flat_map};
ghost use Rattle.std.specs.Map.{keys_of};
ghost use Rattle.std.specs.Map.Iter.{deref};
ghost use Rattle.jr_path.specs.declared.path.DocId.TheVariants.{Prev};
ghost use Rattle.jr_rev.specs.Vectors.{sees};
ghost use Rattle.oak_read.specs.Meaning.{documents_in};
ghost use Rattle.oak_read.specs.Shown.{with_previous};
ghost use Rattle.oak_read.specs.Wanted.{asked_roots, left_of, previous_wanted, property_roots, roots_of, roots_wanted, with_unknown};

use crate::committed::commit_root_of;
use crate::node::{documents_at, node_document};
use jr_path::{DeepCopy, DocId, Keyed, Path};
use jr_rev::{Pin, Revision};
use oak_doc::{Document, PrevEntry};
use std::alloc::{AllocError, Global};

/// The documents that are still to be read, in store order; there is one at least.
#[derive(Drop)]
pub struct Left {
    pub first: DocId,
    pub rest: Keyed<DocId, ()>,
}

impl Left {
    /// These documents, if there is one.
    pub fn of(ids: Keyed<DocId, ()>) -> Option<Left>
        ensures { result ≡ left_of ids }
    {
        let mut rest = ids;
        match rest.inner_mut().pop_first() {
            Some((first, _)) => Some(Left { first, rest }),
            None => None,
        }
    }

    /// Goes on to the second document, if there is one.
    pub fn go_on(&mut self) -> bool
        ensures goes { result ≡ is_some (left_of self.old.rest) }
        ensures left { self.new ≡ unwrap_or (left_of self.old.rest) self.old }
    {
        match self.rest.inner_mut().pop_first() {
            Some((first, _)) => {
                self.first = first;
                true
            }
            None => false,
        }
    }
}

/// The previous documents of a path that its document lists, but those that are known.
pub fn previous_wanted(
    alloc: Global,
    known: &Keyed<DocId, Document>,
    path: &Path,
) -> Result<Keyed<DocId, ()>, AllocError>
    ensures { IfOk result (λ wanted. wanted ≡ previous_wanted known.now path.now) }
{
    let mut wanted = Keyed::new(alloc);
    if let Some(document) = node_document(known, path)? {
        add_listed(known, path, document.prev.as_slice(), &mut wanted)?;
    }
    Ok(wanted)
}

// Adds listed previous documents of a path.
fn add_listed(
    known: &Keyed<DocId, Document>,
    path: &Path,
    entries: &[PrevEntry],
    wanted: &mut Keyed<DocId, ()>,
) -> Result<(), AllocError>
    ensures { OnOk result (wanted.new ≡ fold (with_unknown known.now) wanted.old
        (map (λ e. Prev e.number path.now) entries.now)) }
{
    for entry in entries {
        add_unknown(known, DocId::Prev(entry.number, path.copy()?), wanted)?;
    }
    Ok(())
}

/// The commit roots that are asked for entries of the document of a path and of the previous documents
/// that it lists, but those that are known.
pub fn roots_wanted(
    alloc: Global,
    known: &Keyed<DocId, Document>,
    pin: &Pin,
    whole: bool,
    path: &Path,
) -> Result<Keyed<DocId, ()>, AllocError>
    ensures { IfOk result (λ wanted. wanted
        ≡ roots_wanted pin.now.sweep pin.now.base known.now whole path.now) }
{
    let mut wanted = Keyed::new(alloc);
    if let Some(document) = node_document(known, path)? {
        add_roots_at(alloc, known, pin, whole, path, document, &mut wanted)?;
    }
    Ok(wanted)
}

// Adds the commit roots that are asked for the document of a path and the previous documents that it lists.
fn add_roots_at(
    alloc: Global,
    known: &Keyed<DocId, Document>,
    pin: &Pin,
    whole: bool,
    path: &Path,
    document: &Document,
    wanted: &mut Keyed<DocId, ()>,
) -> Result<(), AllocError>
    ensures { OnOk result (wanted.new ≡ fold (with_unknown known.now) wanted.old
        (flat_map (roots_of pin.now.sweep pin.now.base whole)
        (with_previous (documents_in known.now) path.now document.now))) }
{
    let all = documents_at(alloc, known, path, document)?;
    add_roots_of_all(alloc, known, pin, whole, &all, wanted)
}

// Adds the commit roots that are asked for some documents.
fn add_roots_of_all(
    alloc: Global,
    known: &Keyed<DocId, Document>,
    pin: &Pin,
    whole: bool,
    all: &[&Document],
    wanted: &mut Keyed<DocId, ()>,
) -> Result<(), AllocError>
    ensures { OnOk result (wanted.new ≡ fold (with_unknown known.now) wanted.old
        (flat_map (roots_of pin.now.sweep pin.now.base whole) (map deref all.now))) }
{
    for document in all {
        add_roots_of(alloc, known, pin, whole, document, wanted)?;
    }
    Ok(())
}

// Adds the commit roots that are asked for a document's `_deleted`, and for its properties where the node
// is wanted whole.
fn add_roots_of(
    alloc: Global,
    known: &Keyed<DocId, Document>,
    pin: &Pin,
    whole: bool,
    document: &Document,
    wanted: &mut Keyed<DocId, ()>,
) -> Result<(), AllocError>
    ensures { OnOk result (wanted.new ≡ fold (with_unknown known.now) wanted.old
        (roots_of pin.now.sweep pin.now.base whole document.now)) }
{
    add_roots(alloc, known, pin, document, &document.deleted, wanted)?;
    if whole {
        add_roots_of_properties(alloc, known, pin, document, wanted)?;
    }
    Ok(())
}

// Adds the commit roots that are asked for the properties of a document.
fn add_roots_of_properties(
    alloc: Global,
    known: &Keyed<DocId, Document>,
    pin: &Pin,
    document: &Document,
    wanted: &mut Keyed<DocId, ()>,
) -> Result<(), AllocError>
    ensures { OnOk result (wanted.new ≡ fold (with_unknown known.now) wanted.old
        (property_roots pin.now.sweep pin.now.base document.now document.now.props)) }
{
    for (_, values) in document.props.iter() {
        add_roots(alloc, known, pin, document, values, wanted)?;
    }
    Ok(())
}

// Adds the commit roots that are asked for some entries of a document.
fn add_roots<V>(
    alloc: Global,
    known: &Keyed<DocId, Document>,
    pin: &Pin,
    document: &Document,
    entries: &Keyed<Revision, V>,
    wanted: &mut Keyed<DocId, ()>,
) -> Result<(), AllocError>
    ensures { OnOk result (wanted.new ≡ fold (with_unknown known.now) wanted.old
        (asked_roots pin.now.sweep pin.now.base document.now (keys_of entries.now))) }
{
    for (r, _) in entries.iter() {
        if is_asked(pin, *r) {
            let root = commit_root_of(alloc, document, *r)?;
            add_unknown(known, root, wanted)?;
        }
    }
    Ok(())
}

// Whether only the commit root tells if an entry of the revision counts.
fn is_asked(pin: &Pin, r: Revision) -> bool
    ensures { result ≡ (sees pin.now.base r && not (sees pin.now.sweep r)) }
{
    pin.base.sees(r) && !pin.sweep.sees(r)
}

// Adds an id, where its document isn't known.
fn add_unknown(
    known: &Keyed<DocId, Document>,
    id: DocId,
    wanted: &mut Keyed<DocId, ()>,
) -> Result<(), AllocError>
    ensures { OnOk result (wanted.new ≡ with_unknown known.now wanted.old id) }
{
    if !known.contains(&id) {
        wanted.put(id, ())?;
    }
    Ok(())
}
