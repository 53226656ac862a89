// What a splitter knows: the document that it read, and the commit roots of its entries.
ghost use Rattle.std.specs.Prelude.{◌≡◌, ◌++◌, ◌&&◌, IfOk, OnOk, map, option_to_list};
ghost use Rattle.std.specs.List.{fold};
ghost use Rattle.std.specs.Option.{option_copied, option_map};
ghost use Rattle.jr_rev.specs.Vectors.{sees};
ghost use Rattle.oak_read.specs.Meaning.{commit_root_of, is_committed, path_of};
ghost use Rattle.oak_prev.specs.Moving.{documents_known, entries_of, entry_of, moved_entries};
ghost use Rattle.oak_prev.specs.Splits as splits;
ghost use Rattle.oak_prev.specs.Splitting.{unread_splitter};
ghost use Rattle.oak_prev.specs.Wanted.{asked_of, is_asked, roots_wanted, with_other_id};

use crate::moving::{Moved, entry_keys, listed_by, put_entries, put_roots, revisions_of};
use jr_path::{DeepCopy, DocId, Keyed, List, Name, Path};
use jr_rev::{Pin, Revision};
use jr_value::Property;
use oak_doc::{Change, Cond, Document, PrevEntry, UpdateOp};
use oak_read::commit_root_of;
use std::alloc::{AllocError, Global};

// The values of a property by revision.
type Values = Keyed<Revision, Option<Property>>;

// The document that was read, and the other commit roots that were found.
pub(crate) struct Reading {
    pub(crate) document: Document,
    pub(crate) roots: Keyed<DocId, Document>,
}

// By hand, so that its parts are let go in one call.
impl Drop for Reading {
    fn drop(self) {
        let Reading { document, roots } = self;
        drop(document);
        drop(roots);
    }
}

// The commit roots of a document's properties that only tell whether their entries are committed, but for the document
// itself.
pub(crate) fn roots_wanted(
    alloc: Global,
    pin: &Pin,
    document: &Document,
) -> Result<Keyed<DocId, ()>, AllocError>
    ensures { IfOk result (λ roots. roots ≡ roots_wanted pin.now document.now) }
{
    let mut roots = Keyed::new(alloc);
    for (_, values) in document.props.iter() {
        add_roots(alloc, pin, document, values, &mut roots)?;
    }
    Ok(roots)
}

// Adds the commit roots of a property; where it has one entry, nothing of it moves.
fn add_roots(
    alloc: Global,
    pin: &Pin,
    document: &Document,
    values: &Values,
    roots: &mut Keyed<DocId, ()>,
) -> Result<(), AllocError>
    ensures { OnOk result (roots.new ≡ fold (with_other_id document.now) roots.old
        (map (commit_root_of document.now) (asked_of pin.now values.now))) }
{
    if values.len() <= 1 {
        return Ok(());
    }
    for (r, _) in values.iter() {
        if is_asked(pin, *r) {
            add_root(document, commit_root_of(alloc, document, *r)?, roots)?;
        }
    }
    Ok(())
}

// Adds an id, but for that of the document itself.
fn add_root(document: &Document, id: DocId, roots: &mut Keyed<DocId, ()>) -> Result<(), AllocError>
    ensures { OnOk result (roots.new ≡ with_other_id document.now roots.old id) }
{
    if id == document.id {
        return Ok(());
    }
    roots.put(id, ())
}

// Whether only the commit root tells if an entry of the revision counts.
fn is_asked(pin: &Pin, r: Revision) -> bool
    ensures { result ≡ is_asked pin.now r }
{
    pin.base.sees(r) && !pin.sweep.sees(r)
}

// The path of the node whose document it is.
fn path_of(alloc: Global, id: &DocId) -> Result<Path, AllocError>
    ensures { IfOk result (λ path. path ≡ path_of id.now) }
{
    match id {
        DocId::Node(path) | DocId::Prev(_, path) => path.copy(),
        DocId::Settings => Ok(Path::root(alloc)),
    }
}

impl Reading {
    // What is known before the document is read. It takes no memory.
    pub(crate) fn nothing(alloc: Global) -> Reading
        ensures { result ≡ unread_splitter }
    {
        Reading {
            document: Document::empty(alloc, DocId::Settings),
            roots: Keyed::new(alloc),
        }
    }

    // How the previous document is listed, where something moves, and how many entries move.
    pub(crate) fn listed_as(
        &self,
        alloc: Global,
        pin: &Pin,
    ) -> Result<Option<(PrevEntry, u64)>, AllocError>
        ensures { IfOk result (λ listed. listed ≡ option_map
            (λ e. (e, splits.moved_count (documents_known self.now.document self.now.roots) pin.now self.now.document))
            (splits.listed_as (documents_known self.now.document self.now.roots) pin.now self.now.document)) }
    {
        let moved = self.moved(alloc, pin)?;
        let entries = moved.as_slice();
        let revisions = revisions_of(alloc, entries)?;
        match listed_by(self.document.mod_count, &revisions) {
            Some(entry) => Ok(Some((entry, entries.len() as u64))),
            None => Ok(None),
        }
    }

    // The previous document is written, where there is none of its id.
    pub(crate) fn previous_write(&self, alloc: Global, pin: &Pin) -> Result<UpdateOp, AllocError>
        ensures { IfOk result (λ op. op ≡ splits.previous_write
            (documents_known self.now.document self.now.roots) pin.now self.now.document) }
    {
        let moved = self.moved(alloc, pin)?;
        let revisions = revisions_of(alloc, moved.as_slice())?;
        let mut changes = List::new(alloc);
        put_roots(&mut changes, &revisions, &self.document.commit_root)?;
        put_entries(&mut changes, moved.as_slice())?;
        let path = path_of(alloc, &self.document.id)?;
        Ok(UpdateOp {
            id: DocId::Prev(self.document.mod_count, path),
            create: true,
            cond: Some(Cond::Missing),
            changes,
        })
    }

    // What moved is taken out of the document and the previous document listed, where it has the number read.
    pub(crate) fn main_write(
        &self,
        alloc: Global,
        pin: &Pin,
        entry: PrevEntry,
    ) -> Result<UpdateOp, AllocError>
        ensures { IfOk result (λ op. op ≡ splits.main_write
            (documents_known self.now.document self.now.roots) pin.now self.now.document entry) }
    {
        let moved = self.moved(alloc, pin)?;
        let mut changes = List::new(alloc);
        changes.push(Change::Prune(entry_keys(alloc, moved.as_slice())?))?;
        changes.push(Change::List(entry))?;
        Ok(UpdateOp {
            id: self.document.id.copy()?,
            create: false,
            cond: Some(Cond::Unchanged(self.document.mod_count)),
            changes,
        })
    }

    // The entries that move.
    fn moved(&self, alloc: Global, pin: &Pin) -> Result<Vec<Moved<'_>>, AllocError>
        ensures { IfOk result (λ moved. map entry_of moved.items ≡ moved_entries
            (documents_known self.now.document self.now.roots) pin.now self.now.document) }
    {
        let mut moved = Vec::new(alloc);
        for (name, values) in self.document.props.iter() {
            self.put_older(alloc, pin, name, values, &mut moved)?;
        }
        Ok(moved)
    }

    // Puts the committed values of a property that the base sees, but the latest of them.
    fn put_older<'a>(
        &'a self,
        alloc: Global,
        pin: &Pin,
        name: &'a Name,
        values: &'a Values,
        moved: &mut Vec<Moved<'a>>,
    ) -> Result<(), AllocError>
        ensures { OnOk result (map entry_of moved.new.items ≡ map entry_of moved.old.items
            ++ entries_of name.now (splits.older_values (documents_known self.now.document self.now.roots)
            pin.now self.now.document values.now)) }
    {
        let mut latest: Option<Moved<'a>> = None;
        for (r, value) in values.iter() {
            if self.counts(alloc, pin, *r)? {
                put_entry(moved, latest)?;
                latest = Some(Moved {
                    name,
                    revision: *r,
                    value,
                });
            }
        }
        Ok(())
    }

    // Whether the base sees the revision, and it is committed as it stands in the document.
    fn counts(&self, alloc: Global, pin: &Pin, r: Revision) -> Result<bool, AllocError>
        ensures { IfOk result (λ counting. counting ≡ (sees pin.now.base r
            && is_committed (documents_known self.now.document self.now.roots) pin.now.sweep self.now.document r)) }
    {
        if !pin.base.sees(r) {
            return Ok(false);
        }
        if pin.sweep.sees(r) {
            return Ok(true);
        }
        let root = commit_root_of(alloc, &self.document, r)?;
        match self.root(&root) {
            Some(root) => Ok(root.revisions.contains(&r)),
            None => Ok(false),
        }
    }

    // A commit root that is known.
    fn root(&self, id: &DocId) -> Option<&Document>
        ensures { option_copied result ≡ documents_known self.now.document self.now.roots id.now }
    {
        if *id == self.document.id {
            return Some(&self.document);
        }
        self.roots.get(id)
    }
}

// Puts an entry, if there is one.
fn put_entry<'a>(moved: &mut Vec<Moved<'a>>, entry: Option<Moved<'a>>) -> Result<(), AllocError>
    ensures { OnOk result (map entry_of moved.new.items
        ≡ map entry_of moved.old.items ++ map entry_of (option_to_list entry.entry)) }
{
    if let Some(entry) = entry {
        moved.push(entry)?;
    }
    Ok(())
}
