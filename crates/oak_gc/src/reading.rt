// What a collector reads of a document, and where it stands.
ghost use Rattle.std.specs.Prelude.{◌≡◌, ◌++◌, ◌∷◌, [], IfOk, IfSome, None, OnErr, OnOk, Some, map};
ghost use Rattle.std.specs.List.{flat_map, list_any};
ghost use Rattle.std.specs.Option.{option_map};
ghost use Rattle.oak_doc.specs.declared.document.Document.{Document};
ghost use Rattle.oak_doc.specs.declared.asks.Ask.TheVariants as ask;
ghost use Rattle.oak_doc.specs.declared.update.Change.TheVariants as change;
ghost use Rattle.jr_path.specs.declared.path.DocId.TheVariants as id;
ghost use Rattle.oak_gc.specs.Garbage as gc;
ghost use Rattle.oak_gc.specs.Collecting.{decided, found_in, garbage_previous, has_garbage_in, last_of, nothing_read, prune_op, node_reading, with_previous_read};
ghost use Rattle.oak_gc.specs.Noting.{reading_with, unlisting};

use crate::garbage::{garbage_in, is_garbage_document, is_garbage_previous};
use jr_path::{DeepCopy, DocId, Keyed, List, Path};
use jr_rev::Pin;
use oak_doc::{Ask, Change, Cond, Document, EntryKey, PrevEntry, UpdateOp};
use std::alloc::{AllocError, Global};

// A node's document that was read, with its path; its entries that are garbage; of the previous documents that it lists
// the numbers of those that are still to be asked for, and by number those that were found.
pub(crate) struct Reading {
    pub(crate) at: Path,
    pub(crate) document: Document,
    pub(crate) garbage: List<EntryKey>,
    pub(crate) listed: List<u64>,
    pub(crate) previous: Keyed<u64, Document>,
}

// By hand, so that its parts are let go in one call.
impl Drop for Reading {
    fn drop(self) {
        let Reading {
            at,
            document,
            garbage,
            listed,
            previous,
        } = self;
        drop(at);
        drop(document);
        drop(garbage);
        drop(listed);
        drop(previous);
    }
}

// What is due.
#[derive(Clone, Copy)]
pub(crate) enum Step {
    // The root, for the bound.
    Root,
    // A cluster node's head and pins.
    Node(u32),
    // The settings, with which the bound is whole.
    Settings,
    // The first document of all.
    First,
    // The document behind the one that was read last.
    Next,
    // The previous document of a number, which the one that was read lists.
    Listed(u64),
    // The update that drops the garbage of the document.
    Prune,
    // The removal of the document.
    Remove,
    // The removal of the previous document of a number, where it has the `_modCount` read.
    RemovePrevious(u64, u64),
    Done,
}

// The numbers of the previous documents that a document lists.
fn listed_in(alloc: Global, entries: &[PrevEntry]) -> Result<List<u64>, AllocError>
    ensures { IfOk result (λ numbers. numbers ≡ map (λ e. e.number) entries.now) }
{
    let mut numbers = List::new(alloc);
    for entry in entries {
        numbers.push(entry.number)?;
    }
    Ok(numbers)
}

// What is noted of a document that is found: its path, its entries that are garbage, and what it lists.
#[derive(Drop)]
pub(crate) struct Noted {
    pub(crate) at: Path,
    pub(crate) garbage: List<EntryKey>,
    pub(crate) listed: List<u64>,
}

impl Noted {
    // What is noted of a document; None where it is no node's.
    pub(crate) fn of(
        alloc: Global,
        bound: &Pin,
        document: &Document,
    ) -> Result<Option<Noted>, AllocError>
        ensures { IfOk result (λ noted. option_map (reading_with document.now) noted
            ≡ node_reading bound.now document.now.id document.now) }
    {
        match &document.id {
            DocId::Node(at) => Ok(Some(Noted::at(alloc, bound, at, document)?)),
            DocId::Prev(..) | DocId::Settings => Ok(None),
        }
    }

    fn at(alloc: Global, bound: &Pin, at: &Path, document: &Document) -> Result<Noted, AllocError>
        ensures { IfOk result (λ noted. Some (reading_with document.now noted)
            ≡ node_reading bound.now (id.Node at.now) document.now) }
    {
        Ok(Noted {
            at: at.copy()?,
            garbage: garbage_in(alloc, bound, document)?,
            listed: listed_in(alloc, document.prev.as_slice())?,
        })
    }
}

impl Reading {
    // What has been read before any document. It takes no memory.
    pub(crate) fn nothing(alloc: Global) -> Reading
        ensures { result ≡ nothing_read }
    {
        Reading {
            at: Path::root(alloc),
            document: Document::empty(alloc, DocId::Settings),
            garbage: List::new(alloc),
            listed: List::new(alloc),
            previous: Keyed::new(alloc),
        }
    }

    // Keeps a previous document that was found.
    pub(crate) fn note(&mut self, number: u64, found: Option<Document>) -> Result<(), AllocError>
        ensures ok { OnOk result (self.new ≡ with_previous_read self.old number found) }
        ensures err { OnErr result (self.new ≡ self.old) }
    {
        match found {
            Some(document) => self.previous.put(number, document),
            None => Ok(()),
        }
    }

    // Takes the first of the numbers that are left to be asked for, if there is one.
    pub(crate) fn next_listed(&mut self) -> Option<u64>
        ensures none { result ≡ None → (self.old.listed ≡ []) × (self.new ≡ self.old) }
        ensures some { IfSome result (λ n. (self.old.listed ≡ n ∷ self.new.listed)
            × (self.new ≡ record self.old { listed = self.new.listed })) }
    {
        if self.listed.is_empty() {
            return None;
        }
        Some(self.listed.inner_mut().remove(0))
    }

    // Takes the last of the previous documents, if there is one: its number and its `_modCount`.
    pub(crate) fn next_previous(&mut self) -> Option<(u64, u64)>
        ensures none { result ≡ None → (last_of self.old.previous ≡ None) × (self.new ≡ self.old) }
        ensures some { IfSome result (λ found. (d : Document)
            × (last_of self.old.previous ≡ Some ((found.0, d), self.new.previous)) × (d.mod_count ≡ found.1)
            × (self.new ≡ record self.old { previous = self.new.previous })) }
    {
        match self.previous.inner_mut().pop_last() {
            Some((number, document)) => Some((number, document.mod_count)),
            None => None,
        }
    }

    // What becomes of the document.
    pub(crate) fn decided(&self, bound: &Pin) -> Step
        ensures { result ≡ decided bound.now self.now }
    {
        if is_garbage_document(bound, &self.document) {
            return Step::Remove;
        }
        if self.has_garbage(bound) {
            Step::Prune
        } else {
            Step::Next
        }
    }

    // Whether entries of the document may go, or previous documents that it lists.
    fn has_garbage(&self, bound: &Pin) -> bool
        ensures { result ≡ has_garbage_in bound.now self.now }
    {
        self.garbage.len() != 0 || self.has_garbage_among(bound, self.document.prev.as_slice())
    }

    // Whether one of some listed previous documents is garbage.
    fn has_garbage_among(&self, bound: &Pin, entries: &[PrevEntry]) -> bool
        ensures { result ≡ list_any (gc.is_garbage_listed bound.now.base bound.now.sweep
            (found_in self.now.previous) self.now.document) entries.now }
    {
        entries
            .iter()
            .any(|entry| self.is_garbage_listed(bound, entry))
    }

    // Whether a listed previous document that is there is garbage.
    fn is_garbage_listed(&self, bound: &Pin, entry: &PrevEntry) -> bool
        ensures { result ≡ gc.is_garbage_listed bound.now.base bound.now.sweep (found_in self.now.previous)
            self.now.document entry.now }
    {
        match self.previous.get(&entry.number) {
            Some(previous) => is_garbage_previous(bound, &self.document, previous),
            None => false,
        }
    }

    // The update that drops the garbage of the document.
    pub(crate) fn prune_op(&self, alloc: Global, bound: &Pin) -> Result<UpdateOp, AllocError>
        ensures { IfOk result (λ op. op ≡ prune_op bound.now self.now) }
    {
        let mut changes = List::new(alloc);
        changes.push(Change::Prune(self.garbage.copy()?))?;
        self.put_unlisted(bound, &mut changes)?;
        Ok(UpdateOp {
            id: self.document.id.copy()?,
            create: false,
            cond: Some(Cond::Unchanged(self.document.mod_count)),
            changes,
        })
    }

    // Puts the unlisting of each listed previous document of which all is garbage.
    #[tactic(auto, using(crate::proofs::Going::unlisted))]
    fn put_unlisted(&self, bound: &Pin, changes: &mut List<Change>) -> Result<(), AllocError>
        ensures { OnOk result (changes.new ≡ changes.old ++ map change.Unlist
            (gc.garbage_listed bound.now.base bound.now.sweep (found_in self.now.previous) self.now.document)) }
    {
        self.put_unlistings(bound, self.document.prev.as_slice(), changes)
    }

    // Puts the unlisting of each of some previous documents of which all is garbage.
    fn put_unlistings(
        &self,
        bound: &Pin,
        entries: &[PrevEntry],
        changes: &mut List<Change>,
    ) -> Result<(), AllocError>
        ensures { OnOk result (changes.new
            ≡ changes.old ++ flat_map (unlisting bound.now self.now) entries.now) }
    {
        for entry in entries {
            self.put_unlisting(bound, entry, changes)?;
        }
        Ok(())
    }

    // Puts the unlisting of a previous document, where all of it is garbage.
    fn put_unlisting(
        &self,
        bound: &Pin,
        entry: &PrevEntry,
        changes: &mut List<Change>,
    ) -> Result<(), AllocError>
        ensures { OnOk result (changes.new ≡ changes.old ++ unlisting bound.now self.now entry.now) }
    {
        if self.is_garbage_listed(bound, entry) {
            changes.push(Change::Unlist(entry.number))?;
        }
        Ok(())
    }

    // The removal of the document, where it has the number read.
    pub(crate) fn removal(&self) -> Result<Ask, AllocError>
        ensures { IfOk result (λ due. due ≡ ask.RemoveIf self.now.document.id self.now.document.mod_count) }
    {
        Ok(Ask::RemoveIf(self.document.id.copy()?, self.document.mod_count))
    }

    // The removal of a previous document, where it has the number read.
    pub(crate) fn previous_removal(&self, number: u64, read: u64) -> Result<Ask, AllocError>
        ensures { IfOk result (λ due. due ≡ ask.RemoveIf (id.Prev number self.now.at) read) }
    {
        Ok(Ask::RemoveIf(DocId::Prev(number, self.at.copy()?), read))
    }

    // Keeps of the previous documents those of which all is garbage.
    pub(crate) fn keep_garbage(&mut self, bound: &Pin)
        ensures { self.new ≡ record self.old { previous = garbage_previous bound.now self.old } }
    {
        let document = &self.document;
        self.previous.inner_mut().retain(|_, previous| is_garbage_previous(
            bound, document, previous,
        ));
    }
}
