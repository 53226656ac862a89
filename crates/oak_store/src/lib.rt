//! The table of documents (Oak, DocumentNodeStore: the document store): a finite map in store order, with one rising
//! number for the whole store.
#![tactic(auto)]

ghost use Rattle.std.specs.Prelude.{◌≡◌, [], IfOk, None, Some};
ghost use Rattle.std.specs.Option.{option_copied};
ghost use Rattle.oak_store.specs.Tables.{AreStored, Updates, after_removal, after_undo, by_id, found, next_after, removal_of};

use jr_path::{DeepCopy, DocId, Keyed};
use jr_rev::Revision;
use oak_doc::{Document, OpFault, RemoveOut, UpdateOp, apply_op};
use std::alloc::{AllocError, Global};
use std::marker::Model;
use std::ops::Bound;

/// The documents in store order, and the number that was drawn last. Each Ok update and each undo draws the next
/// number of the whole store, up to 2^64 - 1, at which it stays.
pub struct DocTable {
    alloc: Global,
    documents: Keyed<DocId, Document>,
    number: u64,
}

// By hand, so that its parts are let go in one call.
impl Drop for DocTable {
    fn drop(self) {
        let DocTable {
            alloc: _,
            documents,
            number: _,
        } = self;
        drop(documents);
    }
}

impl Model for DocTable {
    ghost use Rattle.oak_store.specs.Tables.{Table};

    ghost Value = { Table };

    ghost view = { λ t. record { documents = t.documents; number = t.number } };
}

impl DocTable {
    /// The empty table, with the number 0. It takes no memory.
    pub fn new(alloc: Global) -> DocTable
        ensures { result ≡ record { documents = []; number = 0 } }
    {
        DocTable {
            alloc,
            documents: Keyed::new(alloc),
            number: 0,
        }
    }

    /// The table of these documents, with the number that was drawn last.
    pub fn of(alloc: Global, documents: Vec<Document>, number: u64) -> Result<DocTable, AllocError>
        requires { AreStored documents.items number }
        ensures { IfOk result (λ table. table ≡ record { documents = by_id documents.items; number = number }) }
    {
        let mut stored = Keyed::new(alloc);
        for document in documents {
            stored.put(document.id.copy()?, document)?;
        }
        Ok(DocTable {
            alloc,
            documents: stored,
            number,
        })
    }

    /// The documents, by their ids.
    pub fn documents(&self) -> &Keyed<DocId, Document>
        ensures { result.now ≡ self.now.documents }
    {
        &self.documents
    }

    /// The document of an id.
    pub fn find(&self, id: &DocId) -> Option<&Document>
        ensures { option_copied result ≡ found self.now id.now }
    {
        self.documents.get(id)
    }

    /// The first document behind an id in store order; of all, where none is named.
    pub fn next_after(&self, id: Option<&DocId>) -> Option<&Document>
        ensures { option_copied result ≡ next_after self.now (option_copied id.entry) }
    {
        match id {
            None => self.first(),
            Some(id) => self.first_behind(id),
        }
    }

    fn first(&self) -> Option<&Document>
        ensures { option_copied result ≡ next_after self.now None }
    {
        match self.documents.inner().first_key_value() {
            Some((_, document)) => Some(document),
            None => None,
        }
    }

    fn first_behind(&self, id: &DocId) -> Option<&Document>
        ensures { option_copied result ≡ next_after self.now (Some id.now) }
    {
        let behind = (Bound::Excluded(id), Bound::Unbounded);
        match self.documents.inner().range(behind).next() {
            Some((_, document)) => Some(document),
            None => None,
        }
    }

    /// One update of one document. Answers the document before; a refusal changes nothing.
    pub fn update(&mut self, op: &UpdateOp) -> Result<Option<Document>, OpFault>
        ensures { Updates self.old self.new op.now result }
    {
        let number = self.number.saturating_add(1);
        let document = apply_op(self.alloc, self.documents.get(&op.id), op, number)?;
        let before = self.documents.inner_mut().insert(op.id.copy()?, document)?;
        self.number = number;
        Ok(before)
    }

    /// Drops the entries of a revision, but those in `_collisions`, from a document, without memory.
    pub fn undo(&mut self, id: &DocId, r: Revision)
        ensures { self.new ≡ after_undo self.old id.now r }
    {
        self.number = self.number.saturating_add(1);
        let number = self.number;
        if let Some(document) = self.documents.inner_mut().get_mut(id) {
            document.undo(r, number);
        }
    }

    /// Removes a document where its `_modCount` is the number and isn't the last one.
    pub fn remove_if(&mut self, id: &DocId, number: u64) -> RemoveOut
        ensures answer { result ≡ removal_of self.old id.now number }
        ensures after { self.new ≡ after_removal self.old id.now result }
    {
        let Some(document) = self.documents.get(id) else {
            return RemoveOut::Absent;
        };
        if document.mod_count != number || number == u64::MAX {
            return RemoveOut::Changed(document.mod_count);
        }
        self.documents.remove(id);
        RemoveOut::Removed
    }
}
