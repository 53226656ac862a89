// Copies of documents, of keys of entries, and of what a collection did.
use crate::{Collected, Document, EntryKey, Field, PrevEntry};
use jr_path::DeepCopy;
use std::alloc::AllocError;

impl DeepCopy for PrevEntry {
    fn copy(&self) -> Result<PrevEntry, AllocError> {
        Ok(*self)
    }
}

impl DeepCopy for Document {
    fn copy(&self) -> Result<Document, AllocError> {
        Ok(Document {
            id: self.id.copy()?,
            mod_count: self.mod_count,
            deleted: self.deleted.copy()?,
            commit_root: self.commit_root.copy()?,
            revisions: self.revisions.copy()?,
            collisions: self.collisions.copy()?,
            touched: self.touched.copy()?,
            guard: self.guard.copy()?,
            last_rev: self.last_rev,
            sweep_rev: self.sweep_rev,
            prev: self.prev.copy()?,
            props: self.props.copy()?,
            sessions: self.sessions,
            checkpoints: self.checkpoints.copy()?,
            readers: self.readers.copy()?,
        })
    }
}

impl DeepCopy for Field {
    fn copy(&self) -> Result<Field, AllocError> {
        match self {
            Field::Deleted => Ok(Field::Deleted),
            Field::CommitRoot => Ok(Field::CommitRoot),
            Field::Revisions => Ok(Field::Revisions),
            Field::Collisions => Ok(Field::Collisions),
            Field::Touched => Ok(Field::Touched),
            Field::Guard => Ok(Field::Guard),
            Field::Prop(name) => Ok(Field::Prop(name.copy()?)),
        }
    }
}

impl DeepCopy for EntryKey {
    fn copy(&self) -> Result<EntryKey, AllocError> {
        Ok(EntryKey {
            field: self.field.copy()?,
            revision: self.revision,
        })
    }
}

impl DeepCopy for Collected {
    fn copy(&self) -> Result<Collected, AllocError> {
        Ok(Collected {
            entries: self.entries,
            documents: self.documents,
            skipped: self.skipped.copy()?,
        })
    }
}
