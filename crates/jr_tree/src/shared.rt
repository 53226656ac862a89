// Plain data that several crates share.
ghost use Rattle.std.specs.Prelude.{◌≡◌, []};

use jr_path::{DeepCopy, Item, List, Name, Path, Text};
use jr_rev::{RevVec, Revision};
use jr_value::Kind;
use std::alloc::{AllocError, Global};

/// Who runs a command: the number of the session, how many sessions there were before this run, how many
/// identifiers the session has made, and the vector that its tree is read at.
#[derive(Clone, Copy, PartialEq, Eq)]
pub struct Who {
    pub session: u32,
    pub earlier: u32,
    pub ids: u32,
    pub base: RevVec,
}

/// Why a command is refused: the number of the refusal, 1 to 16, and what its reply names.
pub struct Refusal {
    pub number: u8,
    pub parts: List<Datum>,
}

// By hand, so that its parts are let go in one call.
impl Drop for Refusal {
    fn drop(self) {
        let Refusal { number: _, parts } = self;
        drop(parts);
    }
}

/// A thing that the reply of a refusal names. Null stands where there is none.
pub enum Datum {
    Path(Path),
    Item(Item),
    Name(Name),
    Text(Text),
    Number(u64),
    Kind(Kind),
    Revision(Revision),
    Null,
}

// By hand, so that its parts are let go in one call.
impl Drop for Datum {
    fn drop(self) {
        match self {
            Datum::Path(path) => drop(path),
            Datum::Item(item) => drop(item),
            Datum::Name(name) => drop(name),
            Datum::Text(text) => drop(text),
            Datum::Number(_) => {}
            Datum::Kind(_) => {}
            Datum::Revision(_) => {}
            Datum::Null => {}
        }
    }
}

/// An item that a commit wrote: whether it was there before, and whether it is after.
pub struct ItemChange {
    pub item: Item,
    pub before: bool,
    pub after: bool,
}

// By hand, so that its parts are let go in one call.
impl Drop for ItemChange {
    fn drop(self) {
        let ItemChange {
            item,
            before: _,
            after: _,
        } = self;
        drop(item);
    }
}

/// The items that the commit of this revision wrote.
pub struct CommitChanges {
    pub revision: Revision,
    pub changes: List<ItemChange>,
}

// By hand, so that its parts are let go in one call.
impl Drop for CommitChanges {
    fn drop(self) {
        let CommitChanges {
            revision: _,
            changes,
        } = self;
        drop(changes);
    }
}

impl Refusal {
    /// Memory was refused: number 16, which names nothing. It takes no memory.
    pub fn memory(alloc: Global) -> Refusal
        ensures number { result.number ≡ 16 }
        ensures parts { result.parts ≡ [] }
    {
        Refusal {
            number: 16,
            parts: List::new(alloc),
        }
    }
}

impl DeepCopy for Refusal {
    fn copy(&self) -> Result<Refusal, AllocError> {
        Ok(Refusal {
            number: self.number,
            parts: self.parts.copy()?,
        })
    }
}

impl DeepCopy for Datum {
    fn copy(&self) -> Result<Datum, AllocError> {
        match self {
            Datum::Path(path) => Ok(Datum::Path(path.copy()?)),
            Datum::Item(item) => Ok(Datum::Item(item.copy()?)),
            Datum::Name(name) => Ok(Datum::Name(name.copy()?)),
            Datum::Text(text) => Ok(Datum::Text(text.copy()?)),
            Datum::Number(number) => Ok(Datum::Number(*number)),
            Datum::Kind(kind) => Ok(Datum::Kind(*kind)),
            Datum::Revision(revision) => Ok(Datum::Revision(*revision)),
            Datum::Null => Ok(Datum::Null),
        }
    }
}

impl DeepCopy for ItemChange {
    fn copy(&self) -> Result<ItemChange, AllocError> {
        Ok(ItemChange {
            item: self.item.copy()?,
            before: self.before,
            after: self.after,
        })
    }
}

impl DeepCopy for CommitChanges {
    fn copy(&self) -> Result<CommitChanges, AllocError> {
        Ok(CommitChanges {
            revision: self.revision,
            changes: self.changes.copy()?,
        })
    }
}
