// A vector, seen as the list of its items.
ghost use Rattle.std.specs.Prelude.{◌≡◌, ◌↔◌, [], ◌∷◌, ◌++◌, IfOk, IsTrue, OnOk, OnErr, length};
ghost use Rattle.std.specs.Borrow.{sem};
ghost use Rattle.jr_list.specs.Lending.{lends_items};

use crate::DeepCopy;
use std::alloc::{AllocError, Global};
use std::cmp::Ordering;
use std::marker::Model;

/// A list of items, over a vector.
pub struct List<T> {
    items: Vec<T>,
}

// By hand, so that its parts are let go in one call.
impl<T: Drop> Drop for List<T> {
    fn drop(self) {
        let List { items } = self;
        drop(items);
    }
}

impl<T> Model for List<T> {
    ghost use Rattle.std.specs.Prelude.{List as Seq};

    ghost Value = { Seq T };

    ghost view = { λ l. l.items.items };
}

impl<T> List<T> {
    /// The empty list. It takes no memory.
    pub fn new(alloc: Global) -> Self
        ensures { result ≡ [] }
    {
        List {
            items: Vec::new(alloc),
        }
    }

    /// Takes over a vector, without memory.
    pub fn of(items: Vec<T>) -> Self
        ensures { result ≡ items.items }
    {
        List { items }
    }

    pub fn inner(&self) -> &Vec<T>
        ensures { result.now.items ≡ self.now }
    {
        &self.items
    }

    /// What is left in the vector that is lent is what this list then has.
    pub fn inner_mut(&mut self) -> &mut Vec<T>
        ensures* writes_back { sem 𝓛 (lends_items T.row self.entry result) }
        ensures shows { result.now.items ≡ self.old }
    {
        &mut self.items
    }

    /// Gives the vector back, without memory.
    pub fn into_inner(self) -> Vec<T>
        ensures { result.items ≡ self }
    {
        let List { items } = self;
        items
    }

    pub fn as_slice(&self) -> &[T]
        ensures { result.now ≡ self.now }
    {
        self.items.as_slice()
    }

    pub fn len(&self) -> usize
        ensures { result ≡ length self.now }
    {
        self.items.len()
    }

    pub fn is_empty(&self) -> bool
        ensures { IsTrue result ↔ (self.now ≡ []) }
    {
        self.items.is_empty()
    }
}

impl<T: Drop> List<T> {
    /// Puts an item at the end.
    pub fn push(&mut self, item: T) -> Result<(), AllocError>
        ensures ok { OnOk result (self.new ≡ self.old ++ item ∷ []) }
        ensures err { OnErr result (self.new ≡ self.old) }
    {
        self.items.push(item)?;
        Ok(())
    }
}

impl<T: DeepCopy + Drop> DeepCopy for List<T> {
    fn copy(&self) -> Result<List<T>, AllocError> {
        let mut items = Vec::new(*self.items.allocator());
        for item in &self.items {
            items.push(item.copy()?)?;
        }
        Ok(List { items })
    }
}

impl<T: PartialEq> PartialEq for List<T> {
    ghost use Rattle.std.specs.Cmp.Lexicographic.{pointwise};
    ghost use Rattle.std.specs.Cmp.Rules.{comparing};
    ghost use Rattle.std.proofs.Common.{rules};

    ghost eq = { pointwise T.eq };

    ghost laws = { Prim.search (comparing, rules) };

    fn eq(&self, other: &List<T>) -> bool {
        self.items == other.items
    }
}

impl<T: Eq> Eq for List<T> {
    ghost use Rattle.std.specs.Cmp.Rules.{comparing};
    ghost use Rattle.std.proofs.Common.{rules};

    ghost laws = { Prim.search (comparing, rules) };
}

impl<T: Ord> Ord for List<T> {
    ghost use Rattle.std.specs.Prelude.{refl};
    ghost use Rattle.std.specs.Cmp.Lexicographic.{slice_cmp, lists_total, lists_ties};

    ghost cmp = { slice_cmp T.cmp };

    ghost total = { lists_total T.total };

    ghost matches_partial_cmp = { λ x y. refl };

    ghost matches_eq = { lists_ties T.cmp T.matches_eq };

    fn cmp(&self, other: &List<T>) -> Ordering {
        self.items.cmp(&other.items)
    }
}

impl<T: Ord> PartialOrd for List<T> {
    ghost use Rattle.std.specs.Ordering.{as_partial_cmp};
    ghost use Rattle.std.specs.Cmp.{po};
    ghost use Rattle.std.specs.Cmp.Lexicographic.{slice_cmp, lists_total, lists_ties};

    ghost partial_cmp = { as_partial_cmp (slice_cmp T.cmp) };

    ghost laws = { po (lists_total T.total) (lists_ties T.cmp T.matches_eq) };

    fn partial_cmp(&self, other: &List<T>) -> Option<Ordering> {
        Some(self.cmp(other))
    }
}
