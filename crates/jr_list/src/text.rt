// A string, seen as its bytes.
ghost use Rattle.std.specs.Prelude.{◌≡◌, ◌↔◌, ◌++◌, [], IfOk, IsTrue, OnErr, OnOk, length};
ghost use Rattle.std.specs.String.{string_bytes};
ghost use Rattle.std.specs.Borrow.{sem};
ghost use Rattle.jr_list.specs.Lending.{lends_text};

use crate::DeepCopy;
use std::alloc::{AllocError, Global};
use std::cmp::Ordering;
use std::marker::Model;

/// A text in UTF-8, over a string; ordered by its bytes.
pub struct Text {
    string: String,
}

// By hand, so that its parts are let go in one call.
impl Drop for Text {
    fn drop(self) {
        let Text { string } = self;
        drop(string);
    }
}

impl Model for Text {
    ghost use Rattle.std.specs.Prelude.{List as Seq, ℕ};
    ghost use Rattle.std.specs.String.{string_bytes};

    ghost Value = { Seq ℕ };

    ghost view = { λ t. string_bytes t.string };
}

impl Text {
    /// The empty text. It takes no memory.
    pub fn new(alloc: Global) -> Self
        ensures { result ≡ [] }
    {
        Text {
            string: String::new(alloc),
        }
    }

    /// A text with the bytes of another.
    pub fn copy_of(alloc: Global, text: &str) -> Result<Text, AllocError>
        ensures { IfOk result (λ copy. copy ≡ text.now) }
    {
        Ok(Text {
            string: String::from_str(alloc, text)?,
        })
    }

    /// Takes over a string, without memory.
    pub fn of(string: String) -> Self
        ensures { result ≡ string_bytes string }
    {
        Text { string }
    }

    pub fn inner(&self) -> &String
        ensures { string_bytes result.now ≡ self.now }
    {
        &self.string
    }

    pub fn as_str(&self) -> &str
        ensures { result.now ≡ self.now }
    {
        self.string.as_str()
    }

    /// What is left in the string that is lent is what this text then has.
    pub fn inner_mut(&mut self) -> &mut String
        ensures* writes_back { sem 𝓛 (lends_text self.entry result) }
        ensures shows { string_bytes result.now ≡ self.old }
    {
        &mut self.string
    }

    /// Gives the string back, without memory.
    pub fn into_inner(self) -> String
        ensures { string_bytes result ≡ self }
    {
        let Text { string } = self;
        string
    }

    /// How many bytes it has.
    pub fn len(&self) -> usize
        ensures { result ≡ length self.now }
    {
        self.string.len()
    }

    pub fn is_empty(&self) -> bool
        ensures { IsTrue result ↔ (self.now ≡ []) }
    {
        self.string.is_empty()
    }

    /// Puts a text at the end.
    pub fn push_str(&mut self, text: &str) -> Result<(), AllocError>
        ensures ok { OnOk result (self.new ≡ self.old ++ text.now) }
        ensures err { OnErr result (self.new ≡ self.old) }
    {
        self.string.push_str(text)?;
        Ok(())
    }
}

impl DeepCopy for Text {
    fn copy(&self) -> Result<Text, AllocError> {
        let string = String::from_str(*self.string.allocator(), self.string.as_str())?;
        Ok(Text { string })
    }
}

impl PartialEq for Text {
    ghost use Rattle.std.specs.Cmp.Lexicographic.{slice_cmp};
    ghost use Rattle.std.specs.Cmp.Rules.{comparing};
    ghost use Rattle.std.specs.Ordering.{eq_by_cmp, nat_cmp};
    ghost use Rattle.std.proofs.Common.{rules};

    ghost eq = { eq_by_cmp (slice_cmp nat_cmp) };

    ghost laws = { Prim.search (comparing, rules) };

    fn eq(&self, other: &Text) -> bool {
        self.cmp(other).is_eq()
    }
}

impl Eq for Text {
    ghost use Rattle.std.specs.Cmp.Rules.{comparing};
    ghost use Rattle.std.proofs.Common.{rules};

    ghost laws = { Prim.search (comparing, rules) };
}

impl Ord for Text {
    ghost use Rattle.std.specs.Ordering.{nat_cmp};
    ghost use Rattle.std.specs.Cmp.Lexicographic.{slice_cmp};
    ghost use Rattle.std.specs.Cmp.Rules.{comparing};
    ghost use Rattle.std.proofs.Common.{rules};

    ghost cmp = { slice_cmp nat_cmp };

    ghost total = { Prim.search (comparing, rules) };

    ghost matches_partial_cmp = { Prim.search (comparing, rules) };

    ghost matches_eq = { Prim.search (comparing, rules) };

    fn cmp(&self, other: &Text) -> Ordering {
        self.as_str().cmp(other.as_str())
    }
}

impl PartialOrd for Text {
    ghost use Rattle.std.specs.Ordering.{nat_cmp, as_partial_cmp};
    ghost use Rattle.std.specs.Cmp.{partial_order_from_own_ties};
    ghost use Rattle.std.specs.Cmp.Lexicographic.{slice_cmp};
    ghost use Rattle.std.specs.Cmp.Rules.{comparing};
    ghost use Rattle.std.proofs.Common.{rules};

    ghost partial_cmp = { as_partial_cmp (slice_cmp nat_cmp) };

    ghost laws = { partial_order_from_own_ties (Prim.search (comparing, rules)) (Prim.search (comparing, rules)) };

    fn partial_cmp(&self, other: &Text) -> Option<Ordering> {
        Some(self.cmp(other))
    }
}
