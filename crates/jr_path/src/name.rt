// A name, seen as its bytes.
ghost use Rattle.std.specs.Prelude.{◌≡◌, ◌≤◌, ◌⊎◌, ◌↔◌, IfErr, IfOk, IsTrue, OnOk, MatchResult, codes};
ghost use Rattle.jr_path.specs.Grammar.{IsFirstFault, IsName, RefusesName, is_plain, is_prefix_character};
ghost use Rattle.jr_path.specs.Stages.{missing, stage_after, step_of};

use crate::{DeepCopy, PathFault};
use std::alloc::{AllocError, Global};
use std::cmp::Ordering;
use std::marker::Model;

/// The most bytes that a name has.
pub const MAX_NAME_BYTES: usize = 255;

/// The name of a node or a property (JSR 283, 3.2 Names), ordered by its bytes.
pub struct Name {
    text: String,
}

// By hand, so that its parts are let go in one call.
impl Drop for Name {
    fn drop(self) {
        let Name { text } = self;
        drop(text);
    }
}

impl Model for Name {
    ghost use Rattle.std.specs.Prelude.{List, ℕ};
    ghost use Rattle.std.specs.String.{string_bytes};

    ghost Value = { List ℕ };

    ghost view = { λ a. string_bytes a.text };

    ghost use Rattle.jr_path.specs.Grammar.{IsName};

    ghost invariant = { λ a. IsName (string_bytes a.text) };
}

impl Name {
    /// Reads a name: 1 to 255 bytes; at most one `:`, behind a prefix of ASCII letters, digits, `_`, `-`
    /// and `.`; none of `/ [ ] | *` and no control character; no space at either end; not `.` or `..`.
    /// `BadName` has the offset of the first byte that no name has there, or the text's length.
    pub fn parse(alloc: Global, text: &str) -> Result<Name, PathFault>
        ensures bytes { IfOk result (λ name. name ≡ text.now) }
        ensures grammar { OnOk result (IsName text.now) }
        ensures fault { IfErr result (RefusesName text.now) }
    {
        match check_name(text) {
            Ok(()) => Ok(Name::of(alloc, text)?),
            Err(offset) => Err(PathFault::BadName(offset)),
        }
    }

    /// The name of a text in the grammar of names, as `jcr:system`.
    pub fn of(alloc: Global, text: &str) -> Result<Name, AllocError>
        requires { IsName text.now }
        ensures { IfOk result (λ name. name ≡ text.now) }
    {
        Ok(Name {
            text: String::from_str(alloc, text)?,
        })
    }

    /// Every name is in the grammar. It does nothing: callers learn the fact.
    pub fn in_grammar(&self)
        ensures { IsName self.now }
    {
        let _ = &self.text;
    }

    /// The text of the name.
    pub fn as_str(&self) -> &str
        ensures { result.now ≡ self.now }
    {
        self.text.as_str()
    }
}

// How far the characters of a name are read.
#[derive(Clone, Copy)]
enum Stage {
    // Not at all.
    Start,
    // One or more characters of a prefix.
    Prefix,
    // A name in which no colon may follow.
    Whole,
    // A space or the colon is last, so more must follow.
    Open,
}

impl Stage {
    // The stage behind one more character, if a name can have it there.
    fn after(self, c: char) -> Option<Stage>
        ensures { result ≡ stage_after self c }
    {
        if c == ':' {
            return match self {
                Stage::Prefix => Some(Stage::Open),
                _ => None,
            };
        }
        if c == ' ' {
            return match self {
                Stage::Start => None,
                _ => Some(Stage::Open),
            };
        }
        if !is_plain(c) {
            return None;
        }
        if !is_prefix_character(c) {
            return Some(Stage::Whole);
        }
        match self {
            Stage::Start => Some(Stage::Prefix),
            Stage::Prefix => Some(Stage::Prefix),
            _ => Some(Stage::Whole),
        }
    }

    // How many bytes must still follow at least.
    fn missing(self) -> usize
        ensures { result ≡ missing self }
    {
        match self {
            Stage::Start => 1,
            Stage::Prefix => 0,
            Stage::Whole => 0,
            Stage::Open => 1,
        }
    }

    // The stage behind the character at an offset, or where the first fault is.
    fn read(self, offset: usize, c: char) -> Result<Stage, usize>
        requires { offset ≤ 255 }
        ensures { result ≡ step_of self offset c }
    {
        let end = offset + c.len_utf8();
        let Some(next) = self.after(c) else {
            // A character of more than one byte begins as others do that may stand here.
            return Err(if (c as u32) < 128 {
                offset
            } else if end <= MAX_NAME_BYTES {
                offset + 1
            } else {
                offset
            });
        };
        if end + next.missing() <= MAX_NAME_BYTES {
            Ok(next)
        } else {
            Err(offset)
        }
    }
}

// Whether a name may have the character elsewhere than between its prefix and the rest.
fn is_plain(c: char) -> bool
    ensures { result ≡ is_plain c }
{
    !c.is_control() && !matches!(c, '/' | ':' | '[' | ']' | '|' | '*')
}

// Whether a prefix may have the character.
fn is_prefix_character(c: char) -> bool
    ensures { result ≡ is_prefix_character c }
{
    c.is_ascii_alphanumeric() || matches!(c, '_' | '-' | '.')
}

// Whether the text is a name; else where its first fault is.
pub(crate) fn check_name(text: &str) -> Result<(), usize>
    ensures { MatchResult result (λ _. IsName text.now) (IsFirstFault IsName text.now) }
{
    let mut stage = Stage::Start;
    for (offset, c) in text.char_indices() {
        stage = stage.read(offset, c)?;
    }
    if stage.missing() > 0 {
        return Err(text.len());
    }
    if is_dots(text) {
        return Err(text.len());
    }
    Ok(())
}

// Whether the text is one of the two that stand for a node itself and the one above it.
fn is_dots(text: &str) -> bool
    ensures { IsTrue result ↔ ((text.now ≡ codes ".") ⊎ (text.now ≡ codes "..")) }
{
    text == "." || text == ".."
}

impl DeepCopy for Name {
    fn copy(&self) -> Result<Name, AllocError> {
        Ok(Name {
            text: self.text.clone()?,
        })
    }
}

impl PartialEq for Name {
    ghost use Rattle.std.specs.Cmp.Lexicographic.{slice_cmp};
    ghost use Rattle.std.specs.Cmp.Rules.{comparing};
    ghost use Rattle.std.specs.Ordering.{eq_by_cmp, nat_cmp};
    ghost use Rattle.std.proofs.Common.{rules};

    ghost eq = { eq_by_cmp (slice_cmp nat_cmp) };

    ghost laws = { Prim.search (comparing, rules) };

    fn eq(&self, other: &Name) -> bool {
        self.cmp(other).is_eq()
    }
}

impl Eq for Name {
    ghost use Rattle.std.specs.Cmp.Rules.{comparing};
    ghost use Rattle.std.proofs.Common.{rules};

    ghost laws = { Prim.search (comparing, rules) };
}

impl Ord for Name {
    ghost use Rattle.std.specs.Cmp.Lexicographic.{slice_cmp};
    ghost use Rattle.std.specs.Cmp.Rules.{comparing};
    ghost use Rattle.std.specs.Ordering.{nat_cmp};
    ghost use Rattle.std.proofs.Common.{rules};

    ghost cmp = { slice_cmp nat_cmp };

    ghost total = { Prim.search (comparing, rules) };

    ghost matches_partial_cmp = { Prim.search (comparing, rules) };

    ghost matches_eq = { Prim.search (comparing, rules) };

    fn cmp(&self, other: &Name) -> Ordering {
        self.text.as_str().cmp(other.text.as_str())
    }
}

impl PartialOrd for Name {
    ghost use Rattle.std.specs.Cmp.{partial_order_from_own_ties};
    ghost use Rattle.std.specs.Cmp.Lexicographic.{slice_cmp};
    ghost use Rattle.std.specs.Cmp.Rules.{comparing};
    ghost use Rattle.std.specs.Ordering.{as_partial_cmp, nat_cmp};
    ghost use Rattle.std.proofs.Common.{rules};

    ghost partial_cmp = { as_partial_cmp (slice_cmp nat_cmp) };

    ghost laws = { partial_order_from_own_ties (Prim.search (comparing, rules)) (Prim.search (comparing, rules)) };

    fn partial_cmp(&self, other: &Name) -> Option<Ordering> {
        Some(self.cmp(other))
    }
}
