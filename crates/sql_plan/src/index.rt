// Places found by keys.
ghost use Rattle.std.specs.Prelude.{◌≡◌, ◌++◌, ℕ, true, IfOk, OnOk, map};
ghost use Rattle.std.specs.Cmp.Lexicographic.{slice_cmp};
ghost use Rattle.std.specs.List.{Contains, filter, list_any};
ghost use Rattle.std.specs.List.Sorted.{IsStrictlyIncreasing};
ghost use Rattle.jr_path.specs.Names.{name_cmp};
ghost use Rattle.sql_plan.specs.Index.{Sought, is_same_key, key_cmp, placed_key, sought};

use jr_path::Name;
use jr_value::Value;
use sql_values::kinds_first;
use std::alloc::{AllocError, Global};
use std::cmp::Ordering;
use std::marker::Model;

/// What a node or a tuple is found by: nothing, a value, or a path.
#[derive(Clone, Copy)]
pub(crate) enum Key<'a> {
    Any,
    Value(&'a Value),
    Path(&'a [Name]),
}

/// A key, and the place of what has it.
#[derive(Clone, Copy)]
pub(crate) struct Entry<'a> {
    pub key: Key<'a>,
    pub place: usize,
}

/// The places of all that has keys, found by a key. It is seen as the list of keys with places.
#[derive(Drop)]
pub(crate) struct Index<'a> {
    entries: Vec<Entry<'a>>,
}

impl<'a> Model for Index<'a> {
    ghost use Rattle.std.specs.Prelude.{ℕ, List as Seq, map};
    ghost use Rattle.std.specs.List.Sorted.{IsSorted};
    ghost use Rattle.sql_plan.specs.Index.{Sought, by_key, placed_key};

    ghost Value = { Seq (Sought × ℕ) };

    ghost view = { λ a. map placed_key a.entries.items };

    ghost invariant = { λ a. IsSorted by_key a.entries.items };
}

impl<'a> Index<'a> {
    /// Takes over entries in any order. It takes no memory.
    pub fn of(entries: Vec<Entry<'a>>) -> Index<'a>
        ensures all { (s : Sought) (n : ℕ) → Contains (map placed_key entries.entry.items) (s, n) → Contains result (s, n) }
        ensures only { (s : Sought) (n : ℕ) → Contains result (s, n) → Contains (map placed_key entries.entry.items) (s, n) }
    {
        let mut entries = entries;
        entries.sort_unstable_by(|entry, other| key_cmp(&entry.key, &other.key));
        Index { entries }
    }

    // The entries of one key.
    fn entries_of(&self, key: &Key<'a>) -> &[Entry<'a>]
        ensures { map placed_key result.now ≡ filter (λ e. is_same_key (sought key.now) e.0) self.now }
    {
        let start = self
            .entries
            .partition_point(|entry| key_cmp(&entry.key, key).is_lt());
        let end = self
            .entries
            .partition_point(|entry| key_cmp(&entry.key, key).is_le());
        if start <= end {
            &self.entries[start..end]
        } else {
            &[]
        }
    }

    /// The places of just what has one of these keys, each once, in ascending order.
    pub fn places(&self, alloc: Global, keys: &[Key<'a>]) -> Result<Vec<usize>, AllocError>
        ensures rises { IfOk result (λ places. IsStrictlyIncreasing places.items) }
        ensures all { IfOk result (λ places. (s : Sought) (n : ℕ) → Contains self.now (s, n) → list_any (λ k. is_same_key k s) (map sought keys.now) ≡ true → Contains places.items n) }
        ensures only { IfOk result (λ places. (n : ℕ) → Contains places.items n → (s : Sought) × Contains self.now (s, n) × (list_any (λ k. is_same_key k s) (map sought keys.now) ≡ true)) }
    {
        let mut places = Vec::new(alloc);
        for key in keys {
            add_places(&mut places, self.entries_of(key))?;
        }
        sort_places(&mut places);
        Ok(places)
    }
}

// The places of entries, behind others.
fn add_places(places: &mut Vec<usize>, entries: &[Entry<'_>]) -> Result<(), AllocError>
    ensures { OnOk result (places.new.items ≡ places.old.items ++ map (λ e. e.place) entries.now) }
{
    for entry in entries {
        places.push(entry.place)?;
    }
    Ok(())
}

// Puts places in ascending order, each once.
fn sort_places(places: &mut Vec<usize>)
    ensures rises { IsStrictlyIncreasing places.new.items }
    ensures keeps { (n : ℕ) → Contains places.old.items n → Contains places.new.items n }
    ensures only { (n : ℕ) → Contains places.new.items n → Contains places.old.items n }
{
    places.sort_unstable();
    places.dedup();
}

// The order of two keys: values by their kinds and within one kind by their order, and paths name by name.
fn key_cmp(key: &Key<'_>, other: &Key<'_>) -> Ordering
    ensures { result ≡ key_cmp (sought key.now) (sought other.now) }
{
    match (key, other) {
        (Key::Value(value), Key::Value(other)) => kinds_first(value, other),
        (Key::Path(names), Key::Path(others)) => names_cmp(names, others),
        (Key::Any, Key::Any) => Ordering::Equal,
        (Key::Value(_), _) => Ordering::Greater,
        (_, Key::Value(_)) => Ordering::Less,
        (Key::Path(_), _) => Ordering::Greater,
        (_, Key::Path(_)) => Ordering::Less,
    }
}

// The order of two paths, name by name, a prefix first.
fn names_cmp(names: &[Name], others: &[Name]) -> Ordering
    ensures { result ≡ slice_cmp name_cmp names.now others.now }
{
    names.cmp(others)
}
