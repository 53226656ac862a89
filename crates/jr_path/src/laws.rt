// Laws of the texts and the orders of names, paths, items and ids.
ghost use Rattle.std.specs.Prelude.{◌≡◌, ◌↔◌, ◌<◌, ◌^◌, ◌∷◌, ◌++◌, [], All, IsTrue, length};
ghost use Rattle.std.specs.Cmp.{IsTotalOrder};
ghost use Rattle.std.specs.Ordering.{is_eq};
ghost use Rattle.jr_path.specs.Grammar.{HasOneFault, IsName};
ghost use Rattle.jr_path.specs.Ids.{id_cmp, id_text, names_of, number_of, path_text};
ghost use Rattle.jr_path.specs.Names.{is_under, path_item_cmp, last_name, name_cmp, parent_of, path_cmp};
ghost use Rattle.jr_path.specs.Paths.{IsPathText, NamesReadBack, PathsReadBack};

use crate::{DocId, Item, Name, Path};

/// Names have one total order, by their bytes, in which only equal names tie.
pub fn order_of_names()
    ensures is { (a b : _) → ⟦<Name as Ord>⟧.cmp a b ≡ name_cmp a b }
    ensures total { IsTotalOrder name_cmp }
    ensures exact { (a b : _) → IsTrue (is_eq (name_cmp a b)) ↔ (a ≡ b) }
{}

/// Paths have one total order, name by name, in which only equal paths tie.
pub fn order_of_paths()
    ensures is { (a b : _) → ⟦<Path as Ord>⟧.cmp a b ≡ path_cmp a b }
    ensures total { IsTotalOrder path_cmp }
    ensures exact { (a b : _) → IsTrue (is_eq (path_cmp a b)) ↔ (a ≡ b) }
{}

/// Items have one total order, by path, a node before its properties and these by name, in which only
/// equal items tie.
pub fn order_of_items()
    ensures is { (a b : _) → ⟦<Item as Ord>⟧.cmp a b ≡ path_item_cmp a b }
    ensures total { IsTotalOrder path_item_cmp }
    ensures exact { (a b : _) → IsTrue (is_eq (path_item_cmp a b)) ↔ (a ≡ b) }
{}

/// Ids of documents have one total order, the store's, in which only equal ids tie.
pub fn order_of_ids()
    ensures is { (a b : _) → ⟦<DocId as Ord>⟧.cmp a b ≡ id_cmp a b }
    ensures total { IsTotalOrder id_cmp }
    ensures exact { (a b : _) → IsTrue (is_eq (id_cmp a b)) ↔ (a ≡ b) }
{}

/// A child's path has its node's path above it and its name last; only the root has no such parts.
pub fn parts_of_paths()
    ensures child { (path name : _) → (parent_of (path ++ name ∷ []) ≡ Some path) × (last_name (path ++ name ∷ []) ≡ Some name) }
    ensures root { (parent_of [] ≡ None) × (last_name [] ≡ None) }
{}

/// One path is at or below another exactly where it begins with the other's names.
pub fn paths_below()
    ensures { (path other : _) → IsTrue (is_under path other) ↔ ((more : _) × (path ≡ other ++ more)) }
{}

/// A text that is no name, or no path, has one first fault.
pub fn first_faults()
    ensures name { HasOneFault IsName }
    ensures path { HasOneFault IsPathText }
{}

/// `Name::parse` reads the text of each name, and `Path::parse` that of each path within the limits, as
/// that name or path, unless memory is refused.
pub fn texts_read_back()
    ensures name { NamesReadBack }
    ensures path { PathsReadBack }
{}

/// Two paths with one text are equal.
pub fn texts_of_paths()
    ensures { (a b : _) → All IsName a → All IsName b → path_text a ≡ path_text b → a ≡ b }
{}

/// Two ids with one text are equal, with numbers below 2^64 and fewer than 2^64 names.
pub fn texts_of_ids()
    ensures { (a b : _) → All IsName (names_of a) → All IsName (names_of b)
        → length (names_of a) < 2 ^ 64 → length (names_of b) < 2 ^ 64
        → number_of a < 2 ^ 64 → number_of b < 2 ^ 64
        → id_text a ≡ id_text b → a ≡ b }
{}
