// Joins by an index.
ghost use Rattle.std.specs.Prelude.{◌≡◌, ◌+◌, ◌∷◌, ◌++◌, ℕ, [], None, Some, true, IfOk, OnOk, length, map, not};
ghost use Rattle.std.specs.List.{AllByRecursion, Contains, filter, list_any};
ghost use Rattle.std.specs.Map.Iter.{deref_pair};
ghost use Rattle.sql_eval.specs.Joins.{is_lonely_spot, is_lonely_tuple, joined_tuples, joins, lonely_spots, lonely_tuples, pairs, with_spot};
ghost use Rattle.sql_plan.specs.Index.{Sought, placed_key, sought};
ghost use Rattle.sql_plan.specs.Links.{at_places, keys_of_node, keys_of_tuple, link_of, linked, placed};

use crate::index::{Entry, Index, Key};
use crate::link::{Link, keys_of_node, keys_of_tuple, link_of};
use sql_eval::{Spot, Tuple, joins};
use sql_query::{Join, JoinKind, On};
use std::alloc::{AllocError, Global};

/// Tuples of so many selectors joined with the nodes of one more (JSR 283, 6.7.5 Join), each found by an index.
pub(crate) fn joined<'a>(
    alloc: Global,
    join: &Join,
    count: usize,
    left: &[Tuple<'a>],
    right: &[Spot<'a>],
) -> Result<Vec<Tuple<'a>>, AllocError>
    requires { AllByRecursion (λ l. length l ≡ count) left.now }
    ensures { IfOk result (λ tuples. tuples.items ≡ joined_tuples join.now count left.now (map deref_pair right.now)) }
{
    let link = link_of(&join.on, count);
    let nodes = index_of_nodes(alloc, &link, right)?;
    let mut tuples = Vec::new(alloc);
    add_pairs(alloc, &mut tuples, &join.on, &link, &nodes, left, right)?;
    match join.kind {
        JoinKind::Inner => {}
        JoinKind::LeftOuter => {
            add_lonely_tuples(alloc, &mut tuples, &join.on, &link, &nodes, left, right)?;
        }
        JoinKind::RightOuter => {
            add_lonely_nodes(alloc, &mut tuples, &join.on, &link, count, left, right)?;
        }
    }
    Ok(tuples)
}

// The nodes, found by their keys.
fn index_of_nodes<'a>(
    alloc: Global,
    link: &Link<'_>,
    right: &[Spot<'a>],
) -> Result<Index<'a>, AllocError>
    ensures all { IfOk result (λ index. (s : Sought) (n : ℕ) → Contains (placed (keys_of_node (linked link.now)) 0 (map deref_pair right.now)) (s, n) → Contains index (s, n)) }
    ensures only { IfOk result (λ index. (s : Sought) (n : ℕ) → Contains index (s, n) → Contains (placed (keys_of_node (linked link.now)) 0 (map deref_pair right.now)) (s, n)) }
{
    let mut entries = Vec::new(alloc);
    let mut place = 0;
    for spot in right {
        add_entries(&mut entries, &keys_of_node(alloc, link, *spot)?, place)?;
        place += 1;
    }
    Ok(Index::of(entries))
}

// The tuples, found by their keys.
fn index_of_tuples<'a>(
    alloc: Global,
    link: &Link<'_>,
    left: &[Tuple<'a>],
) -> Result<Index<'a>, AllocError>
    ensures all { IfOk result (λ index. (s : Sought) (n : ℕ) → Contains (placed (keys_of_tuple (linked link.now)) 0 left.now) (s, n) → Contains index (s, n)) }
    ensures only { IfOk result (λ index. (s : Sought) (n : ℕ) → Contains index (s, n) → Contains (placed (keys_of_tuple (linked link.now)) 0 left.now) (s, n)) }
{
    let mut entries = Vec::new(alloc);
    let mut place = 0;
    for tuple in left {
        add_entries(&mut entries, &keys_of_tuple(alloc, link, tuple)?, place)?;
        place += 1;
    }
    Ok(Index::of(entries))
}

// Each key with a place.
fn add_entries<'a>(
    entries: &mut Vec<Entry<'a>>,
    keys: &[Key<'a>],
    place: usize,
) -> Result<(), AllocError>
    ensures { OnOk result (map placed_key entries.new.items ≡ map placed_key entries.old.items ++ map (λ s. (s, place)) (map sought keys.now)) }
{
    for key in keys {
        entries.push(Entry { key: *key, place })?;
    }
    Ok(())
}

// The nodes that are with a tuple as a join condition asks, in order.
fn partners<'a>(
    alloc: Global,
    on: &On,
    link: &Link<'_>,
    nodes: &Index<'a>,
    left: &Tuple<'a>,
    right: &[Spot<'a>],
) -> Result<Vec<Spot<'a>>, AllocError>
    requires link { linked link.now ≡ link_of on.now (length left.now) }
    requires nodes { (s : Sought) (n : ℕ) → Contains (placed (keys_of_node (linked link.now)) 0 (map deref_pair right.now)) (s, n) → Contains nodes.now (s, n) }
    ensures { IfOk result (λ spots. map deref_pair spots.items ≡ filter (λ r. joins on.now (with_spot left.now r)) (map deref_pair right.now)) }
{
    let places = nodes.places(alloc, &keys_of_tuple(alloc, link, left)?)?;
    partners_at(alloc, on, left, right, &places)
}

// The nodes at these places that are with a tuple as a join condition asks.
fn partners_at<'a>(
    alloc: Global,
    on: &On,
    left: &Tuple<'a>,
    right: &[Spot<'a>],
    places: &[usize],
) -> Result<Vec<Spot<'a>>, AllocError>
    ensures { IfOk result (λ spots. map deref_pair spots.items ≡ filter (λ r. joins on.now (with_spot left.now r)) (at_places (map deref_pair right.now) places.now)) }
{
    let mut spots = Vec::new(alloc);
    for place in places {
        add_partner(&mut spots, on, left, right, *place)?;
    }
    Ok(spots)
}

// The node at a place, if it is with a tuple as a join condition asks.
fn add_partner<'a>(
    spots: &mut Vec<Spot<'a>>,
    on: &On,
    left: &Tuple<'a>,
    right: &[Spot<'a>],
    place: usize,
) -> Result<(), AllocError>
    ensures { OnOk result (map deref_pair spots.new.items ≡ map deref_pair spots.old.items ++ filter (λ r. joins on.now (with_spot left.now r)) (at_places (map deref_pair right.now) (place ∷ []))) }
{
    match right.get(place) {
        Some(spot) => add_if_joins(spots, on, left, *spot),
        None => Ok(()),
    }
}

fn add_if_joins<'a>(
    spots: &mut Vec<Spot<'a>>,
    on: &On,
    left: &Tuple<'a>,
    right: Spot<'a>,
) -> Result<(), AllocError>
    ensures { OnOk result (map deref_pair spots.new.items ≡ map deref_pair spots.old.items ++ filter (λ r. joins on.now (with_spot left.now r)) (deref_pair right.entry ∷ [])) }
{
    if joins(on, left, right) {
        spots.push(right)?;
    }
    Ok(())
}

fn add_pairs<'a>(
    alloc: Global,
    tuples: &mut Vec<Tuple<'a>>,
    on: &On,
    link: &Link<'_>,
    nodes: &Index<'a>,
    left: &[Tuple<'a>],
    right: &[Spot<'a>],
) -> Result<(), AllocError>
    requires link { AllByRecursion (λ l. linked link.now ≡ link_of on.now (length l)) left.now }
    requires nodes { (s : Sought) (n : ℕ) → Contains (placed (keys_of_node (linked link.now)) 0 (map deref_pair right.now)) (s, n) → Contains nodes.now (s, n) }
    ensures { OnOk result (tuples.new.items ≡ tuples.old.items ++ pairs on.now left.now (map deref_pair right.now)) }
{
    for tuple in left {
        let spots = partners(alloc, on, link, nodes, tuple, right)?;
        add_pairs_of(alloc, tuples, tuple, &spots)?;
    }
    Ok(())
}

// A tuple with each of these nodes.
fn add_pairs_of<'a>(
    alloc: Global,
    tuples: &mut Vec<Tuple<'a>>,
    left: &Tuple<'a>,
    spots: &[Spot<'a>],
) -> Result<(), AllocError>
    ensures { OnOk result (tuples.new.items ≡ tuples.old.items ++ map (with_spot left.now) (map deref_pair spots.now)) }
{
    for spot in spots {
        tuples.push(left.with(alloc, Some(*spot))?)?;
    }
    Ok(())
}

fn add_lonely_tuples<'a>(
    alloc: Global,
    tuples: &mut Vec<Tuple<'a>>,
    on: &On,
    link: &Link<'_>,
    nodes: &Index<'a>,
    left: &[Tuple<'a>],
    right: &[Spot<'a>],
) -> Result<(), AllocError>
    requires link { AllByRecursion (λ l. linked link.now ≡ link_of on.now (length l)) left.now }
    requires nodes { (s : Sought) (n : ℕ) → Contains (placed (keys_of_node (linked link.now)) 0 (map deref_pair right.now)) (s, n) → Contains nodes.now (s, n) }
    ensures { OnOk result (tuples.new.items ≡ tuples.old.items ++ lonely_tuples on.now left.now (map deref_pair right.now)) }
{
    for tuple in left {
        if is_lonely_tuple(alloc, on, link, nodes, tuple, right)? {
            tuples.push(tuple.with(alloc, None)?)?;
        }
    }
    Ok(())
}

fn is_lonely_tuple<'a>(
    alloc: Global,
    on: &On,
    link: &Link<'_>,
    nodes: &Index<'a>,
    left: &Tuple<'a>,
    right: &[Spot<'a>],
) -> Result<bool, AllocError>
    requires link { linked link.now ≡ link_of on.now (length left.now) }
    requires nodes { (s : Sought) (n : ℕ) → Contains (placed (keys_of_node (linked link.now)) 0 (map deref_pair right.now)) (s, n) → Contains nodes.now (s, n) }
    ensures { IfOk result (λ lonely. lonely ≡ is_lonely_tuple on.now (map deref_pair right.now) left.now) }
{
    let spots = partners(alloc, on, link, nodes, left, right)?;
    Ok(spots.as_slice().is_empty())
}

fn add_lonely_nodes<'a>(
    alloc: Global,
    tuples: &mut Vec<Tuple<'a>>,
    on: &On,
    link: &Link<'_>,
    count: usize,
    left: &[Tuple<'a>],
    right: &[Spot<'a>],
) -> Result<(), AllocError>
    requires link { AllByRecursion (λ l. linked link.now ≡ link_of on.now (length l)) left.now }
    ensures { OnOk result (tuples.new.items ≡ tuples.old.items ++ lonely_spots on.now count left.now (map deref_pair right.now)) }
{
    let index = index_of_tuples(alloc, link, left)?;
    for spot in right {
        if is_lonely_node(alloc, on, link, &index, left, *spot)? {
            tuples.push(Tuple::behind(alloc, count, *spot)?)?;
        }
    }
    Ok(())
}

fn is_lonely_node<'a>(
    alloc: Global,
    on: &On,
    link: &Link<'_>,
    index: &Index<'a>,
    left: &[Tuple<'a>],
    right: Spot<'a>,
) -> Result<bool, AllocError>
    requires link { AllByRecursion (λ l. linked link.now ≡ link_of on.now (length l)) left.now }
    requires index { (s : Sought) (n : ℕ) → Contains (placed (keys_of_tuple (linked link.now)) 0 left.now) (s, n) → Contains index.now (s, n) }
    ensures { IfOk result (λ lonely. lonely ≡ is_lonely_spot on.now left.now (deref_pair right.entry)) }
{
    let places = index.places(alloc, &keys_of_node(alloc, link, right)?)?;
    Ok(!some_joins(on, left, right, &places))
}

// Whether one of the tuples at these places is with a node as a join condition asks.
fn some_joins<'a>(on: &On, left: &[Tuple<'a>], right: Spot<'a>, places: &[usize]) -> bool
    ensures { result ≡ list_any (λ l. joins on.now (with_spot l (deref_pair right.entry))) (at_places left.now places.now) }
{
    let mut rest = places;
    while let [place, others @ ..] = rest {
        if joins_at(on, left, right, *place) {
            return true;
        }
        rest = others;
    }
    false
}

// Whether there is a tuple at a place and it is with a node as a join condition asks.
fn joins_at<'a>(on: &On, left: &[Tuple<'a>], right: Spot<'a>, place: usize) -> bool
    ensures { result ≡ list_any (λ l. joins on.now (with_spot l (deref_pair right.entry))) (at_places left.now (place ∷ [])) }
{
    match left.get(place) {
        Some(tuple) => joins(on, tuple, right),
        None => false,
    }
}
