// By what the tuples of some selectors and the nodes of one more find each other.
ghost use Rattle.std.specs.Prelude.{◌≡◌, ◌∷◌, ◌++◌, [], IfOk, OnOk, map};
ghost use Rattle.std.specs.Map.Iter.{deref_pair};
ghost use Rattle.std.specs.Option.{option_map};
ghost use Rattle.sql_plan.specs.Index.{Any, sought};
ghost use Rattle.sql_plan.specs.Links.{equal_link, keys_of_node, keys_of_tuple, link_of, linked, paths_link, reached, reached_by, values_sought};

use crate::index::Key;
use jr_path::{Name, Path};
use jr_value::Value;
use sql_eval::{Spot, Tuple, property_in};
use sql_query::{On, PropertyOf};
use sql_values::values_in;
use std::alloc::{AllocError, Global};

/// By what a tuple and a node find each other.
#[derive(Clone, Copy)]
pub(crate) enum Link<'q> {
    /// Nothing: each is tried with each.
    All,
    /// A value of a property of the tuple and of the node.
    Equal(&'q PropertyOf, &'q Name),
    /// A path that the node of a selector of the tuple reaches, and the node too.
    Paths(u32, Reach, Reach),
}

/// The paths that a node reaches: its own, that of its parent, or those of all nodes above it.
#[derive(Clone, Copy)]
pub(crate) enum Reach {
    Itself,
    Parent,
    Above,
}

/// By what tuples of so many selectors and the nodes of the next find each other where they are as a join condition
/// asks.
pub(crate) fn link_of(on: &On, count: usize) -> Link<'_>
    ensures { linked result ≡ link_of on.now count }
{
    match on {
        On::Equal(first, second) => equal_link(first, second, count),
        On::Same(first, second) => paths_link(*first, *second, Reach::Itself, count),
        On::Child(first, second) => paths_link(*first, *second, Reach::Parent, count),
        On::Descendant(first, second) => paths_link(*first, *second, Reach::Above, count),
    }
}

// Where two properties share a value.
fn equal_link<'q>(first: &'q PropertyOf, second: &'q PropertyOf, count: usize) -> Link<'q>
    ensures { linked result ≡ equal_link first.now second.now count }
{
    let is_first = first.selector as usize == count;
    let is_second = second.selector as usize == count;
    match (is_first, is_second) {
        (true, false) => Link::Equal(second, &first.name),
        (false, true) => Link::Equal(first, &second.name),
        _ => Link::All,
    }
}

// Where the first node reaches the path of the second.
fn paths_link<'q>(first: u32, second: u32, reach: Reach, count: usize) -> Link<'q>
    ensures { linked result ≡ paths_link first second reach count }
{
    let is_first = first as usize == count;
    let is_second = second as usize == count;
    match (is_first, is_second) {
        (true, false) => Link::Paths(second, Reach::Itself, reach),
        (false, true) => Link::Paths(first, reach, Reach::Itself),
        _ => Link::All,
    }
}

/// The keys of a tuple.
pub(crate) fn keys_of_tuple<'a>(
    alloc: Global,
    link: &Link<'_>,
    tuple: &Tuple<'a>,
) -> Result<Vec<Key<'a>>, AllocError>
    ensures { IfOk result (λ keys. map sought keys.items ≡ keys_of_tuple (linked link.now) tuple.now) }
{
    match link {
        Link::All => any_key(alloc),
        Link::Equal(property, _) => keys_of_values(alloc, values_in(tuple.property(property))),
        Link::Paths(selector, reach, _) => keys_of_spot(alloc, tuple.spot(*selector), *reach),
    }
}

/// The keys of a node.
pub(crate) fn keys_of_node<'a>(
    alloc: Global,
    link: &Link<'_>,
    spot: Spot<'a>,
) -> Result<Vec<Key<'a>>, AllocError>
    ensures { IfOk result (λ keys. map sought keys.items ≡ keys_of_node (linked link.now) (deref_pair spot.entry)) }
{
    match link {
        Link::All => any_key(alloc),
        Link::Equal(_, name) => keys_of_values(alloc, values_in(property_in(Some(spot), name))),
        Link::Paths(_, _, reach) => keys_of_spot(alloc, Some(spot), *reach),
    }
}

// The one key of all.
fn any_key<'a>(alloc: Global) -> Result<Vec<Key<'a>>, AllocError>
    ensures { IfOk result (λ keys. map sought keys.items ≡ Any ∷ []) }
{
    let mut keys = Vec::new(alloc);
    keys.push(Key::Any)?;
    Ok(keys)
}

// Each value as a key.
fn keys_of_values<'a>(alloc: Global, values: &'a [Value]) -> Result<Vec<Key<'a>>, AllocError>
    ensures { IfOk result (λ keys. map sought keys.items ≡ values_sought values.now) }
{
    let mut keys = Vec::new(alloc);
    for value in values {
        keys.push(Key::Value(value))?;
    }
    Ok(keys)
}

// The paths that a node reaches, where there is one.
fn keys_of_spot<'a>(
    alloc: Global,
    spot: Option<Spot<'a>>,
    reach: Reach,
) -> Result<Vec<Key<'a>>, AllocError>
    ensures { IfOk result (λ keys. map sought keys.items ≡ reached_by reach (option_map deref_pair spot.entry)) }
{
    match spot {
        Some((path, _)) => keys_of_path(alloc, path, reach),
        None => Ok(Vec::new(alloc)),
    }
}

fn keys_of_path<'a>(alloc: Global, path: &'a Path, reach: Reach) -> Result<Vec<Key<'a>>, AllocError>
    ensures { IfOk result (λ keys. map sought keys.items ≡ reached reach path.now) }
{
    let mut keys = Vec::new(alloc);
    let names = path.names();
    match reach {
        Reach::Itself => keys.push(Key::Path(names))?,
        Reach::Parent => {
            if let [above @ .., _] = names {
                keys.push(Key::Path(above))?;
            }
        }
        Reach::Above => add_paths_above(&mut keys, names)?,
    }
    Ok(keys)
}

// The paths above one, from the root on.
fn add_paths_above<'a>(keys: &mut Vec<Key<'a>>, names: &'a [Name]) -> Result<(), AllocError>
    ensures { OnOk result (map sought keys.new.items ≡ map sought keys.old.items ++ reached Reach.Above names.now) }
{
    for depth in 0..names.len() {
        keys.push(Key::Path(&names[..depth]))?;
    }
    Ok(())
}
