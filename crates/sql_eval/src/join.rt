// The nodes of a selector, and joins.
ghost use Rattle.std.specs.Prelude.{◌≡◌, ◌+◌, ◌∷◌, ◌++◌, [], None, Some, IfOk, OnOk, codes, map, not, length};
ghost use Rattle.std.specs.List.{filter, flat_map, list_any, repeat, zip};
ghost use Rattle.std.specs.Map.Iter.{deref_pair};
ghost use Rattle.std.specs.Option.{option_copied, option_map};
ghost use Rattle.std.specs.Ordering.{eq_by_cmp};
ghost use Rattle.jr_path.specs.Names.{name_cmp};
ghost use Rattle.sql_query.specs.declared.query.On.TheVariants.{Equal};
ghost use Rattle.sql_eval.specs.Conditions.{is_child, is_descendant, is_same_node, tuple_property, spot_of};
ghost use Rattle.sql_eval.specs.Joins.{is_lonely_spot, is_lonely_tuple, is_name_among, is_typed, joined_tuples, joined_all, joins, lonely, lonely_spots, lonely_tuples, nodes_of_type, pairs, paths_pass, tuples_of, type_properties, with_spot};

use crate::condition::{is_spot_child, is_spot_descendant, is_spot_same};
use crate::lists::push;
use crate::tuple::{Spot, Tuple, property_in};
use jr_path::Name;
use jr_tree::{Node, Tree};
use jr_value::{Property, Value};
use sql_query::{Join, JoinKind, On, PropertyOf};
use sql_values::{some_equal, values_in, values_of};
use std::alloc::{AllocError, Global};

/// The names of the properties that have the types of a node: its primary type and its mixins.
pub fn type_properties(alloc: Global) -> Result<Vec<Name>, AllocError>
    ensures { IfOk result (λ names. names.items ≡ type_properties) }
{
    let primary = Name::of(alloc, "jcr:primaryType")?;
    let mixins = Name::of(alloc, "jcr:mixinTypes")?;
    both(alloc, primary, mixins)
}

// Two names.
fn both(alloc: Global, first: Name, second: Name) -> Result<Vec<Name>, AllocError>
    ensures { IfOk result (λ names. names.items ≡ first ∷ second ∷ []) }
{
    let mut names = Vec::new(alloc);
    push(&mut names, first)?;
    push(&mut names, second)?;
    Ok(names)
}

/// The nodes of a tree whose primary type, or one of whose mixins, is among these (JSR 283, 6.7.3 Selector).
pub(crate) fn nodes_of_type<'a>(
    alloc: Global,
    tree: &'a Tree,
    properties: &[Name],
    set: &[Name],
) -> Result<Vec<Spot<'a>>, AllocError>
    requires { properties.now ≡ type_properties }
    ensures { IfOk result (λ spots. map deref_pair spots.items ≡ nodes_of_type tree.now set.now) }
{
    let mut spots = Vec::new(alloc);
    for (path, node) in tree.iter() {
        if has_type(properties, set, node) {
            push(&mut spots, (path, node))?;
        }
    }
    Ok(spots)
}

/// Whether one of these properties of a node has the name of one of these types.
pub fn has_type(properties: &[Name], set: &[Name], node: &Node) -> bool
    ensures { result ≡ list_any (is_typed set.now node.now) properties.now }
{
    let mut left = properties;
    while let [name, rest @ ..] = left {
        if is_typed(set, node, name) {
            return true;
        }
        left = rest;
    }
    false
}

// Whether the property of that name has the name of one of these types.
fn is_typed(set: &[Name], node: &Node, name: &Name) -> bool
    ensures { result ≡ is_typed set.now node.now name.now }
{
    match node.props.get(name) {
        Some(property) => some_among(set, values_of(property)),
        None => false,
    }
}

fn some_among(set: &[Name], values: &[Value]) -> bool
    ensures { result ≡ list_any (is_name_among set.now) values.now }
{
    let mut left = values;
    while let [value, rest @ ..] = left {
        if is_name_among(set, value) {
            return true;
        }
        left = rest;
    }
    false
}

fn is_name_among(set: &[Name], value: &Value) -> bool
    ensures { result ≡ is_name_among set.now value.now }
{
    match value {
        Value::Name(name) => is_among(set, name),
        _ => false,
    }
}

fn is_among(set: &[Name], name: &Name) -> bool
    ensures { result ≡ list_any (eq_by_cmp name_cmp name.now) set.now }
{
    let mut left = set;
    while let [own, rest @ ..] = left {
        if name == own {
            return true;
        }
        left = rest;
    }
    false
}

// The node of a selector in a tuple with one more node.
fn spot_in<'a>(left: &Tuple<'a>, right: Spot<'a>, selector: u32) -> Option<Spot<'a>>
    ensures { option_map deref_pair result ≡ spot_of (with_spot left.now (deref_pair right.entry)) selector }
{
    let place = selector as usize;
    let count = left.len();
    if place < count {
        left.spot(selector)
    } else if place == count {
        Some(right)
    } else {
        None
    }
}

/// Whether a tuple and one more node are as a join condition asks (JSR 283, 6.7.7 JoinCondition).
pub fn joins<'a>(on: &On, left: &Tuple<'a>, right: Spot<'a>) -> bool
    ensures { result ≡ joins on.now (with_spot left.now (deref_pair right.entry)) }
{
    match on {
        On::Equal(first, second) => share_value(left, right, first, second),
        On::Same(first, second) => are_same(
            spot_in(left, right, *first),
            spot_in(left, right, *second),
        ),
        On::Child(first, second) => is_child_of(
            spot_in(left, right, *first),
            spot_in(left, right, *second),
        ),
        On::Descendant(first, second) => is_descendant_of(
            spot_in(left, right, *first),
            spot_in(left, right, *second),
        ),
    }
}

// Whether two properties share a value.
fn share_value<'a>(
    left: &Tuple<'a>,
    right: Spot<'a>,
    first: &PropertyOf,
    second: &PropertyOf,
) -> bool
    ensures { result ≡ joins (Equal first.now second.now) (with_spot left.now (deref_pair right.entry)) }
{
    let values = values_in(property_of(left, right, first));
    some_equal(values, values_in(property_of(left, right, second)))
}

fn are_same(spot: Option<Spot<'_>>, other: Option<Spot<'_>>) -> bool
    ensures { result ≡ paths_pass is_same_node (option_map deref_pair spot.entry) (option_map deref_pair other.entry) }
{
    match other {
        Some((path, _)) => is_spot_same(spot, path),
        None => false,
    }
}

fn is_child_of(spot: Option<Spot<'_>>, other: Option<Spot<'_>>) -> bool
    ensures { result ≡ paths_pass is_child (option_map deref_pair spot.entry) (option_map deref_pair other.entry) }
{
    match other {
        Some((path, _)) => is_spot_child(spot, path),
        None => false,
    }
}

fn is_descendant_of(spot: Option<Spot<'_>>, other: Option<Spot<'_>>) -> bool
    ensures { result ≡ paths_pass is_descendant (option_map deref_pair spot.entry) (option_map deref_pair other.entry) }
{
    match other {
        Some((path, _)) => is_spot_descendant(spot, path),
        None => false,
    }
}

fn property_of<'a>(left: &Tuple<'a>, right: Spot<'a>, property: &PropertyOf) -> Option<&'a Property>
    ensures { option_copied result ≡ tuple_property (with_spot left.now (deref_pair right.entry)) property.now }
{
    property_in(spot_in(left, right, property.selector), &property.name)
}

/// Tuples of so many selectors joined with the nodes of one more (JSR 283, 6.7.5 Join): the pairs that are as the
/// join condition asks, and in an outer join the tuples or the nodes that have no partner.
pub(crate) fn joined<'a>(
    alloc: Global,
    join: &Join,
    count: usize,
    left: &[Tuple<'a>],
    right: &[Spot<'a>],
) -> Result<Vec<Tuple<'a>>, AllocError>
    ensures { IfOk result (λ tuples. tuples.items ≡ joined_tuples join.now count left.now (map deref_pair right.now)) }
{
    let mut tuples = Vec::new(alloc);
    add_pairs(alloc, &mut tuples, &join.on, left, right)?;
    add_lonely(alloc, &mut tuples, join, count, left, right)?;
    Ok(tuples)
}

// What an outer join has besides the pairs.
fn add_lonely<'a>(
    alloc: Global,
    tuples: &mut Vec<Tuple<'a>>,
    join: &Join,
    count: usize,
    left: &[Tuple<'a>],
    right: &[Spot<'a>],
) -> Result<(), AllocError>
    ensures { OnOk result (tuples.new.items ≡ tuples.old.items ++ lonely join.now.kind join.now.on count left.now (map deref_pair right.now)) }
{
    match join.kind {
        JoinKind::Inner => Ok(()),
        JoinKind::LeftOuter => add_lonely_tuples(alloc, tuples, &join.on, left, right),
        JoinKind::RightOuter => add_lonely_spots(alloc, tuples, &join.on, count, left, right),
    }
}

fn add_pairs<'a>(
    alloc: Global,
    tuples: &mut Vec<Tuple<'a>>,
    on: &On,
    left: &[Tuple<'a>],
    right: &[Spot<'a>],
) -> Result<(), AllocError>
    ensures { OnOk result (tuples.new.items ≡ tuples.old.items ++ pairs on.now left.now (map deref_pair right.now)) }
{
    for tuple in left {
        add_pairs_of(alloc, tuples, on, tuple, right)?;
    }
    Ok(())
}

fn add_pairs_of<'a>(
    alloc: Global,
    tuples: &mut Vec<Tuple<'a>>,
    on: &On,
    left: &Tuple<'a>,
    right: &[Spot<'a>],
) -> Result<(), AllocError>
    ensures { OnOk result (tuples.new.items ≡ tuples.old.items ++ filter (joins on.now) (map (with_spot left.now) (map deref_pair right.now))) }
{
    for spot in right {
        if joins(on, left, *spot) {
            add_with(alloc, tuples, left, Some(*spot))?;
        }
    }
    Ok(())
}

// A tuple with one more selector.
fn add_with<'a>(
    alloc: Global,
    tuples: &mut Vec<Tuple<'a>>,
    left: &Tuple<'a>,
    spot: Option<Spot<'a>>,
) -> Result<(), AllocError>
    ensures { OnOk result (tuples.new.items ≡ tuples.old.items ++ (left.now ++ option_map deref_pair spot.entry ∷ []) ∷ []) }
{
    push(tuples, left.with(alloc, spot)?)
}

fn add_lonely_tuples<'a>(
    alloc: Global,
    tuples: &mut Vec<Tuple<'a>>,
    on: &On,
    left: &[Tuple<'a>],
    right: &[Spot<'a>],
) -> Result<(), AllocError>
    ensures { OnOk result (tuples.new.items ≡ tuples.old.items ++ lonely_tuples on.now left.now (map deref_pair right.now)) }
{
    for tuple in left {
        if is_lonely_tuple(on, tuple, right) {
            add_with(alloc, tuples, tuple, None)?;
        }
    }
    Ok(())
}

fn is_lonely_tuple<'a>(on: &On, left: &Tuple<'a>, right: &[Spot<'a>]) -> bool
    ensures { result ≡ is_lonely_tuple on.now (map deref_pair right.now) left.now }
{
    !joins_some_spot(on, left, right)
}

fn joins_some_spot<'a>(on: &On, left: &Tuple<'a>, right: &[Spot<'a>]) -> bool
    ensures { result ≡ list_any (λ r. joins on.now (with_spot left.now r)) (map deref_pair right.now) }
{
    let mut rest = right;
    while let [spot, others @ ..] = rest {
        if joins(on, left, *spot) {
            return true;
        }
        rest = others;
    }
    false
}

fn add_lonely_spots<'a>(
    alloc: Global,
    tuples: &mut Vec<Tuple<'a>>,
    on: &On,
    count: usize,
    left: &[Tuple<'a>],
    right: &[Spot<'a>],
) -> Result<(), AllocError>
    ensures { OnOk result (tuples.new.items ≡ tuples.old.items ++ lonely_spots on.now count left.now (map deref_pair right.now)) }
{
    for spot in right {
        if is_lonely_spot(on, left, *spot) {
            add_behind(alloc, tuples, count, *spot)?;
        }
    }
    Ok(())
}

// A node behind so many missing ones.
fn add_behind<'a>(
    alloc: Global,
    tuples: &mut Vec<Tuple<'a>>,
    count: usize,
    spot: Spot<'a>,
) -> Result<(), AllocError>
    ensures { OnOk result (tuples.new.items ≡ tuples.old.items ++ (repeat count (None ∷ []) ++ Some (deref_pair spot.entry) ∷ []) ∷ []) }
{
    push(tuples, Tuple::behind(alloc, count, spot)?)
}

fn is_lonely_spot<'a>(on: &On, left: &[Tuple<'a>], right: Spot<'a>) -> bool
    ensures { result ≡ is_lonely_spot on.now left.now (deref_pair right.entry) }
{
    !joins_some_tuple(on, left, right)
}

fn joins_some_tuple<'a>(on: &On, left: &[Tuple<'a>], right: Spot<'a>) -> bool
    ensures { result ≡ list_any (λ l. joins on.now (with_spot l (deref_pair right.entry))) left.now }
{
    let mut rest = left;
    while let [tuple, others @ ..] = rest {
        if joins(on, tuple, right) {
            return true;
        }
        rest = others;
    }
    false
}

/// The tuples of all selectors, each with the set of its types, joined from left to right.
pub(crate) fn tuples_of<'a>(
    alloc: Global,
    tree: &'a Tree,
    joins: &[Join],
    sets: &[Vec<Name>],
) -> Result<Vec<Tuple<'a>>, AllocError>
    ensures { IfOk result (λ tuples. tuples.items ≡ tuples_of tree.now joins.now (map (λ set. set.items) sets.now)) }
{
    let [first, others @ ..] = sets else {
        return Ok(Vec::new(alloc));
    };
    let properties = type_properties(alloc)?;
    let mut tuples = first_tuples(alloc, tree, &properties, first)?;
    join_all(alloc, tree, &properties, joins, others, &mut tuples)?;
    Ok(tuples)
}

// The nodes of the first selector, each as a tuple.
fn first_tuples<'a>(
    alloc: Global,
    tree: &'a Tree,
    properties: &[Name],
    set: &[Name],
) -> Result<Vec<Tuple<'a>>, AllocError>
    requires { properties.now ≡ type_properties }
    ensures { IfOk result (λ tuples. tuples.items ≡ map (λ e. Some e ∷ []) (nodes_of_type tree.now set.now)) }
{
    let spots = nodes_of_type(alloc, tree, properties, set)?;
    let tuples = singles(alloc, &spots)?;
    Ok(tuples)
}

// Joins the tuples of the first selector with the nodes of all others, from left to right.
fn join_all<'a>(
    alloc: Global,
    tree: &'a Tree,
    properties: &[Name],
    joins: &[Join],
    sets: &[Vec<Name>],
    tuples: &mut Vec<Tuple<'a>>,
) -> Result<(), AllocError>
    requires { properties.now ≡ type_properties }
    ensures { OnOk result (tuples.new.items ≡ joined_all tree.now 1 tuples.old.items (zip joins.now (map (λ set. set.items) sets.now))) }
{
    let mut count = 1;
    let mut joins_left = joins;
    let mut sets_left = sets;
    while let [join, more_joins @ ..] = joins_left {
        let [set, more_sets @ ..] = sets_left else {
            break;
        };
        join_one(alloc, tree, properties, join, count, set, tuples)?;
        count += 1;
        joins_left = more_joins;
        sets_left = more_sets;
    }
    Ok(())
}

// Joins tuples with the nodes of one more selector.
fn join_one<'a>(
    alloc: Global,
    tree: &'a Tree,
    properties: &[Name],
    join: &Join,
    count: usize,
    set: &[Name],
    tuples: &mut Vec<Tuple<'a>>,
) -> Result<(), AllocError>
    requires { properties.now ≡ type_properties }
    ensures { OnOk result (tuples.new.items ≡ joined_tuples join.now count tuples.old.items (nodes_of_type tree.now set.now)) }
{
    *tuples = joined_with(alloc, tree, properties, join, count, tuples, set)?;
    Ok(())
}

// Tuples joined with the nodes of one more selector.
fn joined_with<'a>(
    alloc: Global,
    tree: &'a Tree,
    properties: &[Name],
    join: &Join,
    count: usize,
    tuples: &[Tuple<'a>],
    set: &[Name],
) -> Result<Vec<Tuple<'a>>, AllocError>
    requires { properties.now ≡ type_properties }
    ensures { IfOk result (λ all. all.items ≡ joined_tuples join.now count tuples.now (nodes_of_type tree.now set.now)) }
{
    let spots = nodes_of_type(alloc, tree, properties, set)?;
    Ok(joined(alloc, join, count, tuples, &spots)?)
}

/// Each node as a tuple.
pub fn singles<'a>(alloc: Global, spots: &[Spot<'a>]) -> Result<Vec<Tuple<'a>>, AllocError>
    ensures { IfOk result (λ tuples. tuples.items ≡ map (λ e. Some e ∷ []) (map deref_pair spots.now)) }
{
    let mut tuples = Vec::new(alloc);
    for spot in spots {
        add_single(alloc, &mut tuples, *spot)?;
    }
    Ok(tuples)
}

fn add_single<'a>(
    alloc: Global,
    tuples: &mut Vec<Tuple<'a>>,
    spot: Spot<'a>,
) -> Result<(), AllocError>
    ensures { OnOk result (tuples.new.items ≡ tuples.old.items ++ (Some (deref_pair spot.entry) ∷ []) ∷ []) }
{
    add_with(alloc, tuples, &Tuple::new(alloc), Some(spot))
}
