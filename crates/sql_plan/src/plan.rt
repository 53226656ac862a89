// The rows of a query, by a plan.
ghost use Rattle.std.specs.Prelude.{◌≡◌, ◌∷◌, [], IfOk, IsTrue, Some, false, map};
ghost use Rattle.std.specs.FinMap.{is_sorted};
ghost use Rattle.std.specs.Map.Iter.{deref_pair};
ghost use Rattle.std.specs.Option.{option_copied};
ghost use Rattle.jr_path.specs.Names.{path_cmp};
ghost use Rattle.sql_query.specs.declared.query.JoinKind.TheVariants.{LeftOuter};
ghost use Rattle.sql_eval.specs.Joins.{type_properties};
ghost use Rattle.sql_eval.specs.Rows.{AreRows, filtered};
ghost use Rattle.sql_plan.specs.Early.{asked_early, early_nodes, kind_is, tuples_early};

use crate::early::{asked_early, is_left_outer, nodes_of};
use crate::join::joined;
use jr_path::Name;
use jr_tree::Tree;
use sql_eval::{Row, Spot, Tuple, rows_in_order, singles, that_pass, type_properties};
use sql_query::{Condition, Join, Query};
use std::alloc::{AllocError, Global};

/// The rows of a query over a tree (JSR 283, 6.7 Abstract Query Model), as `sql_eval` defines them: all tuples of nodes
/// of the selectors, joined from left to right, of which the query's constraint holds, each as its cells, in order. The
/// nodes are read once; a join reads an index of the nodes that it adds; what a condition asks of one selector alone
/// is asked before the join, by a range of paths where it asks for one.
pub fn rows_fast(
    alloc: Global,
    query: &Query,
    sets: &[Vec<Name>],
    tree: &Tree,
) -> Result<Vec<Row>, AllocError>
    ensures { IfOk result (λ rows. AreRows query.now (map (λ set. set.items) sets.now) tree.now rows.items) }
{
    let found = found(alloc, query, sets, tree)?;
    rows_in_order(alloc, query, found)
}

// The joined tuples that are as the query asks.
fn found<'a>(
    alloc: Global,
    query: &Query,
    sets: &[Vec<Name>],
    tree: &'a Tree,
) -> Result<Vec<Tuple<'a>>, AllocError>
    ensures { IfOk result (λ tuples. tuples.items ≡ filtered query.now (map (λ set. set.items) sets.now) tree.now) }
{
    let nodes = nodes_in(alloc, tree)?;
    let all = tuples_of(
        alloc,
        query.filter.as_ref(),
        query.joins.as_slice(),
        sets,
        &nodes,
    )?;
    that_pass(alloc, query, all)
}

// The nodes of a tree, in path order.
fn nodes_in<'a>(alloc: Global, tree: &'a Tree) -> Result<Vec<Spot<'a>>, AllocError>
    ensures all { IfOk result (λ nodes. map deref_pair nodes.items ≡ tree.now) }
    ensures sorted { IfOk result (λ nodes. IsTrue (is_sorted path_cmp (map deref_pair nodes.items))) }
{
    let mut nodes = Vec::with_capacity(alloc, tree.len())?;
    for spot in tree.iter() {
        nodes.push(spot)?;
    }
    Ok(nodes)
}

// The tuples of all selectors, joined from left to right, without those that an early question refuses.
fn tuples_of<'a>(
    alloc: Global,
    filter: Option<&Condition>,
    joins: &[Join],
    sets: &[Vec<Name>],
    nodes: &[Spot<'a>],
) -> Result<Vec<Tuple<'a>>, AllocError>
    requires { IsTrue (is_sorted path_cmp (map deref_pair nodes.now)) }
    ensures { IfOk result (λ tuples. tuples.items ≡ tuples_early (option_copied filter.entry) (map deref_pair nodes.now) joins.now (map (λ set. set.items) sets.now)) }
{
    let [first, others @ ..] = sets else {
        return Ok(Vec::new(alloc));
    };
    let properties = type_properties(alloc)?;
    let mut tuples = first_tuples(alloc, filter, joins, &properties, first, nodes)?;
    let mut count = 1;
    let mut joins_left = joins;
    let mut sets_left = others;
    while let [join, more_joins @ ..] = joins_left {
        let [set, more_sets @ ..] = sets_left else {
            break;
        };
        let spots = spots_of(
            alloc,
            filter,
            join,
            more_joins,
            &properties,
            set,
            nodes,
            count,
        )?;
        tuples = joined(alloc, join, count, &tuples, &spots)?;
        count += 1;
        joins_left = more_joins;
        sets_left = more_sets;
    }
    Ok(tuples)
}

// The nodes of the first selector, each as a tuple.
fn first_tuples<'a>(
    alloc: Global,
    filter: Option<&Condition>,
    joins: &[Join],
    properties: &[Name],
    set: &[Name],
    nodes: &[Spot<'a>],
) -> Result<Vec<Tuple<'a>>, AllocError>
    requires properties { properties.now ≡ type_properties }
    requires sorted { IsTrue (is_sorted path_cmp (map deref_pair nodes.now)) }
    ensures { IfOk result (λ tuples. tuples.items ≡ map (λ e. Some e ∷ []) (early_nodes (map deref_pair nodes.now) set.now (asked_early (option_copied filter.entry) 0 false joins.now) 0)) }
{
    let parts = asked_early(alloc, filter, 0, false, joins)?;
    let spots = nodes_of(alloc, nodes, properties, set, &parts, 0)?;
    singles(alloc, &spots)
}

// The nodes of the selector that a join adds.
fn spots_of<'a>(
    alloc: Global,
    filter: Option<&Condition>,
    join: &Join,
    later: &[Join],
    properties: &[Name],
    set: &[Name],
    nodes: &[Spot<'a>],
    selector: usize,
) -> Result<Vec<Spot<'a>>, AllocError>
    requires properties { properties.now ≡ type_properties }
    requires sorted { IsTrue (is_sorted path_cmp (map deref_pair nodes.now)) }
    ensures { IfOk result (λ spots. map deref_pair spots.items ≡ early_nodes (map deref_pair nodes.now) set.now (asked_early (option_copied filter.entry) selector (kind_is LeftOuter join.now.kind) later.now) selector) }
{
    let parts = asked_early(alloc, filter, selector, is_left_outer(join), later)?;
    nodes_of(alloc, nodes, properties, set, &parts, selector)
}
