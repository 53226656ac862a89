// The rows of a query.
ghost use Rattle.std.specs.Prelude.{◌≡◌, ◌∷◌, ◌++◌, [], true, IfOk, OnOk, map};
ghost use Rattle.std.specs.List.{filter};
ghost use Rattle.std.specs.Map.Iter.{deref_pair};
ghost use Rattle.std.specs.Option.{option_copied, option_map, option_map_or};
ghost use Rattle.sql_eval.specs.Conditions.{holds};
ghost use Rattle.sql_eval.specs.declared.row.Cell.TheVariants as cell;
ghost use Rattle.sql_eval.specs.Rows.{AreRows, AreRowsOf, cell_of, filtered, row_of, that_pass};

use crate::condition::holds;
use crate::join::tuples_of;
use crate::lists::push;
use crate::row::{Cell, Row};
use crate::sorting::{sort_by_paths, sorted_by_orders};
use crate::tuple::{Spot, Tuple};
use jr_path::{DeepCopy, List, Name};
use jr_tree::Tree;
use jr_value::Property;
use sql_query::{Column, Condition, Query};
use std::alloc::{AllocError, Global};

/// The rows of a query over a tree (JSR 283, 6.7 Abstract Query Model): all tuples of nodes of the selectors, joined
/// from left to right, of which the query's constraint holds, each as its cells. They stand by the orders of the
/// query, and where these tie, or there are none, by the paths of their nodes in the order of the selectors, a
/// missing node first. `sets` has for each selector the names of its type and of all subtypes.
pub fn rows(
    alloc: Global,
    query: &Query,
    sets: &[Vec<Name>],
    tree: &Tree,
) -> Result<Vec<Row>, AllocError>
    ensures { IfOk result (λ rows. AreRows query.now (map (λ set. set.items) sets.now) tree.now rows.items) }
{
    let found = filtered(alloc, query, sets, tree)?;
    rows_in_order(alloc, query, found)
}

/// The tuples that a query found as its rows: by the paths of their nodes, and then by the orders of the query, those
/// that tie as they stood.
pub fn rows_in_order(
    alloc: Global,
    query: &Query,
    found: Vec<Tuple<'_>>,
) -> Result<Vec<Row>, AllocError>
    ensures { IfOk result (λ rows. AreRowsOf query.now found.entry.items rows.items) }
{
    let mut tuples = found;
    sort_by_paths(&mut tuples)?;
    let tuples = sorted_by_orders(alloc, query.orders.as_slice(), tuples)?;
    Ok(rows_of(alloc, query.columns.as_slice(), &tuples)?)
}

// The joined tuples that are as the query asks.
fn filtered<'a>(
    alloc: Global,
    query: &Query,
    sets: &[Vec<Name>],
    tree: &'a Tree,
) -> Result<Vec<Tuple<'a>>, AllocError>
    ensures { IfOk result (λ tuples. tuples.items ≡ filtered query.now (map (λ set. set.items) sets.now) tree.now) }
{
    let all = tuples_of(alloc, tree, query.joins.as_slice(), sets)?;
    that_pass(alloc, query, all)
}

/// The tuples of which a query's constraint holds, or all where it has none.
pub fn that_pass<'a>(
    alloc: Global,
    query: &Query,
    all: Vec<Tuple<'a>>,
) -> Result<Vec<Tuple<'a>>, AllocError>
    ensures { IfOk result (λ tuples. tuples.items ≡ that_pass query.now.filter all.entry.items) }
{
    match &query.filter {
        None => Ok(all),
        Some(condition) => that_hold(alloc, condition, all),
    }
}

fn that_hold<'a>(
    alloc: Global,
    condition: &Condition,
    all: Vec<Tuple<'a>>,
) -> Result<Vec<Tuple<'a>>, AllocError>
    ensures { IfOk result (λ tuples. tuples.items ≡ filter (λ t. holds t condition.now) all.entry.items) }
{
    let mut tuples = Vec::new(alloc);
    for tuple in all {
        if holds(alloc, &tuple, condition)? {
            push(&mut tuples, tuple)?;
        }
    }
    Ok(tuples)
}

fn rows_of(alloc: Global, columns: &[Column], tuples: &[Tuple<'_>]) -> Result<Vec<Row>, AllocError>
    ensures { IfOk result (λ rows. rows.items ≡ map (row_of columns.now) tuples.now) }
{
    let mut rows = Vec::new(alloc);
    for tuple in tuples {
        push(&mut rows, row_of(alloc, columns, tuple)?)?;
    }
    Ok(rows)
}

fn row_of(alloc: Global, columns: &[Column], tuple: &Tuple<'_>) -> Result<Row, AllocError>
    ensures { IfOk result (λ row. row ≡ row_of columns.now tuple.now) }
{
    let mut cells = Vec::new(alloc);
    for column in columns {
        push(&mut cells, cell_of(tuple, column)?)?;
    }
    Ok(Row {
        cells: List::of(cells),
    })
}

fn cell_of(tuple: &Tuple<'_>, column: &Column) -> Result<Cell, AllocError>
    ensures { IfOk result (λ cell. cell ≡ cell_of tuple.now column.now) }
{
    match column {
        Column::Node(selector) => node_cell(tuple.spot(*selector)),
        Column::Property(property) => property_cell(tuple.property(property)),
    }
}

// The path of a node, where there is one.
fn node_cell(spot: Option<Spot<'_>>) -> Result<Cell, AllocError>
    ensures { IfOk result (λ made. made ≡ option_map_or (λ e. cell.Node e.0) (option_map deref_pair spot.entry) cell.Null) }
{
    match spot {
        Some((path, _)) => Ok(Cell::Node(path.copy()?)),
        None => Ok(Cell::Null),
    }
}

// A property, where there is one.
fn property_cell(property: Option<&Property>) -> Result<Cell, AllocError>
    ensures { IfOk result (λ made. made ≡ option_map_or cell.Value (option_copied property.entry) cell.Null) }
{
    match property {
        Some(property) => Ok(Cell::Value(property.copy()?)),
        None => Ok(Cell::Null),
    }
}
