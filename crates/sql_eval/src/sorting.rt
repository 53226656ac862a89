// Tuples in order.
ghost use Rattle.std.specs.Prelude.{◌≡◌, ◌∷◌, ◌++◌, [], IfOk, OnOk, map};
ghost use Rattle.sql_eval.specs.Keys.{ranked_of};
ghost use Rattle.sql_eval.specs.Rows.{IsStablySorted, by_orders, by_paths};

use crate::key::{Ranked, keys_cmp, ranked_of};
use crate::lists::push;
use crate::tuple::{Tuple, paths_cmp};
use sql_query::Order;
use std::alloc::{AllocError, Global};

/// Puts tuples in the order of the paths of their nodes.
pub(crate) fn sort_by_paths(tuples: &mut Vec<Tuple<'_>>) -> Result<(), AllocError>
    ensures { OnOk result (IsStablySorted by_paths tuples.old.items tuples.new.items) }
{
    tuples.sort_by(|tuple, other| paths_cmp(tuple, other))?;
    Ok(())
}

/// Puts tuples in the orders of a query, those that tie as they stood.
pub(crate) fn sorted_by_orders<'a>(
    alloc: Global,
    orders: &[Order],
    tuples: Vec<Tuple<'a>>,
) -> Result<Vec<Tuple<'a>>, AllocError>
    ensures { IfOk result (λ sorted. IsStablySorted (by_orders orders.now) tuples.entry.items sorted.items) }
{
    let mut ranked = ranked(alloc, orders, tuples)?;
    ranked.sort_by(|one, other| keys_cmp(one, other))?;
    tuples_in(alloc, ranked)
}

// The tuples with their keys.
fn ranked<'a>(
    alloc: Global,
    orders: &[Order],
    tuples: Vec<Tuple<'a>>,
) -> Result<Vec<Ranked<'a>>, AllocError>
    ensures { IfOk result (λ ranked. ranked.items ≡ map (ranked_of orders.now) tuples.entry.items) }
{
    let mut ranked = Vec::new(alloc);
    for tuple in tuples {
        add_ranked(alloc, &mut ranked, orders, tuple)?;
    }
    Ok(ranked)
}

fn add_ranked<'a>(
    alloc: Global,
    ranked: &mut Vec<Ranked<'a>>,
    orders: &[Order],
    tuple: Tuple<'a>,
) -> Result<(), AllocError>
    ensures { OnOk result (ranked.new.items ≡ ranked.old.items ++ ranked_of orders.now tuple.entry ∷ []) }
{
    push(ranked, ranked_of(alloc, orders, tuple)?)
}

// The tuples without their keys.
fn tuples_in<'a>(alloc: Global, ranked: Vec<Ranked<'a>>) -> Result<Vec<Tuple<'a>>, AllocError>
    ensures { IfOk result (λ tuples. tuples.items ≡ map (λ r. r.tuple) ranked.entry.items) }
{
    let mut tuples = Vec::new(alloc);
    for one in ranked {
        push(&mut tuples, one.tuple)?;
    }
    Ok(tuples)
}
