// What rows are ordered by.
ghost use Rattle.std.specs.Prelude.{◌≡◌, ◌∷◌, ◌++◌, [], IfOk, OnOk, map};
ghost use Rattle.sql_eval.specs.Keys.{key_in, key_of, ranked_cmp, ranked_of};

use crate::lists::push;
use crate::operand::{Operated, operand_of};
use crate::order::{Ordered, lists_cmp};
use crate::tuple::Tuple;
use jr_path::List;
use sql_query::{Direction, Order};
use std::alloc::{AllocError, Global};
use std::cmp::Ordering;

/// What an order of a query looks at in a tuple, with its direction.
#[derive(Drop)]
pub(crate) enum Key<'a> {
    Rising(Operated<'a>),
    Falling(Operated<'a>),
}

/// A tuple with its key for each order of a query, the first first.
#[derive(Drop)]
pub(crate) struct Ranked<'a> {
    pub keys: List<Key<'a>>,
    pub tuple: Tuple<'a>,
}

/// A tuple with its keys.
pub(crate) fn ranked_of<'a>(
    alloc: Global,
    orders: &[Order],
    tuple: Tuple<'a>,
) -> Result<Ranked<'a>, AllocError>
    ensures { IfOk result (λ ranked. ranked ≡ ranked_of orders.now tuple.entry) }
{
    let keys = keys_of(alloc, orders, &tuple)?;
    Ok(Ranked {
        keys: List::of(keys),
        tuple,
    })
}

fn keys_of<'a>(
    alloc: Global,
    orders: &[Order],
    tuple: &Tuple<'a>,
) -> Result<Vec<Key<'a>>, AllocError>
    ensures { IfOk result (λ keys. keys.items ≡ map (key_of tuple.now) orders.now) }
{
    let mut keys = Vec::new(alloc);
    for order in orders {
        add_key(alloc, &mut keys, tuple, order)?;
    }
    Ok(keys)
}

fn add_key<'a>(
    alloc: Global,
    keys: &mut Vec<Key<'a>>,
    tuple: &Tuple<'a>,
    order: &Order,
) -> Result<(), AllocError>
    ensures { OnOk result (keys.new.items ≡ keys.old.items ++ key_of tuple.now order.now ∷ []) }
{
    push(keys, key_of(alloc, tuple, order)?)
}

fn key_of<'a>(alloc: Global, tuple: &Tuple<'a>, order: &Order) -> Result<Key<'a>, AllocError>
    ensures { IfOk result (λ key. key ≡ key_of tuple.now order.now) }
{
    let operated = operand_of(alloc, tuple, &order.operand)?;
    Ok(key_in(order.direction, operated))
}

// What an order looks at, in its direction.
fn key_in(direction: Direction, operated: Operated<'_>) -> Key<'_>
    ensures { result ≡ key_in direction operated.entry }
{
    match direction {
        Direction::Ascending => Key::Rising(operated),
        Direction::Descending => Key::Falling(operated),
    }
}

impl<'a> Ordered for Key<'a> {
    ghost use Rattle.sql_eval.specs.Keys.{order_cmp};

    ghost by = { order_cmp };

    fn order(&self, other: &Key<'a>) -> Ordering {
        match (self, other) {
            (Key::Rising(own), Key::Rising(other)) => own.order(other),
            (Key::Falling(own), Key::Falling(other)) => other.order(own),
            (Key::Rising(_), Key::Falling(_)) => Ordering::Less,
            (Key::Falling(_), Key::Rising(_)) => Ordering::Greater,
        }
    }
}

/// The order of two tuples by their keys.
pub(crate) fn keys_cmp(ranked: &Ranked<'_>, other: &Ranked<'_>) -> Ordering
    ensures { result ≡ ranked_cmp ranked.now other.now }
{
    lists_cmp(ranked.keys.as_slice(), other.keys.as_slice())
}
