// How deep the parts of a condition stand inside one another.
ghost use Rattle.std.specs.Prelude.{◌≡◌, ◌+◌, ◌≤◌, max, IfOk, Ok};
ghost use Rattle.sql_parse.specs.Depths.{tested_in};
ghost use Rattle.sql_query.specs.Trees as tree;

use sql_query::{Condition, DEEPEST};
use std::alloc::{AllocError, Global};

// A condition, with how many NOT, AND and OR stand inside one another in it.
#[derive(Drop)]
pub(crate) struct Nested {
    pub(crate) condition: Condition,
    pub(crate) depth: usize,
}

// What stands around conditions of these depths has this depth, where that is no more than DEEPEST.
fn around(first: usize, second: usize) -> Result<usize, AllocError>
    ensures is { IfOk result (λ depth. depth ≡ max first second + 1) }
    ensures shallow { IfOk result (λ depth. depth ≤ DEEPEST) }
{
    let deeper = first.max(second);
    if deeper >= DEEPEST {
        return Err(AllocError);
    }
    Ok(deeper + 1)
}

// Two values, each in a box, and the depth around them, where it has memory.
fn boxed<T: Drop>(
    alloc: Global,
    first: T,
    second: T,
    depth: Result<usize, AllocError>,
) -> Result<(Box<T>, Box<T>, usize), AllocError>
    ensures first { IfOk result (λ boxed. boxed.0.value ≡ first) }
    ensures second { IfOk result (λ boxed. boxed.1.value ≡ second) }
    ensures depth { IfOk result (λ boxed. depth ≡ Ok boxed.2) }
{
    let depth = depth?;
    let first = Box::new(alloc, first)?;
    let second = Box::new(alloc, second)?;
    Ok((first, second, depth))
}

pub(crate) fn not(alloc: Global, inner: Nested) -> Result<Nested, AllocError>
    ensures { IfOk result (λ n. tested_in n ≡ tree.Not (tested_in inner)) }
{
    let depth = around(inner.depth, 0)?;
    let inner = Box::new(alloc, inner.condition)?;
    Ok(Nested {
        condition: Condition::Not(inner),
        depth,
    })
}

pub(crate) fn and(alloc: Global, left: Nested, right: Nested) -> Result<Nested, AllocError>
    ensures { IfOk result (λ n. tested_in n ≡ tree.And (tested_in left) (tested_in right)) }
{
    let depth = around(left.depth, right.depth);
    let (left, right, depth) = boxed(alloc, left.condition, right.condition, depth)?;
    Ok(Nested {
        condition: Condition::And(left, right),
        depth,
    })
}

pub(crate) fn or(alloc: Global, left: Nested, right: Nested) -> Result<Nested, AllocError>
    ensures { IfOk result (λ n. tested_in n ≡ tree.Or (tested_in left) (tested_in right)) }
{
    let depth = around(left.depth, right.depth);
    let (left, right, depth) = boxed(alloc, left.condition, right.condition, depth)?;
    Ok(Nested {
        condition: Condition::Or(left, right),
        depth,
    })
}
