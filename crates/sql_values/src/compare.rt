// How values compare, and how the values of operands are ordered.
ghost use Rattle.std.specs.Prelude.{◌≡◌, IfOk, List as Seq};
ghost use Rattle.std.specs.List.{list_any};
ghost use Rattle.std.specs.Option.{option_copied, option_map_or};
ghost use Rattle.jr_path.specs.Ids.{path_text};
ghost use Rattle.jr_value.specs.Values.{kind_number};
ghost use Rattle.sql_query.specs.declared.query.Operator.TheVariants as op;
ghost use Rattle.sql_values.specs.Patterns.{is_like};
ghost use Rattle.sql_values.specs.Values.{compares, is_ordered, kinds_first, order_is, value_like, values_in, values_of};

use crate::like::is_like;
use jr_path::Path;
use jr_value::{Kind, Property, Value};
use sql_query::Operator;
use std::alloc::{AllocError, Global};
use std::cmp::Ordering;

// Whether a value compares so with another (JSR 283, 6.7.16 Comparison). Values of two kinds never do. Only LIKE
// takes memory.
fn compares(
    alloc: Global,
    operator: Operator,
    value: &Value,
    other: &Value,
) -> Result<bool, AllocError>
    ensures { IfOk result (λ so. so ≡ compares operator value.now other.now) }
{
    match operator {
        Operator::Like => value_like(alloc, value, other),
        _ => Ok(is_ordered(operator, value.compare(other))),
    }
}

// Whether there is an order and it is as the operator asks.
fn is_ordered(operator: Operator, order: Option<Ordering>) -> bool
    ensures { result ≡ is_ordered operator order }
{
    match order {
        Some(order) => order_is(operator, order),
        None => false,
    }
}

fn order_is(operator: Operator, order: Ordering) -> bool
    ensures { result ≡ order_is operator order }
{
    match operator {
        Operator::Equal => order.is_eq(),
        Operator::Unequal => order.is_ne(),
        Operator::Less => order.is_lt(),
        Operator::AtMost => order.is_le(),
        Operator::Greater => order.is_gt(),
        Operator::AtLeast => order.is_ge(),
        Operator::Like => false,
    }
}

fn value_like(alloc: Global, value: &Value, pattern: &Value) -> Result<bool, AllocError>
    ensures { IfOk result (λ like. like ≡ value_like value.now pattern.now) }
{
    match (value, pattern) {
        (Value::Str(text), Value::Str(like)) => is_like(alloc, text.as_str(), like.as_str()),
        (Value::Name(name), Value::Name(like)) => is_like(alloc, name.as_str(), like.as_str()),
        (Value::Path(path), Value::Path(like)) => path_like(alloc, path, like),
        (Value::Uri(text), Value::Uri(like)) => is_like(alloc, text.as_str(), like.as_str()),
        _ => Ok(false),
    }
}

// Whether the text of a path is like that of a pattern.
fn path_like(alloc: Global, path: &Path, pattern: &Path) -> Result<bool, AllocError>
    ensures { IfOk result (λ like. like ≡ is_like (path_text path.now) (path_text pattern.now)) }
{
    text_like(alloc, path.text()?.as_str(), pattern)
}

fn text_like(alloc: Global, text: &str, pattern: &Path) -> Result<bool, AllocError>
    ensures { IfOk result (λ like. like ≡ is_like text.now (path_text pattern.now)) }
{
    is_like(alloc, text, pattern.text()?.as_str())
}

/// The values of a property.
pub fn values_of(property: &Property) -> &[Value]
    ensures { result.now ≡ values_of property.now }
{
    match property {
        Property::Single(value) => std::slice::from_ref(value),
        Property::Many(_, values) => values.as_slice(),
    }
}

/// The values of a property; a missing one has none.
pub fn values_in(property: Option<&Property>) -> &[Value]
    ensures { result.now ≡ values_in (option_copied property.entry) }
{
    match property {
        Some(property) => values_of(property),
        None => &[],
    }
}

/// Whether one of the values compares so with another.
pub fn some_compares(
    alloc: Global,
    operator: Operator,
    values: &[Value],
    other: &Value,
) -> Result<bool, AllocError>
    ensures { IfOk result (λ so. so ≡ list_any (λ x. compares operator x other.now) values.now) }
{
    let mut left = values;
    while let [value, rest @ ..] = left {
        if compares(alloc, operator, value, other)? {
            return Ok(true);
        }
        left = rest;
    }
    Ok(false)
}

// Whether one of the values equals another.
fn contains(values: &[Value], other: &Value) -> bool
    ensures { result ≡ list_any (λ x. compares op.Equal x other.now) values.now }
{
    let mut left = values;
    while let [value, rest @ ..] = left {
        if is_ordered(Operator::Equal, value.compare(other)) {
            return true;
        }
        left = rest;
    }
    false
}

/// Whether one of the values equals one of the others.
pub fn some_equal(values: &[Value], others: &[Value]) -> bool
    ensures { result ≡ list_any (λ y. list_any (λ x. compares op.Equal x y) values.now) others.now }
{
    let mut left = others;
    while let [other, rest @ ..] = left {
        if contains(values, other) {
            return true;
        }
        left = rest;
    }
    false
}

// The number of a kind in the order of kinds (JSR 283, 3.6.1 Property Types).
fn kind_number(kind: Kind) -> u8
    ensures { result ≡ kind_number kind }
{
    match kind {
        Kind::Str => 1,
        Kind::Binary => 2,
        Kind::Long => 3,
        Kind::Date => 5,
        Kind::Boolean => 6,
        Kind::Name => 7,
        Kind::Path => 8,
        Kind::Reference => 9,
        Kind::WeakReference => 10,
        Kind::Uri => 11,
    }
}

/// The order of two values: by the number of their kind, and within one kind by their order.
pub fn kinds_first(value: &Value, other: &Value) -> Ordering
    ensures { result ≡ kinds_first value.now other.now }
{
    let kinds = kind_number(value.kind()).cmp(&kind_number(other.kind()));
    match value.compare(other) {
        Some(order) => kinds.then(order),
        None => kinds,
    }
}
