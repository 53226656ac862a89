// What is asked of a tuple.
ghost use Rattle.std.specs.Prelude.{◌≡◌, IfOk};
ghost use Rattle.std.specs.Map.Iter.{deref_pair};
ghost use Rattle.std.specs.Option.{option_map, option_map_or};
ghost use Rattle.sql_eval.specs.Conditions.{holds, is_child, is_descendant, is_same_node, operand_of, path_passes};
ghost use Rattle.sql_values.specs.Values.{some_compares};

use crate::operand::operand_of;
use crate::tuple::{Spot, Tuple};
use jr_path::Path;
use jr_tree::is_child;
use jr_value::Value;
use sql_query::{Condition, Operand, Operator};
use sql_values::some_compares;
use std::alloc::{AllocError, Global};

/// Whether a tuple is as a condition asks (JSR 283, 6.7.12 Constraint).
pub fn holds(alloc: Global, tuple: &Tuple<'_>, condition: &Condition) -> Result<bool, AllocError>
    ensures { IfOk result (λ so. so ≡ holds tuple.now condition.now) }
{
    match condition {
        Condition::Not(inner) => match holds(alloc, tuple, inner) {
            Ok(so) => Ok(!so),
            refused => refused,
        },
        Condition::And(first, second) => match holds(alloc, tuple, first) {
            Ok(true) => holds(alloc, tuple, second),
            answer => answer,
        },
        Condition::Or(first, second) => match holds(alloc, tuple, first) {
            Ok(false) => holds(alloc, tuple, second),
            answer => answer,
        },
        Condition::Has(property) => Ok(tuple.property(property).is_some()),
        Condition::Compare(operand, operator, value) => {
            is_compared(alloc, tuple, operand, *operator, value)
        }
        Condition::Same(selector, path) => Ok(is_spot_same(tuple.spot(*selector), path)),
        Condition::Child(selector, path) => Ok(is_spot_child(tuple.spot(*selector), path)),
        Condition::Descendant(selector, path) => {
            Ok(is_spot_descendant(tuple.spot(*selector), path))
        }
    }
}

// Whether an operand compares so with a value in a tuple.
fn is_compared(
    alloc: Global,
    tuple: &Tuple<'_>,
    operand: &Operand,
    operator: Operator,
    value: &Value,
) -> Result<bool, AllocError>
    ensures { IfOk result (λ so. so ≡ some_compares operator (operand_of tuple.now operand.now) value.now) }
{
    let operated = operand_of(alloc, tuple, operand)?;
    some_compares(alloc, operator, operated.values(), value)
}

/// Whether there is a node and it is the one at a path (JSR 283, 6.7.20 SameNode).
pub(crate) fn is_spot_same(spot: Option<Spot<'_>>, other: &Path) -> bool
    ensures { result ≡ path_passes (λ p. is_same_node p other.now) (option_map deref_pair spot.entry) }
{
    match spot {
        Some((path, _)) => path == other,
        None => false,
    }
}

/// Whether there is a node and it is a child of the one at a path (JSR 283, 6.7.21 ChildNode).
pub(crate) fn is_spot_child(spot: Option<Spot<'_>>, other: &Path) -> bool
    ensures { result ≡ path_passes (λ p. is_child p other.now) (option_map deref_pair spot.entry) }
{
    match spot {
        Some((path, _)) => is_child(other, path),
        None => false,
    }
}

/// Whether there is a node and it is below the one at a path (JSR 283, 6.7.22 DescendantNode).
pub(crate) fn is_spot_descendant(spot: Option<Spot<'_>>, other: &Path) -> bool
    ensures { result ≡ path_passes (λ p. is_descendant p other.now) (option_map deref_pair spot.entry) }
{
    match spot {
        Some((path, _)) => path.is_under(other) && path != other,
        None => false,
    }
}
