// Lists in order, item by item.
ghost use Rattle.std.specs.Prelude.{◌≡◌};
ghost use Rattle.std.specs.Cmp.Lexicographic.{slice_cmp};

use jr_value::Value;
use sql_values::kinds_first;
use std::cmp::Ordering;

/// What rows are ordered by.
pub(crate) trait Ordered {
    ghost use Rattle.std.specs.declared.cmp.Ordering.{Ordering as Order};

    ghost by: { Self → Self → Order };

    fn order(&self, other: &Self) -> Ordering
        ensures { result ≡ by self.now other.now };
}

/// The order of two lists, item by item, in which a list that another begins with comes first.
pub(crate) fn lists_cmp<T: Ordered>(items: &[T], others: &[T]) -> Ordering
    ensures { result ≡ slice_cmp T.by items.now others.now }
{
    let mut left = items;
    let mut right = others;
    loop {
        match left {
            [] => match right {
                [] => return Ordering::Equal,
                [_, ..] => return Ordering::Less,
            },
            [item, rest @ ..] => match right {
                [] => return Ordering::Greater,
                [other, more @ ..] => {
                    let order = item.order(other);
                    if order.is_ne() {
                        return order;
                    }
                    left = rest;
                    right = more;
                }
            },
        }
    }
}

impl Ordered for Value {
    ghost use Rattle.sql_values.specs.Values.{kinds_first};

    ghost by = { kinds_first };

    fn order(&self, other: &Value) -> Ordering {
        kinds_first(self, other)
    }
}
