// The order of values, as queries compare and sort them.
ghost use Rattle.std.specs.Prelude.{◌≡◌, ◌↔◌, IsSome};
ghost use Rattle.jr_value.specs.Order.{value_cmp};
ghost use Rattle.jr_value.specs.Values.{kind_of};
ghost use Rattle.jr_value.specs.declared.value.Value.{Value};

use crate::value::Value;
use std::cmp::Ordering;

impl Value {
    /// Which of two values of one kind comes first (JSR 283, 3.6.5 Comparison of Values): LONG and DATE by number,
    /// false before true, BINARY by its bytes, all others by the bytes of their text. An identifier's text orders
    /// as its number does. Values of two kinds have no order. It takes no memory.
    pub fn compare(&self, other: &Value) -> Option<Ordering>
        ensures { result ≡ value_cmp self.now other.now }
    {
        match (self, other) {
            (Value::Str(a), Value::Str(b)) => Some(a.cmp(b)),
            (Value::Binary(a), Value::Binary(b)) => Some(a.cmp(b)),
            (Value::Long(a), Value::Long(b)) => Some(a.cmp(b)),
            (Value::Date(a), Value::Date(b)) => Some(a.cmp(b)),
            (Value::Boolean(a), Value::Boolean(b)) => Some(a.cmp(b)),
            (Value::Name(a), Value::Name(b)) => Some(a.cmp(b)),
            (Value::Path(a), Value::Path(b)) => Some(a.cmp_text(b)),
            (Value::Reference(a), Value::Reference(b)) => Some(a.cmp(b)),
            (Value::WeakReference(a), Value::WeakReference(b)) => Some(a.cmp(b)),
            (Value::Uri(a), Value::Uri(b)) => Some(a.cmp(b)),
            _ => None,
        }
    }
}

/// Two values have an order exactly where they are of one kind.
pub fn values_of_one_kind_have_an_order()
    ensures { (a b : Value) → IsSome (value_cmp a b) ↔ (kind_of a ≡ kind_of b) }
{}
