// When two values or two properties are equal.
ghost use Rattle.std.specs.Prelude.{◌≡◌, IsTrue, ◌↔◌};
ghost use Rattle.jr_value.specs.Values.{same_value, same_property};
ghost use Rattle.jr_value.specs.declared.value.Value.{Value};
ghost use Rattle.jr_value.specs.declared.value.Property.{Property};

use crate::value::{Property, Value};

impl PartialEq for Value {
    ghost use Rattle.jr_value.specs.Values.{same_value};
    ghost use Rattle.jr_value.specs.Equality.{values_equivalent};
    ghost use Rattle.std.specs.Cmp.{partial_equiv_from_equiv};

    ghost eq = { same_value };

    ghost laws = { partial_equiv_from_equiv values_equivalent };

    fn eq(&self, other: &Value) -> bool {
        match (self, other) {
            (Value::Str(a), Value::Str(b)) => a == b,
            (Value::Binary(a), Value::Binary(b)) => a == b,
            (Value::Long(a), Value::Long(b)) => a == b,
            (Value::Date(a), Value::Date(b)) => a == b,
            (Value::Boolean(a), Value::Boolean(b)) => a == b,
            (Value::Name(a), Value::Name(b)) => a == b,
            (Value::Path(a), Value::Path(b)) => a == b,
            (Value::Reference(a), Value::Reference(b)) => a == b,
            (Value::WeakReference(a), Value::WeakReference(b)) => a == b,
            (Value::Uri(a), Value::Uri(b)) => a == b,
            _ => false,
        }
    }
}

impl Eq for Value {
    ghost use Rattle.jr_value.specs.Equality.{values_equivalent};

    ghost laws = { values_equivalent };
}

impl PartialEq for Property {
    ghost use Rattle.jr_value.specs.Values.{same_property};
    ghost use Rattle.jr_value.specs.Equality.{properties_equivalent};
    ghost use Rattle.std.specs.Cmp.{partial_equiv_from_equiv};

    ghost eq = { same_property };

    ghost laws = { partial_equiv_from_equiv properties_equivalent };

    fn eq(&self, other: &Property) -> bool {
        match (self, other) {
            (Property::Single(a), Property::Single(b)) => a == b,
            (Property::Many(k, a), Property::Many(l, b)) => k == l && a == b,
            _ => false,
        }
    }
}

impl Eq for Property {
    ghost use Rattle.jr_value.specs.Equality.{properties_equivalent};

    ghost laws = { properties_equivalent };
}

/// Two values are the same exactly where they are equal.
pub fn same_values_are_equal()
    ensures { (a b : Value) → IsTrue (same_value a b) ↔ (a ≡ b) }
{}

/// Two properties are the same exactly where they are equal.
pub fn same_properties_are_equal()
    ensures { (a b : Property) → IsTrue (same_property a b) ↔ (a ≡ b) }
{}
