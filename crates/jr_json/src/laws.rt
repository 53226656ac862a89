// What holds of the JSON of properties both ways.
ghost use Rattle.std.specs.Prelude.{◌≡◌};
ghost use Rattle.serde_json.specs.Data.{Data};
ghost use Rattle.jr_json.specs.Json.{property_data};
ghost use Rattle.jr_json.specs.Reading.{IsPropertyJson};
ghost use Rattle.jr_value.specs.Ranges.{IsReadableProperty};
ghost use Rattle.jr_value.specs.declared.value.Property.{Property};

/// A JSON value is at most one property.
pub fn json_is_at_most_one_property()
    ensures { (d : Data) (p q : Property) → IsPropertyJson d p → IsPropertyJson d q → p ≡ q }
{}

/// The JSON that is printed of a property is read as the property again.
pub fn printed_properties_are_read_back()
    ensures { (p : Property) → IsReadableProperty p → IsPropertyJson (property_data p) p }
{}
