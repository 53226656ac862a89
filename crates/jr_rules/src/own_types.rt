// Rules 1 and 2, of the two properties that tell a node's types.
ghost use Rattle.std.specs.Prelude.{◌≡◌, ◌&&◌, false, not};
ghost use Rattle.std.specs.List.{filter_map, list_all, list_any};
ghost use Rattle.std.specs.Option.{option_copied, option_map_or};
ghost use Rattle.jr_items.specs.Names.{mixin_types, primary_type};
ghost use Rattle.jr_items.specs.Items.{name_in, same_name};
ghost use Rattle.jr_types.specs.Rules.{are_distinct, are_mixins, is_mixin, is_primary_type};
ghost use Rattle.jr_types.specs.Types.{type_named};

use jr_path::Name;
use jr_types::{Registry, name_in, one_name};
use jr_value::{Kind, Property, Value};

// Rule 1: the property is the primary type, and none that nodes may have.
pub(crate) fn has_bad_primary(types: &Registry, name: &Name, property: Option<&Property>) -> bool
    ensures { result ≡ (same_name name.now primary_type
        && not (is_primary_type types.now (option_copied property.entry))) }
{
    if *name == *types.primary_type() {
        return !is_primary_type(types, property);
    }
    false
}

// Whether a property is one NAME, of a registered type that is neither a mixin nor abstract.
fn is_primary_type(types: &Registry, property: Option<&Property>) -> bool
    ensures { result ≡ is_primary_type types.now (option_copied property.entry) }
{
    match one_name(property) {
        Some(name) => may_be_primary(types, name),
        None => false,
    }
}

fn may_be_primary(types: &Registry, name: &Name) -> bool
    ensures { result ≡ option_map_or (λ d. not d.mixin && not d.is_abstract)
        (type_named types.now name.now) false }
{
    match types.get(name) {
        Some(definition) => !definition.mixin && !definition.is_abstract,
        None => false,
    }
}

// Rule 2: the property is the list of mixins, and no list of distinct NAMEs of registered
// mixins.
pub(crate) fn has_bad_mixins(types: &Registry, name: &Name, property: Option<&Property>) -> bool
    ensures { result ≡ (same_name name.now mixin_types
        && not (are_mixins types.now (option_copied property.entry))) }
{
    if *name == *types.mixin_types() {
        return !are_mixins(types, property);
    }
    false
}

fn are_mixins(types: &Registry, property: Option<&Property>) -> bool
    ensures { result ≡ are_mixins types.now (option_copied property.entry) }
{
    match property {
        None => true,
        Some(Property::Single(_)) => false,
        Some(Property::Many(kind, values)) => *kind == Kind::Name
            && are_all_mixins(types, values.as_slice())
            && are_distinct(values.as_slice()),
    }
}

// Whether each value is the NAME of a registered mixin.
fn are_all_mixins(types: &Registry, values: &[Value]) -> bool
    ensures { result ≡ list_all (λ x. option_map_or (is_mixin types.now) (name_in x) false)
        values.now }
{
    values.iter().all(|value| is_mixin_name(types, value))
}

fn is_mixin_name(types: &Registry, value: &Value) -> bool
    ensures { result ≡ option_map_or (is_mixin types.now) (name_in value.now) false }
{
    match name_in(value) {
        Some(name) => types.is_mixin(name),
        None => false,
    }
}

// Whether no two of the values are one NAME.
fn are_distinct(values: &[Value]) -> bool
    ensures { result ≡ are_distinct (filter_map name_in values.now) }
{
    match values {
        [] => true,
        [first, rest @ ..] => !is_among(rest, first) && are_distinct(rest),
    }
}

// Whether the value is a NAME that is among the others.
fn is_among(others: &[Value], value: &Value) -> bool
    ensures { result ≡ option_map_or
        (λ n. list_any (λ x. option_map_or (same_name n) (name_in x) false) others.now)
        (name_in value.now) false }
{
    match name_in(value) {
        Some(name) => is_name_among(others, name),
        None => false,
    }
}

fn is_name_among(others: &[Value], name: &Name) -> bool
    ensures { result ≡ list_any (λ x. option_map_or (same_name name.now) (name_in x) false)
        others.now }
{
    others.iter().any(|other| is_the_name(other, name))
}

fn is_the_name(value: &Value, name: &Name) -> bool
    ensures { result ≡ option_map_or (same_name name.now) (name_in value.now) false }
{
    match name_in(value) {
        Some(other) => name == other,
        None => false,
    }
}
