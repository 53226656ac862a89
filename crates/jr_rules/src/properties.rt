// What a node breaks first by its properties: rules 1 to 6.
ghost use Rattle.std.specs.Prelude.{◌≡◌, ◌++◌, ◌∷◌, ◌&&◌, IfOk, None, OnOk, Some, cond, map};
ghost use Rattle.std.specs.List.{filter_map, flat_map, list_any};
ghost use Rattle.std.specs.Map.{keys_of};
ghost use Rattle.jr_items.specs.Names.{mixin_types, primary_type};
ghost use Rattle.jr_items.specs.Items.{is_empty};
ghost use Rattle.jr_types.specs.Registered.{IsAlike};
ghost use Rattle.jr_types.specs.Said.{types_said};
ghost use Rattle.jr_types.specs.Types.{admits, is_named, props_of, types_of};
ghost use Rattle.jr_rules.specs.Checking.{IsFirstBreak, definition_rule, first_break, property_rule};

use crate::broken::{Break, earlier, wanted};
use crate::own_types::{has_bad_mixins, has_bad_primary};
use jr_path::Name;
use jr_tree::Node;
use jr_types::{PropDef, Registry, TypeDef, counting_props, fitting_props, is_of};
use jr_value::Property;
use std::alloc::{AllocError, Global};

// What a node breaks first by its properties.
pub(crate) fn property_break(
    types: &Registry,
    node: &Node,
    its: &[&TypeDef],
) -> Result<Option<Break>, AllocError>
    requires { IsAlike (map (λ d. d.now) its.now) (types_of types.now (types_said node.now)) }
    ensures { IfOk result (IsFirstBreak (property_rule types.now node.now)) }
{
    let props = types.props_of(its)?;
    let names = property_names(types, node, &props)?;
    first_property(types, node, &props, &names)
}

// What a node breaks first by its properties of these names.
fn first_property(
    types: &Registry,
    node: &Node,
    props: &[&PropDef],
    names: &[&Name],
) -> Result<Option<Break>, AllocError>
    requires { IsAlike (map (λ d. d.now) props.now)
        (flat_map props_of (types_of types.now (types_said node.now))) }
    ensures { IfOk result (λ broken. broken
        ≡ first_break (property_rule types.now node.now) (map (λ n. n.now) names.now)) }
{
    let mut first = None;
    for name in names {
        first = earlier(first, property_fault(types, node, props, name)?, name)?;
    }
    Ok(first)
}

// The first rule that a node breaks by its property of that name, or by having none.
fn property_fault(
    types: &Registry,
    node: &Node,
    props: &[&PropDef],
    name: &Name,
) -> Result<Option<u8>, AllocError>
    requires { IsAlike (map (λ d. d.now) props.now)
        (flat_map props_of (types_of types.now (types_said node.now))) }
    ensures { IfOk result (λ rule. rule ≡ property_rule types.now node.now name.now) }
{
    let property = node.props.get(name);
    if has_bad_primary(types, name, property) {
        return Ok(Some(1));
    }
    if has_bad_mixins(types, name, property) {
        return Ok(Some(2));
    }
    match property {
        Some(property) => definition_fault(
            types.alloc(),
            &counting_props(types.alloc(), props, name)?,
            property,
        ),
        None => Ok(missing_property(props, name)),
    }
}

// The names of the two properties that tell the types, of the node's own ones, and of the
// mandatory ones.
fn property_names<'a>(
    types: &'a Registry,
    node: &'a Node,
    props: &[&'a PropDef],
) -> Result<Vec<&'a Name>, AllocError>
    ensures { IfOk result (λ names. map (λ n. n.now) names.items
        ≡ primary_type ∷ mixin_types ∷ keys_of node.now.props
        ++ filter_map (λ d. cond d.mandatory d.name None) (map (λ d. d.now) props.now)) }
{
    let mut names = Vec::new(types.alloc());
    names.push(types.primary_type())?;
    names.push(types.mixin_types())?;
    for (name, _) in node.props.iter() {
        names.push(name)?;
    }
    add_mandatory_props(&mut names, props)?;
    Ok(names)
}

// Puts the names of the mandatory properties behind others.
fn add_mandatory_props<'a>(
    names: &mut Vec<&'a Name>,
    props: &[&'a PropDef],
) -> Result<(), AllocError>
    ensures { OnOk result (map (λ n. n.now) names.new.items
        ≡ map (λ n. n.now) names.old.items
        ++ filter_map (λ d. cond d.mandatory d.name None) (map (λ d. d.now) props.now)) }
{
    for def in props {
        if let Some(name) = wanted(def.mandatory, &def.name) {
            names.push(name)?;
        }
    }
    Ok(())
}

// Rules 3 to 5, for a property with these definitions.
fn definition_fault(
    alloc: Global,
    counting: &[&PropDef],
    property: &Property,
) -> Result<Option<u8>, AllocError>
    ensures { IfOk result (λ rule. rule
        ≡ definition_rule (map (λ d. d.now) counting.now) property.now) }
{
    if counting.is_empty() {
        return Ok(Some(3));
    }
    let fitting = fitting_props(alloc, counting, property)?;
    Ok(constraint_fault(&fitting, property))
}

// Rules 4 and 5, for a property that fits these definitions.
fn constraint_fault(fitting: &[&PropDef], property: &Property) -> Option<u8>
    ensures { result ≡ cond (is_empty fitting.now) (Some 4)
        (cond (list_any (λ d. admits d.now property.now) fitting.now) None (Some 5)) }
{
    if fitting.is_empty() {
        return Some(4);
    }
    if is_admitted(fitting, property) {
        return None;
    }
    Some(5)
}

fn is_admitted(fitting: &[&PropDef], property: &Property) -> bool
    ensures { result ≡ list_any (λ d. admits d.now property.now) fitting.now }
{
    fitting.iter().any(|def| def.admits(property))
}

// Rule 6, for a property that is missing.
fn missing_property(props: &[&PropDef], name: &Name) -> Option<u8>
    ensures { result ≡ cond (list_any
        (λ d. d.now.mandatory && is_named name.now d.now.name) props.now) (Some 6) None }
{
    if is_wanted_among(props, name) {
        return Some(6);
    }
    None
}

fn is_wanted_among(props: &[&PropDef], name: &Name) -> bool
    ensures { result ≡ list_any (λ d. d.now.mandatory && is_named name.now d.now.name) props.now }
{
    props.iter().any(|def| is_wanted_prop(def, name))
}

fn is_wanted_prop(def: &PropDef, name: &Name) -> bool
    ensures { result ≡ (def.now.mandatory && is_named name.now def.now.name) }
{
    def.mandatory && is_of(&def.name, name)
}
