// What a node breaks first by its children: rules 7 to 9.
ghost use Rattle.std.specs.Prelude.{◌≡◌, ◌++◌, ◌&&◌, IfOk, None, OnOk, Some, cond, map};
ghost use Rattle.std.specs.List.{filter_map, flat_map, list_any};
ghost use Rattle.std.specs.Option.{option_copied};
ghost use Rattle.jr_items.specs.Items.{is_empty};
ghost use Rattle.jr_types.specs.Registered.{IsAlike};
ghost use Rattle.jr_types.specs.Rules.{node_types};
ghost use Rattle.jr_types.specs.Types.{fits_child, is_named, types_of};
ghost use Rattle.jr_rules.specs.Checking.{IsFirstBreak, child_rule, child_rule_among, first_break};
ghost use Rattle.jr_rules.specs.Violations.{is_among_names};

use crate::broken::{Break, earlier, wanted};
use jr_edited::Edited;
use jr_path::{Name, Path};
use jr_types::{ChildDef, Registry, TypeDef, children_of, counting_children, is_of};
use jr_value::Property;
use std::alloc::{AllocError, Global};

// What a node breaks first by its children.
pub(crate) fn child_break(
    types: &Registry,
    tree: &Edited<'_>,
    path: &Path,
    its: &[&TypeDef],
) -> Result<Option<Break>, AllocError>
    requires { IsAlike (map (λ d. d.now) its.now)
        (types_of types.now (node_types tree.now path.now)) }
    ensures { IfOk result (IsFirstBreak (child_rule types.now tree.now path.now)) }
{
    let defs = children_of(types.alloc(), its)?;
    let own = tree.children(path)?;
    let names = child_names(types.alloc(), &own, &defs)?;
    first_child(types, tree, path, &defs, &names)
}

// What a node breaks first by its children of the names that are asked for.
pub(crate) fn child_break_among(
    types: &Registry,
    tree: &Edited<'_>,
    path: &Path,
    its: &[&TypeDef],
    names: &[Name],
) -> Result<Option<Break>, AllocError>
    requires { IsAlike (map (λ d. d.now) its.now)
        (types_of types.now (node_types tree.now path.now)) }
    ensures { IfOk result (IsFirstBreak
        (child_rule_among (is_among_names names.now) types.now tree.now path.now)) }
{
    let defs = children_of(types.alloc(), its)?;
    let names = lent(types.alloc(), names)?;
    first_child(types, tree, path, &defs, &names)
}

// What a node breaks first by its children of these names.
fn first_child(
    types: &Registry,
    tree: &Edited<'_>,
    path: &Path,
    defs: &[&ChildDef],
    names: &[&Name],
) -> Result<Option<Break>, AllocError>
    requires { IsAlike (map (λ d. d.now) defs.now)
        (flat_map (λ d. d.children) (types_of types.now (node_types tree.now path.now))) }
    ensures { IfOk result (λ broken. broken
        ≡ first_break (child_rule types.now tree.now path.now) (map (λ n. n.now) names.now)) }
{
    let mut first = None;
    for name in names {
        first = earlier(first, child_fault(types, tree, path, defs, name)?, name)?;
    }
    Ok(first)
}

// The first rule that a node breaks by its child of that name, or by having none.
fn child_fault(
    types: &Registry,
    tree: &Edited<'_>,
    path: &Path,
    defs: &[&ChildDef],
    name: &Name,
) -> Result<Option<u8>, AllocError>
    requires { IsAlike (map (λ d. d.now) defs.now)
        (flat_map (λ d. d.children) (types_of types.now (node_types tree.now path.now))) }
    ensures { IfOk result (λ rule. rule ≡ child_rule types.now tree.now path.now name.now) }
{
    let child = path.child(name)?;
    if !tree.has(&child) {
        return Ok(missing_child(defs, name));
    }
    let counting = counting_children(types.alloc(), defs, name)?;
    Ok(type_fault_of(
        types,
        &counting,
        tree.property(&child, types.primary_type()),
    ))
}

// Rules 7 and 8, for a child of that primary type with these definitions.
fn type_fault_of(types: &Registry, counting: &[&ChildDef], primary: Option<&Property>) -> Option<u8>
    ensures { result ≡ cond (is_empty counting.now) (Some 7)
        (cond (list_any (λ d. fits_child types.now d.now (option_copied primary.entry))
        counting.now) None (Some 8)) }
{
    if counting.is_empty() {
        return Some(7);
    }
    if is_fit_for(types, counting, primary) {
        return None;
    }
    Some(8)
}

// Whether a child of that primary type is of each required type of one of these definitions.
fn is_fit_for(types: &Registry, counting: &[&ChildDef], primary: Option<&Property>) -> bool
    ensures { result ≡ list_any (λ d. fits_child types.now d.now (option_copied primary.entry))
        counting.now }
{
    counting.iter().any(|def| types.fits_child(def, primary))
}

// The names of children at which a rule may fail: a node's own, and the mandatory ones.
fn child_names<'a>(
    alloc: Global,
    own: &'a [Name],
    defs: &[&'a ChildDef],
) -> Result<Vec<&'a Name>, AllocError>
    ensures { IfOk result (λ names. map (λ n. n.now) names.items
        ≡ own.now ++ filter_map (λ d. cond d.mandatory d.name None) (map (λ d. d.now) defs.now)) }
{
    let mut names = lent(alloc, own)?;
    add_mandatory_children(&mut names, defs)?;
    Ok(names)
}

fn lent<'a>(alloc: Global, own: &'a [Name]) -> Result<Vec<&'a Name>, AllocError>
    ensures { IfOk result (λ names. map (λ n. n.now) names.items ≡ own.now) }
{
    let mut names = Vec::new(alloc);
    for name in own {
        names.push(name)?;
    }
    Ok(names)
}

// Puts the names of the mandatory children behind others.
fn add_mandatory_children<'a>(
    names: &mut Vec<&'a Name>,
    defs: &[&'a ChildDef],
) -> Result<(), AllocError>
    ensures { OnOk result (map (λ n. n.now) names.new.items
        ≡ map (λ n. n.now) names.old.items
        ++ filter_map (λ d. cond d.mandatory d.name None) (map (λ d. d.now) defs.now)) }
{
    for def in defs {
        if let Some(name) = wanted(def.mandatory, &def.name) {
            names.push(name)?;
        }
    }
    Ok(())
}

// Rule 9, for a child that is missing.
fn missing_child(defs: &[&ChildDef], name: &Name) -> Option<u8>
    ensures { result ≡ cond (list_any
        (λ d. d.now.mandatory && is_named name.now d.now.name) defs.now) (Some 9) None }
{
    if is_wanted_below(defs, name) {
        return Some(9);
    }
    None
}

fn is_wanted_below(defs: &[&ChildDef], name: &Name) -> bool
    ensures { result ≡ list_any (λ d. d.now.mandatory && is_named name.now d.now.name) defs.now }
{
    defs.iter().any(|def| is_wanted_child(def, name))
}

fn is_wanted_child(def: &ChildDef, name: &Name) -> bool
    ensures { result ≡ (def.now.mandatory && is_named name.now def.now.name) }
{
    def.mandatory && is_of(&def.name, name)
}
