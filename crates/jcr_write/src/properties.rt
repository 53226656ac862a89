// Setting and unsetting properties.
ghost use Rattle.std.specs.Prelude.{◌≡◌, IfErr, IfOk, None, Ok, OnOk, Some, false, map, option_and_then, option_map};
ghost use Rattle.std.specs.List.{filter, list_any};
ghost use Rattle.std.specs.Option.{option_map_or};
ghost use Rattle.jr_value.specs.Values.{kind_of_property};
ghost use Rattle.jr_items.specs.Items.{first_of, property_of};
ghost use Rattle.jr_items.specs.Refusals.{IsTheRefusal, wrong_kind};
ghost use Rattle.jr_types.specs.Registered.{IsAlike};
ghost use Rattle.jr_types.specs.Types.{is_named, prop_def};
ghost use Rattle.jr_overlay.specs.Overlays.{sighted};
ghost use Rattle.jcr_write.specs.Places.{IsDueRefusal, types_of_node, unless_refused, with_property, without_property};
ghost use Rattle.jcr_write.specs.Writes.{defs_refusal, lets_kind, named_defs, node_set, node_unset, other_kind, set_made, set_refusal, unset_made, unset_refusal};

use crate::places::{
    check_place, no_item_named, or_memory, put_node, with_property, without_property,
};
use jr_items::{own_item_rule, wrong_kind};
use jr_overlay::Draft;
use jr_path::{Name, Path};
use jr_tree::{Node, Refusal};
use jr_types::{PropDef, Registry};
use jr_value::{Kind, Property};
use std::alloc::{AllocError, Global};

/// Sets a property of a node (JSR 283, 10.4.2 Adding and Setting Properties). Refused, in this order: 15 where the path
/// is too deep or too long, 4 where it is the repository's own, 1 where there is no node; 4 where a definition of that
/// very name is protected; 5 where there are definitions of that very name and each requires another kind, with the
/// kind of the first. After a refusal the draft is to be dropped.
#[tactic(auto, using(crate::proofs::Due::put_result, crate::proofs::Due::put_err, crate::proofs::Due::memory_result))]
pub fn set(
    alloc: Global,
    types: &Registry,
    draft: &mut Draft<'_>,
    path: &Path,
    name: &Name,
    property: Property,
) -> Result<(), Refusal>
    ensures sight { draft.new.sight ≡ draft.old.sight }
    ensures ok { OnOk result (set_made types.now (sighted draft.old.sight) draft.old.steps path.now
        name.now property ≡ Ok draft.new.steps) }
    ensures err { IfErr result (IsDueRefusal (set_made types.now (sighted draft.old.sight)
        draft.old.steps path.now name.now property)) }
{
    match node_set(alloc, types, draft, path, name, property) {
        Ok(node) => put_node(alloc, draft, path, node),
        Err(refusal) => Err(refusal),
    }
}

/// Takes a property of a node away (JSR 283, 10.4.2.5 Removing Properties). Refused, in this order: 15 where the path is
/// too deep or too long, 4 where it is the repository's own, 1 where there is no node; 1 with the property's path where
/// there is none; 4 where the definition that it goes by is protected. After a refusal the draft is to be dropped.
#[tactic(auto, using(crate::proofs::Due::put_result, crate::proofs::Due::put_err, crate::proofs::Due::memory_result))]
pub fn unset(
    alloc: Global,
    types: &Registry,
    draft: &mut Draft<'_>,
    path: &Path,
    name: &Name,
) -> Result<(), Refusal>
    ensures sight { draft.new.sight ≡ draft.old.sight }
    ensures ok { OnOk result (unset_made types.now (sighted draft.old.sight) draft.old.steps
        path.now name.now ≡ Ok draft.new.steps) }
    ensures err { IfErr result (IsDueRefusal (unset_made types.now (sighted draft.old.sight)
        draft.old.steps path.now name.now)) }
{
    match node_unset(alloc, types, draft, path, name) {
        Ok(node) => put_node(alloc, draft, path, node),
        Err(refusal) => Err(refusal),
    }
}

// The node with the property set.
fn node_set(
    alloc: Global,
    types: &Registry,
    draft: &Draft<'_>,
    path: &Path,
    name: &Name,
    property: Property,
) -> Result<Node, Refusal>
    ensures ok { IfOk result (λ node. node_set types.now (sighted draft.now.sight) draft.now.steps
        path.now name.now property ≡ Ok node) }
    ensures err { IfErr result (IsDueRefusal (node_set types.now (sighted draft.now.sight)
        draft.now.steps path.now name.now property)) }
{
    match check_place(alloc, draft, path) {
        Ok(node) => set_in(alloc, types, node, path, name, property),
        Err(refusal) => Err(refusal),
    }
}

// A node with a property set, where it may be.
#[tactic(auto, using(crate::proofs::Due::refused_due, crate::proofs::Due::made_ok, crate::proofs::Due::memory_result))]
fn set_in(
    alloc: Global,
    types: &Registry,
    node: &Node,
    path: &Path,
    name: &Name,
    property: Property,
) -> Result<Node, Refusal>
    ensures ok { IfOk result (λ made.
        unless_refused (set_refusal types.now path.now name.now property node.now)
        (Ok (with_property node.now name.now property)) ≡ Ok made) }
    ensures err { IfErr result (IsDueRefusal
        (unless_refused (set_refusal types.now path.now name.now property node.now)
        (Ok (with_property node.now name.now property)))) }
{
    match check_set(alloc, types, node, path, name, &property) {
        Ok(()) => or_memory(alloc, with_property(node, name, property)),
        Err(refusal) => Err(refusal),
    }
}

// A property may be set.
#[tactic(auto, using(crate::proofs::Defs::alike_none, crate::proofs::Defs::alike_err))]
fn check_set(
    alloc: Global,
    types: &Registry,
    node: &Node,
    path: &Path,
    name: &Name,
    property: &Property,
) -> Result<(), Refusal>
    ensures ok { OnOk result
        (set_refusal types.now path.now name.now property.now node.now ≡ None) }
    ensures err { IfErr result (IsTheRefusal
        (set_refusal types.now path.now name.now property.now node.now)) }
{
    match named_defs(alloc, types, node, name) {
        Ok(defs) => check_defs(alloc, &defs, path, name, property),
        Err(AllocError) => Err(Refusal::memory(alloc)),
    }
}

// The definitions of that very name, some of them maybe once where several types have them.
fn named_defs<'a>(
    alloc: Global,
    types: &'a Registry,
    node: &Node,
    name: &Name,
) -> Result<Vec<&'a PropDef>, AllocError>
    ensures { IfOk result (λ defs. IsAlike (map (λ d. d.now) defs.items)
        (named_defs (types_of_node types.now node.now) name.now)) }
{
    let among = types.types_of(node)?;
    let defs = types.props_of(&among)?;
    defs_named(alloc, &defs, name)
}

// Those of the definitions that have that name.
fn defs_named<'a>(
    alloc: Global,
    defs: &[&'a PropDef],
    name: &Name,
) -> Result<Vec<&'a PropDef>, AllocError>
    ensures { IfOk result (λ named. map (λ d. d.now) named.items
        ≡ filter (λ d. is_named name.now d.name) (map (λ d. d.now) defs.now)) }
{
    let mut named = Vec::new(alloc);
    for def in defs {
        if is_of(&def.name, name) {
            named.push(*def)?;
        }
    }
    Ok(named)
}

fn is_of(own: &Option<Name>, name: &Name) -> bool
    ensures { result ≡ is_named name.now own.now }
{
    match own {
        Some(own) => name == own,
        None => false,
    }
}

// A property may be set by these definitions of its name.
fn check_defs(
    alloc: Global,
    defs: &[&PropDef],
    path: &Path,
    name: &Name,
    property: &Property,
) -> Result<(), Refusal>
    ensures ok { OnOk result (defs_refusal (map (λ d. d.now) defs.now) path.now name.now
        property.now ≡ None) }
    ensures err { IfErr result (IsTheRefusal
        (defs_refusal (map (λ d. d.now) defs.now) path.now name.now property.now)) }
{
    if is_one_protected(defs) {
        return Err(own_item_rule(alloc, path, name));
    }
    check_kind(alloc, defs, property)
}

// Whether one of the definitions is protected.
fn is_one_protected(defs: &[&PropDef]) -> bool
    ensures { result ≡ list_any (λ d. d.now.protected) defs.now }
{
    defs.iter().any(|def| def.protected)
}

// One of the definitions lets the property be of its kind, or there are none.
fn check_kind(alloc: Global, defs: &[&PropDef], property: &Property) -> Result<(), Refusal>
    ensures ok { OnOk result (option_map (λ k. wrong_kind k (kind_of_property property.now))
        (other_kind (map (λ d. d.now) defs.now) property.now) ≡ None) }
    ensures err { IfErr result (IsTheRefusal
        (option_map (λ k. wrong_kind k (kind_of_property property.now))
        (other_kind (map (λ d. d.now) defs.now) property.now))) }
{
    match other_kind(defs, property) {
        Some(kind) => Err(wrong_kind(alloc, kind, property.kind())),
        None => Ok(()),
    }
}

// The kind that the first definition requires, where none lets the property be of its kind.
fn other_kind(defs: &[&PropDef], property: &Property) -> Option<Kind>
    ensures { result ≡ other_kind (map (λ d. d.now) defs.now) property.now }
{
    if is_one_letting(defs, property) {
        return None;
    }
    first_kind(defs)
}

// Whether one of the definitions lets the property be of its kind.
fn is_one_letting(defs: &[&PropDef], property: &Property) -> bool
    ensures { result ≡ list_any (λ d. lets_kind property.now d.now) defs.now }
{
    defs.iter().any(|def| lets_kind(def, property))
}

// Whether the definition lets the property be of its kind.
fn lets_kind(def: &PropDef, property: &Property) -> bool
    ensures { result ≡ lets_kind property.now def.now }
{
    match def.kind {
        Some(kind) => kind == property.kind(),
        None => true,
    }
}

// The kind that the first definition requires.
fn first_kind(defs: &[&PropDef]) -> Option<Kind>
    ensures { result ≡ option_and_then (λ d. d.kind) (first_of (map (λ d. d.now) defs.now)) }
{
    match defs {
        [] => None,
        [first, ..] => first.kind,
    }
}

// The node with the property unset.
fn node_unset(
    alloc: Global,
    types: &Registry,
    draft: &Draft<'_>,
    path: &Path,
    name: &Name,
) -> Result<Node, Refusal>
    ensures ok { IfOk result (λ node. node_unset types.now (sighted draft.now.sight) draft.now.steps
        path.now name.now ≡ Ok node) }
    ensures err { IfErr result (IsDueRefusal (node_unset types.now (sighted draft.now.sight)
        draft.now.steps path.now name.now)) }
{
    match check_place(alloc, draft, path) {
        Ok(node) => unset_in(alloc, types, node, path, name),
        Err(refusal) => Err(refusal),
    }
}

// A node with a property unset, where it may be.
#[tactic(auto, using(crate::proofs::Due::refused_due, crate::proofs::Due::made_ok, crate::proofs::Due::memory_result))]
fn unset_in(
    alloc: Global,
    types: &Registry,
    node: &Node,
    path: &Path,
    name: &Name,
) -> Result<Node, Refusal>
    ensures ok { IfOk result (λ made. unless_refused
        (unset_refusal types.now path.now name.now node.now (property_of node.now name.now))
        (Ok (without_property node.now name.now)) ≡ Ok made) }
    ensures err { IfErr result (IsDueRefusal (unless_refused
        (unset_refusal types.now path.now name.now node.now (property_of node.now name.now))
        (Ok (without_property node.now name.now)))) }
{
    match check_unset(alloc, types, node, path, name) {
        Ok(()) => or_memory(alloc, without_property(node, name)),
        Err(refusal) => Err(refusal),
    }
}

// A property may be unset.
fn check_unset(
    alloc: Global,
    types: &Registry,
    node: &Node,
    path: &Path,
    name: &Name,
) -> Result<(), Refusal>
    ensures ok { OnOk result (unset_refusal types.now path.now name.now node.now
        (property_of node.now name.now) ≡ None) }
    ensures err { IfErr result (IsTheRefusal (unset_refusal types.now path.now name.now node.now
        (property_of node.now name.now))) }
{
    match node.props.get(name) {
        Some(property) => check_not_protected(alloc, types, node, path, name, property),
        None => Err(no_item_named(alloc, path, name)),
    }
}

// The definition that a property goes by isn't protected.
fn check_not_protected(
    alloc: Global,
    types: &Registry,
    node: &Node,
    path: &Path,
    name: &Name,
    property: &Property,
) -> Result<(), Refusal>
    ensures ok { OnOk result (unset_refusal types.now path.now name.now node.now (Some property.now)
        ≡ None) }
    ensures err { IfErr result (IsTheRefusal
        (unset_refusal types.now path.now name.now node.now (Some property.now))) }
{
    match is_protected(types, node, name, property) {
        Ok(true) => Err(own_item_rule(alloc, path, name)),
        Ok(false) => Ok(()),
        Err(AllocError) => Err(Refusal::memory(alloc)),
    }
}

// Whether the definition that a property goes by is protected.
fn is_protected(
    types: &Registry,
    node: &Node,
    name: &Name,
    property: &Property,
) -> Result<bool, AllocError>
    ensures { IfOk result (λ protected. protected ≡ option_map_or (λ d. d.protected)
        (prop_def (types_of_node types.now node.now) name.now property.now) false) }
{
    match types.prop_def(node, name, property)? {
        Some(def) => Ok(def.protected),
        None => Ok(false),
    }
}
