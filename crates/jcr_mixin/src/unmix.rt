// Taking a mixin from a node.
ghost use Rattle.std.specs.Prelude.{◌≡◌, ◌++◌, ◌∷◌, [], false, IfErr, IfOk, None, Ok, OnOk, Some, not};
ghost use Rattle.std.specs.List.{filter_map, list_any};
ghost use Rattle.std.specs.Option.{option_copied, option_map_or};
ghost use Rattle.jr_value.specs.declared.value.Kind.TheVariants as kind;
ghost use Rattle.jr_value.specs.declared.value.Property.TheVariants.{Many};
ghost use Rattle.jr_value.specs.declared.value.Value.TheVariants as value;
ghost use Rattle.jr_items.specs.Items.{many_names, name_in, same_name};
ghost use Rattle.jr_items.specs.Refusals.{IsTheRefusal, no_type, when};
ghost use Rattle.jr_overlay.specs.Overlays.{sighted};
ghost use Rattle.jcr_write.specs.Places.{IsDueRefusal, unless_refused};
ghost use Rattle.jcr_mixin.specs.Commands.{is_lost, is_protected, lists_mixin, node_unmixed, others, unlisted, unmixed, unmixin_made, unmixin_refusal, with_kept, with_mixins, without_lost};

use crate::retype::or_memory;
use jcr_fill::check_type;
use jcr_write::{check_place, put_node, with_property, without_property};
use jr_items::{OwnName, no_type};
use jr_overlay::Draft;
use jr_path::{DeepCopy, Keyed, List, Name, Path};
use jr_tree::{Node, Refusal};
use jr_types::Registry;
use jr_value::{Kind, Property, Value};
use std::alloc::{AllocError, Global};

/// Takes a mixin from a node, with the protected properties that nothing else defines (JSR 283, 10.10.3 Assigning
/// Mixin Node Types). Refused as every command by its path; 3 where nobody registered the mixin or the node lacks it.
#[tactic(auto, using(jcr_fill::proofs::Due::put_after, jcr_write::proofs::Due::memory_result, jcr_fill::proofs::Due::first_err))]
pub fn unmixin(
    alloc: Global,
    types: &Registry,
    draft: &mut Draft<'_>,
    path: &Path,
    name: &Name,
) -> Result<(), Refusal>
    ensures sight { draft.new.sight ≡ draft.old.sight }
    ensures ok { OnOk result (unmixin_made types.now (sighted draft.old.sight) path.now name.now
        draft.old.steps ≡ Ok draft.new.steps) }
    ensures err { IfErr result (IsDueRefusal (unmixin_made types.now
        (sighted draft.old.sight) path.now name.now draft.old.steps)) }
{
    match node_unmixed(alloc, types, draft, path, name) {
        Ok(node) => put_node(alloc, draft, path, node),
        Err(refusal) => Err(refusal),
    }
}

// The node at a place without a mixin.
#[tactic(auto, using(jcr_write::proofs::Due::at_place_is, jcr_write::proofs::Due::place_err))]
fn node_unmixed(
    alloc: Global,
    types: &Registry,
    draft: &Draft<'_>,
    path: &Path,
    name: &Name,
) -> Result<Node, Refusal>
    ensures ok { IfOk result (λ node. node_unmixed types.now (sighted draft.now.sight)
        draft.now.steps path.now name.now ≡ Ok node) }
    ensures err { IfErr result (IsDueRefusal (node_unmixed types.now (sighted draft.now.sight)
        draft.now.steps path.now name.now)) }
{
    match check_place(alloc, draft, path) {
        Ok(node) => unmixed_by(alloc, types, node, name),
        Err(refusal) => Err(refusal),
    }
}

#[tactic(auto, using(jcr_write::proofs::Due::refused_due, jcr_fill::proofs::Due::passed_value, jcr_write::proofs::Due::memory_due))]
fn unmixed_by(alloc: Global, types: &Registry, node: &Node, name: &Name) -> Result<Node, Refusal>
    ensures ok { IfOk result (λ made. unless_refused (unmixin_refusal types.now node.now name.now)
        (Ok (unmixed types.now node.now name.now)) ≡ Ok made) }
    ensures err { IfErr result (IsDueRefusal (unless_refused
        (unmixin_refusal types.now node.now name.now)
        (Ok (unmixed types.now node.now name.now)))) }
{
    match check_unmixin(alloc, types, node, name) {
        Ok(()) => or_memory(alloc, unmixed(alloc, types, node, name)),
        Err(refusal) => Err(refusal),
    }
}

// The mixin is registered, and the node has it.
#[tactic(auto, using(jcr_write::proofs::Due::first_here, jcr_write::proofs::Due::last_result, jcr_write::proofs::Due::last_none))]
fn check_unmixin(alloc: Global, types: &Registry, node: &Node, name: &Name) -> Result<(), Refusal>
    ensures ok { OnOk result (unmixin_refusal types.now node.now name.now ≡ None) }
    ensures err { IfErr result (IsTheRefusal (unmixin_refusal types.now node.now name.now)) }
{
    match check_type(alloc, types, name) {
        Ok(()) => check_listed(alloc, node, name),
        Err(refusal) => Err(refusal),
    }
}

fn check_listed(alloc: Global, node: &Node, name: &Name) -> Result<(), Refusal>
    ensures ok { OnOk result
        (when (not (lists_mixin node.now name.now)) (no_type name.now) ≡ None) }
    ensures err { IfErr result (IsTheRefusal
        (when (not (lists_mixin node.now name.now)) (no_type name.now))) }
{
    match lists_mixin(alloc, node, name) {
        Ok(true) => Ok(()),
        Ok(false) => Err(no_type(alloc, name)),
        Err(AllocError) => Err(Refusal::memory(alloc)),
    }
}

/// Whether a node has the mixin.
pub(crate) fn lists_mixin(alloc: Global, node: &Node, name: &Name) -> Result<bool, AllocError>
    ensures { IfOk result (λ listed. listed ≡ lists_mixin node.now name.now) }
{
    let types = OwnName::MixinTypes.name(alloc)?;
    Ok(is_listed(node.props.get(&types), name))
}

fn is_listed(property: Option<&Property>, name: &Name) -> bool
    ensures { result ≡ list_any (same_name name.now)
        (many_names (option_copied property.entry)) }
{
    match property {
        Some(Property::Many(_, values)) => is_among(name, values.as_slice()),
        _ => false,
    }
}

// Whether the NAME is one of the values.
fn is_among(name: &Name, values: &[Value]) -> bool
    ensures { result ≡ list_any (same_name name.now) (filter_map name_in values.now) }
{
    for value in values {
        if is_named(name, value) {
            return true;
        }
    }
    false
}

// Whether the value is the NAME.
fn is_named(name: &Name, value: &Value) -> bool
    ensures { result ≡ option_map_or (same_name name.now) (name_in value.now) false }
{
    match value {
        Value::Name(other) => name == other,
        _ => false,
    }
}

fn unmixed(alloc: Global, types: &Registry, node: &Node, name: &Name) -> Result<Node, AllocError>
    ensures { IfOk result (λ made. made ≡ unmixed types.now node.now name.now) }
{
    let new = unlisted(alloc, node, name)?;
    without_lost(alloc, types, node, &new)
}

// The node's list of mixins without this one.
fn unlisted(alloc: Global, node: &Node, name: &Name) -> Result<Node, AllocError>
    ensures { IfOk result (λ made. made ≡ unlisted node.now name.now) }
{
    let types = OwnName::MixinTypes.name(alloc)?;
    let others = others(alloc, node.props.get(&types), name)?;
    with_mixins(alloc, node, others)
}

fn others(
    alloc: Global,
    property: Option<&Property>,
    name: &Name,
) -> Result<List<Value>, AllocError>
    ensures { IfOk result (λ values. values ≡ others name.now (option_copied property.entry)) }
{
    match property {
        Some(Property::Many(_, values)) => others_among(alloc, values.as_slice(), name),
        _ => Ok(List::new(alloc)),
    }
}

fn others_among(alloc: Global, values: &[Value], name: &Name) -> Result<List<Value>, AllocError>
    ensures { IfOk result (λ kept. kept ≡ others name.now (Some (Many kind.Name values.now))) }
{
    let mut kept = List::new(alloc);
    for value in values {
        push_other(&mut kept, value, name)?;
    }
    Ok(kept)
}

// Puts the value behind others, where it is another NAME.
fn push_other(kept: &mut List<Value>, value: &Value, name: &Name) -> Result<(), AllocError>
    ensures { OnOk result (kept.new
        ≡ kept.old ++ others name.now (Some (Many kind.Name (value.now ∷ [])))) }
{
    match value {
        Value::Name(other) => push_unless(kept, other, name),
        _ => Ok(()),
    }
}

fn push_unless(kept: &mut List<Value>, other: &Name, name: &Name) -> Result<(), AllocError>
    ensures { OnOk result (kept.new
        ≡ kept.old ++ others name.now (Some (Many kind.Name (value.Name other.now ∷ [])))) }
{
    if name == other {
        return Ok(());
    }
    kept.push(Value::Name(other.copy()?))
}

/// The node with this list of mixins, or with none.
pub(crate) fn with_mixins(
    alloc: Global,
    node: &Node,
    mixins: List<Value>,
) -> Result<Node, AllocError>
    ensures { IfOk result (λ made. made ≡ with_mixins node.now mixins) }
{
    let types = OwnName::MixinTypes.name(alloc)?;
    if mixins.is_empty() {
        return without_property(node, &types);
    }
    with_property(node, &types, Property::Many(Kind::Name, mixins))
}

// The new node without the properties that are lost.
fn without_lost(alloc: Global, types: &Registry, old: &Node, new: &Node) -> Result<Node, AllocError>
    ensures { IfOk result (λ made. made ≡ without_lost types.now old.now new.now) }
{
    let mut props = Keyed::new(alloc);
    for (name, property) in new.props.iter() {
        put_kept(&mut props, types, old, new, name, property)?;
    }
    Ok(Node {
        props,
        born: new.born,
    })
}

fn put_kept(
    props: &mut Keyed<Name, Property>,
    types: &Registry,
    old: &Node,
    new: &Node,
    name: &Name,
    property: &Property,
) -> Result<(), AllocError>
    ensures { OnOk result (props.new
        ≡ with_kept types.now old.now new.now props.old (name.now, property.now)) }
{
    if is_lost(types, old, new, name, property)? {
        return Ok(());
    }
    props.put(name.copy()?, property.copy()?)
}

fn is_lost(
    types: &Registry,
    old: &Node,
    new: &Node,
    name: &Name,
    property: &Property,
) -> Result<bool, AllocError>
    ensures { IfOk result (λ lost. lost
        ≡ is_lost types.now old.now new.now name.now property.now) }
{
    if !is_protected(types, old, name, property)? {
        return Ok(false);
    }
    let def = types.prop_def(new, name, property)?;
    Ok(def.is_none())
}

fn is_protected(
    types: &Registry,
    node: &Node,
    name: &Name,
    property: &Property,
) -> Result<bool, AllocError>
    ensures { IfOk result (λ guarded. guarded
        ≡ is_protected types.now node.now name.now property.now) }
{
    match types.prop_def(node, name, property)? {
        Some(def) => Ok(def.protected),
        None => Ok(false),
    }
}
