// Changing a node's primary type.
ghost use Rattle.std.specs.Prelude.{◌≡◌, IfErr, IfOk, Ok, OnOk, cond};
ghost use Rattle.jr_value.specs.declared.value.Property.TheVariants.{Single};
ghost use Rattle.jr_value.specs.declared.value.Value.TheVariants as value;
ghost use Rattle.jr_items.specs.Names.{child_order, primary_type};
ghost use Rattle.jr_items.specs.Refusals.{out_of_memory};
ghost use Rattle.jr_types.specs.Attributes.{are_ordered};
ghost use Rattle.jr_overlay.specs.Overlays.{sighted};
ghost use Rattle.jcr_write.specs.Places.{IsDueRefusal, types_of_node, unless_refused, with_property, without_property};
ghost use Rattle.jcr_mixin.specs.Commands.{node_retyped, of_primary_type, type_made};
ghost use Rattle.jcr_fill.specs.Makings.{making, unknown_type};

use jcr_fill::{check_type, complete};
use jcr_write::{check_place, with_property};
use jr_items::OwnName;
use jr_overlay::Draft;
use jr_path::{DeepCopy, Name, Path};
use jr_tree::{Node, Refusal, Who};
use jr_types::Registry;
use jr_value::{Property, Value};
use std::alloc::{AllocError, Global};

/// Changes a node's primary type, with what belongs to it (JSR 283, 10.10.1 Changing the Primary Type). The order of
/// its children goes where the new types have none. Refused as every command by its path; 3 with the type.
#[tactic(auto, using(jcr_fill::proofs::Due::after_ok, jcr_fill::proofs::Due::after_err, jcr_fill::proofs::Due::first_err))]
pub fn set_type(
    alloc: Global,
    types: &Registry,
    who: &Who,
    draft: &mut Draft<'_>,
    ids: &mut u32,
    path: &Path,
    node_type: &Name,
) -> Result<(), Refusal>
    ensures sight { draft.new.sight ≡ draft.old.sight }
    ensures ok { OnOk result (type_made types.now who.now (sighted draft.old.sight) path.now
        node_type.now (making draft.old.steps ids.old)
        ≡ Ok (making draft.new.steps ids.new)) }
    ensures err { IfErr result (IsDueRefusal (type_made types.now who.now
        (sighted draft.old.sight) path.now node_type.now (making draft.old.steps ids.old))) }
{
    match node_retyped(alloc, types, draft, path, node_type) {
        Ok(node) => complete(alloc, types, who, draft, ids, path, node),
        Err(refusal) => Err(refusal),
    }
}

// The node at a place with another primary type.
fn node_retyped(
    alloc: Global,
    types: &Registry,
    draft: &Draft<'_>,
    path: &Path,
    node_type: &Name,
) -> Result<Node, Refusal>
    ensures ok { IfOk result (λ node. node_retyped types.now (sighted draft.now.sight)
        draft.now.steps path.now node_type.now ≡ Ok node) }
    ensures err { IfErr result (IsDueRefusal (node_retyped types.now (sighted draft.now.sight)
        draft.now.steps path.now node_type.now)) }
{
    match check_place(alloc, draft, path) {
        Ok(node) => retyped_by(alloc, types, node, node_type),
        Err(refusal) => Err(refusal),
    }
}

// A node with another primary type, which somebody registered.
#[tactic(auto, using(jcr_write::proofs::Due::refused_due, jcr_fill::proofs::Due::passed_value, jcr_write::proofs::Due::memory_due))]
fn retyped_by(
    alloc: Global,
    types: &Registry,
    node: &Node,
    node_type: &Name,
) -> Result<Node, Refusal>
    ensures ok { IfOk result (λ made. unless_refused (unknown_type types.now node_type.now)
        (Ok (of_primary_type types.now node.now node_type.now)) ≡ Ok made) }
    ensures err { IfErr result (IsDueRefusal (unless_refused
        (unknown_type types.now node_type.now)
        (Ok (of_primary_type types.now node.now node_type.now)))) }
{
    match check_type(alloc, types, node_type) {
        Ok(()) => or_memory(alloc, retyped(alloc, types, node, node_type)),
        Err(refusal) => Err(refusal),
    }
}

/// A node, or want of memory where it wasn't made.
pub(crate) fn or_memory(alloc: Global, made: Result<Node, AllocError>) -> Result<Node, Refusal>
    ensures ok { IfOk result (λ node. made ≡ Ok node) }
    ensures err { IfErr result (λ refusal. refusal ≡ out_of_memory) }
{
    match made {
        Ok(node) => Ok(node),
        Err(AllocError) => Err(Refusal::memory(alloc)),
    }
}

fn retyped(
    alloc: Global,
    types: &Registry,
    node: &Node,
    node_type: &Name,
) -> Result<Node, AllocError>
    ensures { IfOk result (λ made. made ≡ of_primary_type types.now node.now node_type.now) }
{
    let typed = typed(alloc, node, node_type)?;
    without_lost_order(alloc, types, typed)
}

fn typed(alloc: Global, node: &Node, node_type: &Name) -> Result<Node, AllocError>
    ensures { IfOk result (λ made. made ≡ with_property node.now primary_type
        (Single (value.Name node_type.now))) }
{
    let name = OwnName::PrimaryType.name(alloc)?;
    let property = Property::Single(Value::Name(node_type.copy()?));
    with_property(node, &name, property)
}

// The node without the order of its children, where its types have none.
fn without_lost_order(alloc: Global, types: &Registry, mut node: Node) -> Result<Node, AllocError>
    ensures { IfOk result (λ made. made ≡ cond (are_ordered (types_of_node types.now node)) node
        (without_property node child_order)) }
{
    if types.are_ordered(&node)? {
        return Ok(node);
    }
    let order = OwnName::ChildOrder.name(alloc)?;
    node.props.remove(&order);
    Ok(node)
}
