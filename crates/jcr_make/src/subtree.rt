// Adding a node with all that stands below it.
ghost use Rattle.std.specs.Prelude.{◌≡◌, ◌++◌, IfErr, IfOk, None, Ok, OnOk};
ghost use Rattle.std.specs.Option.{option_copied};
ghost use Rattle.jr_items.specs.Items.{is_empty};
ghost use Rattle.jr_overlay.specs.Overlays.{sighted};
ghost use Rattle.jcr_write.specs.Places.{IsDueRefusal};
ghost use Rattle.jcr_write.specs.Writes.{set_made};
ghost use Rattle.jcr_make.specs.Commands.{chosen_type};
ghost use Rattle.jcr_mixin.specs.Histories.{mixin_made};
ghost use Rattle.jcr_fill.specs.Makings.{making};
ghost use Rattle.jcr_fill.specs.Steps.{and_then, each};
ghost use Rattle.jcr_make.specs.Subtrees.{furnished, limited, part_added, part_at, part_node, tree_made, with_part, with_set};

use crate::adding::{add, chosen_type};
use jcr_fill::complete_new;
use jcr_mixin::mixin;
use jcr_trans::TreeNode;
use jcr_write::set;
use jr_items::{check_limits, check_not_system};
use jr_overlay::Draft;
use jr_path::{DeepCopy, Keyed, Name, Path};
use jr_tree::{Refusal, Who};
use jr_types::Registry;
use jr_value::Property;
use std::alloc::{AllocError, Global};

/// Adds nodes below one another, the topmost first, each with its mixins and properties, as `add`, `mixin` and `set` do
/// (JSR 283, 10.4 Adding Nodes). Of a node below the topmost one the limits of its path come last. The first refusal is
/// the command's.
pub fn tree(
    alloc: Global,
    types: &Registry,
    who: &Who,
    draft: &mut Draft<'_>,
    ids: &mut u32,
    path: &Path,
    nodes: &[TreeNode],
) -> Result<(), Refusal>
    ensures sight { draft.new.sight ≡ draft.old.sight }
    ensures ok { OnOk result (tree_made types.now who.now (sighted draft.old.sight) path.now
        nodes.now (making draft.old.steps ids.old) ≡ Ok (making draft.new.steps ids.new)) }
    ensures err { IfErr result (IsDueRefusal (tree_made types.now who.now
        (sighted draft.old.sight) path.now nodes.now (making draft.old.steps ids.old))) }
{
    for part in nodes {
        add_part(alloc, types, who, draft, ids, path, part)?;
    }
    Ok(())
}

// Adds a part of a tree whose topmost node is at a path.
fn add_part(
    alloc: Global,
    types: &Registry,
    who: &Who,
    draft: &mut Draft<'_>,
    ids: &mut u32,
    path: &Path,
    part: &TreeNode,
) -> Result<(), Refusal>
    ensures sight { draft.new.sight ≡ draft.old.sight }
    ensures ok { OnOk result (with_part types.now who.now (sighted draft.old.sight) path.now
        part.now (making draft.old.steps ids.old) ≡ Ok (making draft.new.steps ids.new)) }
    ensures err { IfErr result (IsDueRefusal (with_part types.now who.now
        (sighted draft.old.sight) path.now part.now (making draft.old.steps ids.old))) }
{
    match onto(path, part.path.names()) {
        Ok(at) => add_part_at(alloc, types, who, draft, ids, &at, part),
        Err(AllocError) => Err(Refusal::memory(alloc)),
    }
}

// The path that these names lead to from another.
fn onto(path: &Path, names: &[Name]) -> Result<Path, AllocError>
    ensures { IfOk result (λ led. led ≡ path.now ++ names.now) }
{
    let mut onto = path.copy()?;
    for name in names {
        onto = onto.child(name)?;
    }
    Ok(onto)
}

#[tactic(auto, using(jcr_fill::proofs::Due::after_ok, jcr_fill::proofs::Due::after_err, jcr_fill::proofs::Due::first_err))]
fn add_part_at(
    alloc: Global,
    types: &Registry,
    who: &Who,
    draft: &mut Draft<'_>,
    ids: &mut u32,
    at: &Path,
    part: &TreeNode,
) -> Result<(), Refusal>
    ensures sight { draft.new.sight ≡ draft.old.sight }
    ensures ok { OnOk result (part_at types.now who.now (sighted draft.old.sight) at.now part.now
        (making draft.old.steps ids.old) ≡ Ok (making draft.new.steps ids.new)) }
    ensures err { IfErr result (IsDueRefusal (part_at types.now who.now
        (sighted draft.old.sight) at.now part.now (making draft.old.steps ids.old))) }
{
    match add_node(alloc, types, who, draft, ids, at, part) {
        Ok(()) => furnish(alloc, types, who, draft, ids, at, part),
        Err(refusal) => Err(refusal),
    }
}

// Adds the node of a part: the topmost one as `add` does.
#[tactic(auto, using(crate::proofs::Sets::part_top, crate::proofs::Sets::part_lower))]
fn add_node(
    alloc: Global,
    types: &Registry,
    who: &Who,
    draft: &mut Draft<'_>,
    ids: &mut u32,
    at: &Path,
    part: &TreeNode,
) -> Result<(), Refusal>
    ensures sight { draft.new.sight ≡ draft.old.sight }
    ensures ok { OnOk result (part_node types.now who.now (sighted draft.old.sight) at.now
        part.now (making draft.old.steps ids.old) ≡ Ok (making draft.new.steps ids.new)) }
    ensures err { IfErr result (IsDueRefusal (part_node types.now who.now
        (sighted draft.old.sight) at.now part.now (making draft.old.steps ids.old))) }
{
    if is_topmost(part) {
        add(alloc, types, who, draft, ids, at, named_type(part))
    } else {
        add_below(alloc, types, who, draft, ids, at, named_type(part))
    }
}

// Whether a part is the topmost node.
fn is_topmost(part: &TreeNode) -> bool
    ensures { result ≡ is_empty part.now.path }
{
    match part.path.names() {
        [] => true,
        _ => false,
    }
}

// The type that a part names.
fn named_type(part: &TreeNode) -> Option<&Name>
    ensures { option_copied result ≡ part.now.node_type }
{
    part.node_type.as_ref()
}

// Adds a node below the topmost one, whose limits come last.
#[tactic(auto, using(jcr_write::proofs::Due::refused_due, jcr_fill::proofs::Due::passed_ok, jcr_fill::proofs::Due::passed_err))]
fn add_below(
    alloc: Global,
    types: &Registry,
    who: &Who,
    draft: &mut Draft<'_>,
    ids: &mut u32,
    at: &Path,
    node_type: Option<&Name>,
) -> Result<(), Refusal>
    ensures sight { draft.new.sight ≡ draft.old.sight }
    ensures ok { OnOk result (part_added types.now who.now (sighted draft.old.sight) at.now
        (option_copied node_type.entry) (making draft.old.steps ids.old)
        ≡ Ok (making draft.new.steps ids.new)) }
    ensures err { IfErr result (IsDueRefusal (part_added types.now who.now
        (sighted draft.old.sight) at.now (option_copied node_type.entry)
        (making draft.old.steps ids.old))) }
{
    match check_not_system(alloc, at) {
        Ok(()) => add_chosen(alloc, types, who, draft, ids, at, node_type),
        Err(refusal) => Err(refusal),
    }
}

#[tactic(auto, using(jcr_fill::proofs::Due::after_ok, jcr_fill::proofs::Due::after_err, jcr_fill::proofs::Due::first_err))]
fn add_chosen(
    alloc: Global,
    types: &Registry,
    who: &Who,
    draft: &mut Draft<'_>,
    ids: &mut u32,
    at: &Path,
    node_type: Option<&Name>,
) -> Result<(), Refusal>
    ensures sight { draft.new.sight ≡ draft.old.sight }
    ensures ok { OnOk result (and_then (chosen_type types.now (sighted draft.old.sight)
        draft.old.steps at.now (option_copied node_type.entry)) (limited types.now who.now
        (sighted draft.old.sight) at.now (making draft.old.steps ids.old))
        ≡ Ok (making draft.new.steps ids.new)) }
    ensures err { IfErr result (IsDueRefusal (and_then (chosen_type types.now
        (sighted draft.old.sight) draft.old.steps at.now (option_copied node_type.entry))
        (limited types.now who.now (sighted draft.old.sight) at.now
        (making draft.old.steps ids.old)))) }
{
    match chosen_type(alloc, types, draft, at, node_type) {
        Ok(name) => add_limited(alloc, types, who, draft, ids, at, &name),
        Err(refusal) => Err(refusal),
    }
}

// Adds a node of a type at a path within the limits.
#[tactic(auto, using(jcr_write::proofs::Due::refused_due, jcr_fill::proofs::Due::passed_ok, jcr_fill::proofs::Due::passed_err))]
fn add_limited(
    alloc: Global,
    types: &Registry,
    who: &Who,
    draft: &mut Draft<'_>,
    ids: &mut u32,
    at: &Path,
    node_type: &Name,
) -> Result<(), Refusal>
    ensures sight { draft.new.sight ≡ draft.old.sight }
    ensures ok { OnOk result (limited types.now who.now (sighted draft.old.sight) at.now
        (making draft.old.steps ids.old) node_type.now ≡ Ok (making draft.new.steps ids.new)) }
    ensures err { IfErr result (IsDueRefusal (limited types.now who.now
        (sighted draft.old.sight) at.now (making draft.old.steps ids.old) node_type.now)) }
{
    match check_limits(alloc, at) {
        Ok(()) => complete_new(alloc, types, who, draft, ids, at, node_type),
        Err(refusal) => Err(refusal),
    }
}

// Gives a node its mixins, then its properties.
#[tactic(auto, using(crate::proofs::Sets::sets_ok, jcr_fill::proofs::Due::first_err))]
fn furnish(
    alloc: Global,
    types: &Registry,
    who: &Who,
    draft: &mut Draft<'_>,
    ids: &mut u32,
    at: &Path,
    part: &TreeNode,
) -> Result<(), Refusal>
    ensures sight { draft.new.sight ≡ draft.old.sight }
    ensures ok { OnOk result (furnished types.now who.now (sighted draft.old.sight) at.now
        part.now (making draft.old.steps ids.old) ≡ Ok (making draft.new.steps ids.new)) }
    ensures err { IfErr result (IsDueRefusal (furnished types.now who.now
        (sighted draft.old.sight) at.now part.now (making draft.old.steps ids.old))) }
{
    match give_mixins(alloc, types, who, draft, ids, at, part.mixins.as_slice()) {
        Ok(()) => set_props(alloc, types, draft, at, &part.props),
        Err(refusal) => Err(refusal),
    }
}

fn give_mixins(
    alloc: Global,
    types: &Registry,
    who: &Who,
    draft: &mut Draft<'_>,
    ids: &mut u32,
    at: &Path,
    mixins: &[Name],
) -> Result<(), Refusal>
    ensures sight { draft.new.sight ≡ draft.old.sight }
    ensures ok { OnOk result (each (mixin_made types.now who.now (sighted draft.old.sight) at.now)
        mixins.now (making draft.old.steps ids.old) ≡ Ok (making draft.new.steps ids.new)) }
    ensures err { IfErr result (IsDueRefusal (each (mixin_made types.now who.now
        (sighted draft.old.sight) at.now) mixins.now (making draft.old.steps ids.old))) }
{
    for name in mixins {
        mixin(alloc, types, who, draft, ids, at, name)?;
    }
    Ok(())
}

fn set_props(
    alloc: Global,
    types: &Registry,
    draft: &mut Draft<'_>,
    at: &Path,
    props: &Keyed<Name, Property>,
) -> Result<(), Refusal>
    ensures sight { draft.new.sight ≡ draft.old.sight }
    ensures ok { OnOk result (each (with_set types.now (sighted draft.old.sight) at.now)
        props.now draft.old.steps ≡ Ok draft.new.steps) }
    ensures err { IfErr result (IsDueRefusal (each (with_set types.now (sighted draft.old.sight)
        at.now) props.now draft.old.steps)) }
{
    for (name, property) in props.iter() {
        set_copy(alloc, types, draft, at, name, property)?;
    }
    Ok(())
}

// Sets a copy of a property.
fn set_copy(
    alloc: Global,
    types: &Registry,
    draft: &mut Draft<'_>,
    at: &Path,
    name: &Name,
    property: &Property,
) -> Result<(), Refusal>
    ensures sight { draft.new.sight ≡ draft.old.sight }
    ensures ok { OnOk result (set_made types.now (sighted draft.old.sight) draft.old.steps at.now
        name.now property.now ≡ Ok draft.new.steps) }
    ensures err { IfErr result (IsDueRefusal (set_made types.now (sighted draft.old.sight)
        draft.old.steps at.now name.now property.now)) }
{
    match property.copy() {
        Ok(property) => set(alloc, types, draft, at, name, property),
        Err(AllocError) => Err(Refusal::memory(alloc)),
    }
}
