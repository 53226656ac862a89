// Nodes with all that belongs to them: the properties and children that their types make of themselves.
ghost use Rattle.std.specs.Prelude.{◌≡◌, ◌≤◌, IfErr, IfOk, None, Ok, OnOk, map};
ghost use Rattle.std.specs.List.{flat_map};
ghost use Rattle.jr_types.specs.Registered.{IsAlike};
ghost use Rattle.jr_items.specs.Refusals.{IsTheRefusal, out_of_memory};
ghost use Rattle.jr_tree.specs.Trees.{node_of_type};
ghost use Rattle.jr_overlay.specs.Overlays.{sighted};
ghost use Rattle.jcr_write.specs.Places.{IsDueRefusal, types_of_node};
ghost use Rattle.jcr_fill.specs.Makings.{absent_child, child_refusal, complete, completed, making, missing_child, put_filled, put_filled_by, unknown_type, with_made_child, with_made_children, with_filled, with_own_child};
ghost use Rattle.jcr_fill.specs.Steps.{and_then, each};

use crate::fill::{Filling, fill};
use jcr_write::put_node;
use jr_items::{check_limits, no_type};
use jr_overlay::Draft;
use jr_path::{DeepCopy, Name, Path};
use jr_tree::{Node, Refusal, Who};
use jr_types::{ChildDef, PropDef, Registry, TypeDef, children_of};
use std::alloc::{AllocError, Global};

// A path has at most 64 names, so a node has at most so many levels with it.
const ALL_LEVELS: u32 = 65;

/// A child that is to be made: its path and its type.
pub struct MissingChild {
    pub path: Path,
    pub node_type: Name,
}

// By hand, so that its parts are let go in one call.
impl Drop for MissingChild {
    fn drop(self) {
        let MissingChild { path, node_type } = self;
        drop(path);
        drop(node_type);
    }
}

/// Puts a node with all that belongs to it (JSR 283, 3.7.2.3 Auto-Created). Refused with 15 where an identifier is over
/// the limit; for a child with 3 where nobody registered its type, then with 15 where its path is over a limit.
pub fn complete(
    alloc: Global,
    types: &Registry,
    who: &Who,
    draft: &mut Draft<'_>,
    ids: &mut u32,
    path: &Path,
    node: Node,
) -> Result<(), Refusal>
    ensures sight { draft.new.sight ≡ draft.old.sight }
    ensures ok { OnOk result (complete types.now who.now (sighted draft.old.sight) path.now node
        (making draft.old.steps ids.old) ≡ Ok (making draft.new.steps ids.new)) }
    ensures err { IfErr result (IsDueRefusal (complete types.now who.now
        (sighted draft.old.sight) path.now node (making draft.old.steps ids.old))) }
{
    complete_levels(alloc, types, who, draft, ids, path, node, ALL_LEVELS)
}

/// Puts a new node of a type with all that belongs to it.
pub fn complete_new(
    alloc: Global,
    types: &Registry,
    who: &Who,
    draft: &mut Draft<'_>,
    ids: &mut u32,
    path: &Path,
    node_type: &Name,
) -> Result<(), Refusal>
    ensures sight { draft.new.sight ≡ draft.old.sight }
    ensures ok { OnOk result (complete types.now who.now (sighted draft.old.sight) path.now
        (node_of_type node_type.now) (making draft.old.steps ids.old)
        ≡ Ok (making draft.new.steps ids.new)) }
    ensures err { IfErr result (IsDueRefusal (complete types.now who.now
        (sighted draft.old.sight) path.now (node_of_type node_type.now)
        (making draft.old.steps ids.old))) }
{
    complete_typed(alloc, types, who, draft, ids, path, node_type, ALL_LEVELS)
}

/// Somebody registered the type.
pub fn check_type(alloc: Global, types: &Registry, name: &Name) -> Result<(), Refusal>
    ensures ok { OnOk result (unknown_type types.now name.now ≡ None) }
    ensures err { IfErr result (IsTheRefusal (unknown_type types.now name.now)) }
{
    if types.get(name).is_none() {
        return Err(no_type(alloc, name));
    }
    Ok(())
}

// Puts a node with what belongs to it, so many levels down.
#[cycle(levels)]
#[tactic(auto, using(crate::proofs::Completes::completed_none, crate::proofs::Completes::completed_more, jcr_write::proofs::Due::memory_result))]
fn complete_levels(
    alloc: Global,
    types: &Registry,
    who: &Who,
    draft: &mut Draft<'_>,
    ids: &mut u32,
    path: &Path,
    node: Node,
    levels: u32,
) -> Result<(), Refusal>
    requires { levels ≤ 65 }
    ensures sight { draft.new.sight ≡ draft.old.sight }
    ensures ok { OnOk result (completed levels types.now who.now (sighted draft.old.sight)
        path.now node (making draft.old.steps ids.old) ≡ Ok (making draft.new.steps ids.new)) }
    ensures err { IfErr result (IsDueRefusal (completed levels types.now who.now
        (sighted draft.old.sight) path.now node (making draft.old.steps ids.old))) }
{
    if levels == 0 {
        return put_node(alloc, draft, path, node);
    }
    match types.types_of(&node) {
        Ok(of) => complete_by(alloc, types, who, draft, ids, path, node, &of, levels - 1),
        Err(AllocError) => Err(Refusal::memory(alloc)),
    }
}

// Puts a node of these types with its properties, and makes its children so many levels down.
#[cycle(levels)]
#[tactic(auto, using(crate::proofs::Due::after_ok, crate::proofs::Due::after_err, crate::proofs::Due::first_err, crate::proofs::Children::children_alike, crate::proofs::Completes::children_err))]
fn complete_by(
    alloc: Global,
    types: &Registry,
    who: &Who,
    draft: &mut Draft<'_>,
    ids: &mut u32,
    path: &Path,
    node: Node,
    of: &[&TypeDef],
    levels: u32,
) -> Result<(), Refusal>
    requires of { IsAlike (map (λ d. d.now) of.now) (types_of_node types.now node) }
    requires levels { levels ≤ 64 }
    ensures sight { draft.new.sight ≡ draft.old.sight }
    ensures ok { OnOk result (and_then (put_filled types.now who.now path.now node
        (making draft.old.steps ids.old)) (with_made_children (completed levels types.now who.now
        (sighted draft.old.sight)) types.now (sighted draft.old.sight) path.now
        (types_of_node types.now node)) ≡ Ok (making draft.new.steps ids.new)) }
    ensures err { IfErr result (IsDueRefusal (and_then (put_filled types.now who.now path.now node
        (making draft.old.steps ids.old)) (with_made_children (completed levels types.now who.now
        (sighted draft.old.sight)) types.now (sighted draft.old.sight) path.now
        (types_of_node types.now node)))) }
{
    match put_filled(alloc, types, who, draft, ids, path, node, of) {
        Ok(()) => make_children(alloc, types, who, draft, ids, path, of, levels),
        Err(refusal) => Err(refusal),
    }
}

// Makes the children that types make of themselves, each so many levels down.
#[cycle(levels)]
fn make_children(
    alloc: Global,
    types: &Registry,
    who: &Who,
    draft: &mut Draft<'_>,
    ids: &mut u32,
    path: &Path,
    of: &[&TypeDef],
    levels: u32,
) -> Result<(), Refusal>
    requires { levels ≤ 64 }
    ensures sight { draft.new.sight ≡ draft.old.sight }
    ensures ok { OnOk result (with_made_children (completed levels types.now who.now
        (sighted draft.old.sight)) types.now (sighted draft.old.sight) path.now
        (map (λ d. d.now) of.now) (making draft.old.steps ids.old)
        ≡ Ok (making draft.new.steps ids.new)) }
    ensures err { IfErr result (IsDueRefusal (with_made_children (completed levels types.now who.now
        (sighted draft.old.sight)) types.now (sighted draft.old.sight) path.now
        (map (λ d. d.now) of.now) (making draft.old.steps ids.old))) }
{
    match children_of(alloc, of) {
        Ok(defs) => make_each(alloc, types, who, draft, ids, path, &defs, levels),
        Err(AllocError) => Err(Refusal::memory(alloc)),
    }
}

#[cycle(levels)]
fn make_each(
    alloc: Global,
    types: &Registry,
    who: &Who,
    draft: &mut Draft<'_>,
    ids: &mut u32,
    path: &Path,
    defs: &[&ChildDef],
    levels: u32,
) -> Result<(), Refusal>
    requires { levels ≤ 64 }
    ensures sight { draft.new.sight ≡ draft.old.sight }
    ensures ok { OnOk result (each (with_own_child (completed levels types.now who.now
        (sighted draft.old.sight)) types.now (sighted draft.old.sight) path.now)
        (map (λ d. d.now) defs.now) (making draft.old.steps ids.old)
        ≡ Ok (making draft.new.steps ids.new)) }
    ensures err { IfErr result (IsDueRefusal (each (with_own_child (completed levels types.now
        who.now (sighted draft.old.sight)) types.now (sighted draft.old.sight) path.now)
        (map (λ d. d.now) defs.now) (making draft.old.steps ids.old))) }
{
    for def in defs {
        make_by(alloc, types, who, draft, ids, path, def, levels)?;
    }
    Ok(())
}

// Makes the child that a definition makes of itself, where it isn't there.
#[cycle(levels)]
fn make_by(
    alloc: Global,
    types: &Registry,
    who: &Who,
    draft: &mut Draft<'_>,
    ids: &mut u32,
    path: &Path,
    def: &ChildDef,
    levels: u32,
) -> Result<(), Refusal>
    requires { levels ≤ 64 }
    ensures sight { draft.new.sight ≡ draft.old.sight }
    ensures ok { OnOk result (with_own_child (completed levels types.now who.now
        (sighted draft.old.sight)) types.now (sighted draft.old.sight) path.now def.now
        (making draft.old.steps ids.old) ≡ Ok (making draft.new.steps ids.new)) }
    ensures err { IfErr result (IsDueRefusal (with_own_child (completed levels types.now who.now
        (sighted draft.old.sight)) types.now (sighted draft.old.sight) path.now def.now
        (making draft.old.steps ids.old))) }
{
    match missing_child(draft, path, def) {
        Ok(Some(child)) => make_child(alloc, types, who, draft, ids, &child, levels),
        Ok(None) => Ok(()),
        Err(AllocError) => Err(Refusal::memory(alloc)),
    }
}

#[cycle(levels)]
#[tactic(auto, using(crate::proofs::Due::passed_ok, crate::proofs::Due::passed_err, jcr_write::proofs::Due::refused_due))]
fn make_child(
    alloc: Global,
    types: &Registry,
    who: &Who,
    draft: &mut Draft<'_>,
    ids: &mut u32,
    child: &MissingChild,
    levels: u32,
) -> Result<(), Refusal>
    requires { levels ≤ 64 }
    ensures sight { draft.new.sight ≡ draft.old.sight }
    ensures ok { OnOk result (with_made_child (completed levels types.now who.now
        (sighted draft.old.sight)) types.now child.now.path child.now.node_type
        (making draft.old.steps ids.old) ≡ Ok (making draft.new.steps ids.new)) }
    ensures err { IfErr result (IsDueRefusal (with_made_child (completed levels types.now who.now
        (sighted draft.old.sight)) types.now child.now.path child.now.node_type
        (making draft.old.steps ids.old))) }
{
    match check_child(alloc, types, child) {
        Ok(()) => complete_typed(
            alloc,
            types,
            who,
            draft,
            ids,
            &child.path,
            &child.node_type,
            levels,
        ),
        Err(refusal) => Err(refusal),
    }
}

// Puts a new node of a type with what belongs to it, so many levels down.
#[cycle(levels)]
fn complete_typed(
    alloc: Global,
    types: &Registry,
    who: &Who,
    draft: &mut Draft<'_>,
    ids: &mut u32,
    path: &Path,
    node_type: &Name,
    levels: u32,
) -> Result<(), Refusal>
    requires { levels ≤ 65 }
    ensures sight { draft.new.sight ≡ draft.old.sight }
    ensures ok { OnOk result (completed levels types.now who.now (sighted draft.old.sight)
        path.now (node_of_type node_type.now) (making draft.old.steps ids.old)
        ≡ Ok (making draft.new.steps ids.new)) }
    ensures err { IfErr result (IsDueRefusal (completed levels types.now who.now
        (sighted draft.old.sight) path.now (node_of_type node_type.now)
        (making draft.old.steps ids.old))) }
{
    match new_node(alloc, node_type) {
        Ok(node) => complete_levels(alloc, types, who, draft, ids, path, node, levels),
        Err(AllocError) => Err(Refusal::memory(alloc)),
    }
}

fn new_node(alloc: Global, node_type: &Name) -> Result<Node, AllocError>
    ensures { IfOk result (λ node. node ≡ node_of_type node_type.now) }
{
    Node::of_type(alloc, node_type.copy()?)
}

// Puts a node with the properties that its types make of themselves.
fn put_filled(
    alloc: Global,
    types: &Registry,
    who: &Who,
    draft: &mut Draft<'_>,
    ids: &mut u32,
    path: &Path,
    node: Node,
    of: &[&TypeDef],
) -> Result<(), Refusal>
    requires { IsAlike (map (λ d. d.now) of.now) (types_of_node types.now node) }
    ensures sight { draft.new.sight ≡ draft.old.sight }
    ensures ok { OnOk result (put_filled types.now who.now path.now node
        (making draft.old.steps ids.old) ≡ Ok (making draft.new.steps ids.new)) }
    ensures err { IfErr result (IsDueRefusal (put_filled types.now who.now path.now node
        (making draft.old.steps ids.old))) }
{
    match types.props_of(of) {
        Ok(props) => put_filled_by(alloc, who, draft, ids, path, node, &props),
        Err(AllocError) => Err(Refusal::memory(alloc)),
    }
}

fn put_filled_by(
    alloc: Global,
    who: &Who,
    draft: &mut Draft<'_>,
    ids: &mut u32,
    path: &Path,
    node: Node,
    props: &[&PropDef],
) -> Result<(), Refusal>
    ensures sight { draft.new.sight ≡ draft.old.sight }
    ensures ok { OnOk result (put_filled_by who.now (map (λ d. d.now) props.now) path.now node
        (making draft.old.steps ids.old) ≡ Ok (making draft.new.steps ids.new)) }
    ensures err { IfErr result (IsDueRefusal (put_filled_by who.now
        (map (λ d. d.now) props.now) path.now node (making draft.old.steps ids.old))) }
{
    let mut filling = Filling { node, ids: *ids };
    match fill(alloc, who, &mut filling, props) {
        Ok(()) => put_filling(alloc, draft, ids, path, filling),
        Err(refusal) => Err(refusal),
    }
}

fn put_filling(
    alloc: Global,
    draft: &mut Draft<'_>,
    ids: &mut u32,
    path: &Path,
    filling: Filling,
) -> Result<(), Refusal>
    ensures sight { draft.new.sight ≡ draft.old.sight }
    ensures ok { OnOk result (making draft.new.steps ids.new
        ≡ with_filled draft.old.steps path.now filling) }
    ensures err { IfErr result (λ refusal. refusal ≡ out_of_memory) }
{
    *ids = filling.ids;
    put_node(alloc, draft, path, filling.node)
}

// The child that a definition makes of itself, where it isn't there.
fn missing_child(
    draft: &Draft<'_>,
    path: &Path,
    def: &ChildDef,
) -> Result<Option<MissingChild>, AllocError>
    ensures { IfOk result (λ found. found ≡ missing_child (sighted draft.now.sight)
        draft.now.steps path.now def.now) }
{
    if !def.autocreated {
        return Ok(None);
    }
    match (&def.name, &def.default_type) {
        (Some(name), Some(node_type)) => absent_child(draft, path, name, node_type),
        _ => Ok(None),
    }
}

fn absent_child(
    draft: &Draft<'_>,
    path: &Path,
    name: &Name,
    node_type: &Name,
) -> Result<Option<MissingChild>, AllocError>
    ensures { IfOk result (λ found. found ≡ absent_child (sighted draft.now.sight)
        draft.now.steps path.now name.now node_type.now) }
{
    let path = path.child(name)?;
    if draft.node(&path).is_some() {
        return Ok(None);
    }
    let node_type = node_type.copy()?;
    Ok(Some(MissingChild { path, node_type }))
}

// What is asked of a child that is to be made: its type first, the limits of its path last.
#[tactic(auto, using(jcr_write::proofs::Due::first_here, jcr_write::proofs::Due::rest_result, jcr_write::proofs::Due::rest_none))]
fn check_child(alloc: Global, types: &Registry, child: &MissingChild) -> Result<(), Refusal>
    ensures ok { OnOk result (child_refusal types.now child.now.path child.now.node_type ≡ None) }
    ensures err { IfErr result (IsTheRefusal
        (child_refusal types.now child.now.path child.now.node_type)) }
{
    match check_type(alloc, types, &child.node_type) {
        Ok(()) => check_limits(alloc, &child.path),
        Err(refusal) => Err(refusal),
    }
}
