// The order of the children of a node.
ghost use Rattle.std.specs.Prelude.{◌≡◌, ◌∷◌, ◌++◌, [], IfErr, IfOk, None, Ok, OnOk, Some, codes, not};
ghost use Rattle.std.specs.Option.{option_copied};
ghost use Rattle.jr_path.specs.Names.{last_name};
ghost use Rattle.jr_items.specs.Refusals.{IsTheRefusal, no_item, out_of_memory, unsupported, when};
ghost use Rattle.jr_types.specs.Attributes.{are_ordered};
ghost use Rattle.jr_overlay.specs.Drafts.{in_draft, with_step};
ghost use Rattle.jr_overlay.specs.Overlays.{sighted};
ghost use Rattle.jcr_write.specs.Places.{IsDueRefusal, above, types_of_node};
ghost use Rattle.jcr_write.specs.Writes.{above_ordered, is_child_named, no_child_before, node_ordered, order_made, order_node, order_place, order_refusal, parent_ordered, reordered};

use crate::moves::{check_not_root, check_there};
use crate::places::{above, check_path, no_item_named, or_memory, put_node, with_property};
use jr_items::{OwnName, own_rule, unsupported};
use jr_order::{listing, moved_before, ordered};
use jr_overlay::Draft;
use jr_path::{Name, Path};
use jr_rev::Revision;
use jr_tree::{Node, Refusal};
use jr_types::Registry;
use std::alloc::{AllocError, Global};

/// Puts a node directly before another in the order of its parent's children, or at the end (JSR 283, 23.3 Reordering
/// of Child Nodes). Before itself it stays where it is. Refused, in this order: 15 where the path is too deep or too
/// long, 4 where it is the repository's own, 4 for the root, 1 where there is no node; 12 where the types of the parent
/// don't order its children; 1 with the other's path where it is no child of the parent. After a refusal the draft is
/// to be dropped.
pub fn order_before(
    alloc: Global,
    types: &Registry,
    draft: &mut Draft<'_>,
    path: &Path,
    before: Option<&Name>,
) -> Result<(), Refusal>
    requires { draft.old.steps ≡ [] }
    ensures sight { draft.new.sight ≡ draft.old.sight }
    ensures ok { OnOk result (order_made types.now (sighted draft.old.sight) draft.old.steps
        path.now (option_copied before.entry) ≡ Ok draft.new.steps) }
    ensures err { IfErr result (IsDueRefusal (order_made types.now (sighted draft.old.sight)
        draft.old.steps path.now (option_copied before.entry))) }
{
    match order_node(alloc, types, draft, path, before) {
        Ok(node) => put_above(alloc, draft, path, node),
        Err(refusal) => Err(refusal),
    }
}

// The node above with another order of its children, where that may be.
fn order_node(
    alloc: Global,
    types: &Registry,
    draft: &Draft<'_>,
    path: &Path,
    before: Option<&Name>,
) -> Result<Node, Refusal>
    ensures ok { IfOk result (λ node. order_node types.now (sighted draft.now.sight) draft.now.steps
        path.now (option_copied before.entry) ≡ Ok node) }
    ensures err { IfErr result (IsDueRefusal (order_node types.now (sighted draft.now.sight)
        draft.now.steps path.now (option_copied before.entry))) }
{
    match check_order_place(alloc, draft, path) {
        Ok(()) => above_ordered(alloc, types, draft, path, before),
        Err(refusal) => Err(refusal),
    }
}

// A node whose place among its parent's children may change.
fn check_order_place(alloc: Global, draft: &Draft<'_>, path: &Path) -> Result<(), Refusal>
    ensures ok { OnOk result
        (order_place (sighted draft.now.sight) draft.now.steps path.now ≡ None) }
    ensures err { IfErr result (IsTheRefusal
        (order_place (sighted draft.now.sight) draft.now.steps path.now)) }
{
    check_path(alloc, path)?;
    check_not_root(alloc, path)?;
    check_there(alloc, draft, path)
}

// The node above with another order of its children; the root has no name.
fn above_ordered(
    alloc: Global,
    types: &Registry,
    draft: &Draft<'_>,
    path: &Path,
    before: Option<&Name>,
) -> Result<Node, Refusal>
    ensures ok { IfOk result (λ node. above_ordered types.now (sighted draft.now.sight)
        draft.now.steps path.now (option_copied before.entry) (last_name path.now) ≡ Ok node) }
    ensures err { IfErr result (IsDueRefusal (above_ordered types.now (sighted draft.now.sight)
        draft.now.steps path.now (option_copied before.entry) (last_name path.now))) }
{
    match path.last_name() {
        Some(name) => ordered_above(alloc, types, draft, path, name, before),
        None => Err(own_rule(alloc, path)),
    }
}

// The node above a child of that name with another order of its children.
fn ordered_above(
    alloc: Global,
    types: &Registry,
    draft: &Draft<'_>,
    path: &Path,
    name: &Name,
    before: Option<&Name>,
) -> Result<Node, Refusal>
    ensures ok { IfOk result (λ node. parent_ordered types.now (sighted draft.now.sight)
        (above path.now) name.now (option_copied before.entry) (in_draft draft.now (above path.now))
        ≡ Ok node) }
    ensures err { IfErr result (IsDueRefusal (parent_ordered types.now (sighted draft.now.sight)
        (above path.now) name.now (option_copied before.entry)
        (in_draft draft.now (above path.now)))) }
{
    match above(alloc, path) {
        Ok(parent) => parent_ordered(alloc, types, draft, &parent, name, before),
        Err(AllocError) => Err(Refusal::memory(alloc)),
    }
}

// The node at a path with another order of its children, if there is one.
fn parent_ordered(
    alloc: Global,
    types: &Registry,
    draft: &Draft<'_>,
    parent: &Path,
    name: &Name,
    before: Option<&Name>,
) -> Result<Node, Refusal>
    ensures ok { IfOk result (λ node. parent_ordered types.now (sighted draft.now.sight) parent.now
        name.now (option_copied before.entry) (in_draft draft.now parent.now) ≡ Ok node) }
    ensures err { IfErr result (IsDueRefusal (parent_ordered types.now (sighted draft.now.sight)
        parent.now name.now (option_copied before.entry) (in_draft draft.now parent.now))) }
{
    match draft.node(parent) {
        Some(node) => node_reordered(alloc, types, draft, parent, name, before, node),
        None => Err(unsupported(alloc, "orderBefore")),
    }
}

// A node with another order of the children that it has in the view.
fn node_reordered(
    alloc: Global,
    types: &Registry,
    draft: &Draft<'_>,
    parent: &Path,
    name: &Name,
    before: Option<&Name>,
    node: &Node,
) -> Result<Node, Refusal>
    ensures ok { IfOk result (λ made. reordered types.now parent.now
        ((sighted draft.now.sight).children parent.now) name.now (option_copied before.entry)
        node.now ≡ Ok made) }
    ensures err { IfErr result (IsDueRefusal (reordered types.now parent.now
        ((sighted draft.now.sight).children parent.now) name.now (option_copied before.entry)
        node.now)) }
{
    match draft.sight().children(parent) {
        Ok(children) => {
            reordered(
                alloc,
                types,
                children.as_slice(),
                parent,
                name,
                before,
                node,
            )
        }
        Err(AllocError) => Err(Refusal::memory(alloc)),
    }
}

// A node with another order of these children, where it may get it.
fn reordered(
    alloc: Global,
    types: &Registry,
    children: &[(Name, Option<Revision>)],
    parent: &Path,
    name: &Name,
    before: Option<&Name>,
    node: &Node,
) -> Result<Node, Refusal>
    ensures ok { IfOk result (λ made. reordered types.now parent.now children.now name.now
        (option_copied before.entry) node.now ≡ Ok made) }
    ensures err { IfErr result (IsDueRefusal (reordered types.now parent.now children.now name.now
        (option_copied before.entry) node.now)) }
{
    match check_order(alloc, types, children, parent, before, node) {
        Ok(()) => or_memory(
            alloc,
            node_ordered(alloc, types, children, name, before, node),
        ),
        Err(refusal) => Err(refusal),
    }
}

// The types of the node order its children, and there is a child to go before.
#[tactic(auto, using(crate::proofs::Due::first_here, crate::proofs::Due::last_result, crate::proofs::Due::last_none))]
fn check_order(
    alloc: Global,
    types: &Registry,
    children: &[(Name, Option<Revision>)],
    parent: &Path,
    before: Option<&Name>,
    node: &Node,
) -> Result<(), Refusal>
    ensures ok { OnOk result (order_refusal types.now parent.now children.now
        (option_copied before.entry) node.now ≡ None) }
    ensures err { IfErr result (IsTheRefusal (order_refusal types.now parent.now children.now
        (option_copied before.entry) node.now)) }
{
    match check_orders(alloc, types, node) {
        Ok(()) => check_before(alloc, children, parent, before),
        Err(refusal) => Err(refusal),
    }
}

// The types of the node order its children.
fn check_orders(alloc: Global, types: &Registry, node: &Node) -> Result<(), Refusal>
    ensures ok { OnOk result (when (not (are_ordered (types_of_node types.now node.now)))
        (unsupported (codes "orderBefore")) ≡ None) }
    ensures err { IfErr result (IsTheRefusal
        (when (not (are_ordered (types_of_node types.now node.now)))
        (unsupported (codes "orderBefore")))) }
{
    match types.are_ordered(node) {
        Ok(true) => Ok(()),
        Ok(false) => Err(unsupported(alloc, "orderBefore")),
        Err(AllocError) => Err(Refusal::memory(alloc)),
    }
}

// There is a child to go before, or none is asked for.
fn check_before(
    alloc: Global,
    children: &[(Name, Option<Revision>)],
    parent: &Path,
    before: Option<&Name>,
) -> Result<(), Refusal>
    ensures ok { OnOk result
        (no_child_before parent.now children.now (option_copied before.entry) ≡ None) }
    ensures err { IfErr result (IsTheRefusal
        (no_child_before parent.now children.now (option_copied before.entry))) }
{
    match before {
        Some(other) => check_child_named(alloc, children, parent, other),
        None => Ok(()),
    }
}

// A child has that name.
fn check_child_named(
    alloc: Global,
    children: &[(Name, Option<Revision>)],
    parent: &Path,
    name: &Name,
) -> Result<(), Refusal>
    ensures ok { OnOk result (when (not (is_child_named children.now name.now))
        (no_item (parent.now ++ name.now ∷ [])) ≡ None) }
    ensures err { IfErr result (IsTheRefusal (when (not (is_child_named children.now name.now))
        (no_item (parent.now ++ name.now ∷ [])))) }
{
    if is_child_named(children, name) {
        return Ok(());
    }
    Err(no_item_named(alloc, parent, name))
}

// Whether a child has that name.
fn is_child_named(children: &[(Name, Option<Revision>)], name: &Name) -> bool
    ensures { result ≡ is_child_named children.now name.now }
{
    children.iter().any(|child| name == &child.0)
}

// The node with its children in their order, where one goes before another.
fn node_ordered(
    alloc: Global,
    types: &Registry,
    children: &[(Name, Option<Revision>)],
    name: &Name,
    before: Option<&Name>,
    node: &Node,
) -> Result<Node, AllocError>
    ensures { IfOk result (λ made. made
        ≡ node_ordered types.now children.now name.now (option_copied before.entry) node.now) }
{
    let key = OwnName::ChildOrder.name(alloc)?;
    let names = moved_before(alloc, name, before, ordered(alloc, types, node, children)?)?;
    with_property(node, &key, listing(alloc, names.as_slice())?)
}

// Puts the node above a path.
fn put_above(alloc: Global, draft: &mut Draft<'_>, path: &Path, node: Node) -> Result<(), Refusal>
    ensures sight { draft.new.sight ≡ draft.old.sight }
    ensures ok { OnOk result (draft.new.steps
        ≡ with_step draft.old.steps (above path.now) (Some node)) }
    ensures err { IfErr result (λ refusal. refusal ≡ out_of_memory) }
{
    match above(alloc, path) {
        Ok(parent) => put_node(alloc, draft, &parent, node),
        Err(AllocError) => Err(Refusal::memory(alloc)),
    }
}
