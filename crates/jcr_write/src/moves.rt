// Removing and moving nodes.
ghost use Rattle.std.specs.Prelude.{◌≡◌, ◌∷◌, [], IfErr, IfOk, None, Ok, OnOk, drop, false, is_some, map};
ghost use Rattle.std.specs.Map.Iter.{deref_pair};
ghost use Rattle.std.specs.Option.{option_copied, option_map_or};
ghost use Rattle.jr_path.specs.Names.{is_under};
ghost use Rattle.jr_items.specs.Items.{first_some, property_of};
ghost use Rattle.jr_items.specs.Names.{primary_type};
ghost use Rattle.jr_items.specs.Refusals.{IsTheRefusal, in_system, limit_refusal, own_item_rule, own_rule, taken, when};
ghost use Rattle.jr_types.specs.Types.{child_def};
ghost use Rattle.jr_overlay.specs.Drafts.{in_draft};
ghost use Rattle.jr_overlay.specs.Overlays.{sighted};
ghost use Rattle.jcr_write.specs.Places.{IsDueRefusal, above, types_of_node};
ghost use Rattle.jcr_write.specs.Writes.{absent, ends_refusal, is_kept_below, is_root, kept_refusal, move_made, move_refusal, moved_limit, remove_made, remove_refusal, stand_refusal};
ghost use Rattle.jr_overlay.specs.Views.{all_gone, all_moved, moved_path, with_node_moved};

use crate::places::{above, check_path, or_memory};
use jr_items::{check_limits, check_not_system, no_item, own_item_rule, own_rule, taken};
use jr_overlay::Draft;
use jr_path::{DeepCopy, Name, Path};
use jr_tree::{Node, Refusal};
use jr_types::Registry;
use std::alloc::{AllocError, Global};

/// Removes a node with all below it (JSR 283, 10.9 Removing Nodes and Properties). Refused, in this order: 15 where the
/// path is too deep or too long, 4 where it is the repository's own, 1 where there is no node; 4 for the root; 4 where
/// the definition that the node goes by below its parent is protected. After a refusal the draft is to be dropped.
pub fn remove<'a>(
    alloc: Global,
    types: &Registry,
    draft: &mut Draft<'a>,
    path: &Path,
) -> Result<(), Refusal>
    requires { draft.old.steps ≡ [] }
    ensures sight { draft.new.sight ≡ draft.old.sight }
    ensures ok { OnOk result (remove_made types.now (sighted draft.old.sight) draft.old.steps
        path.now ≡ Ok draft.new.steps) }
    ensures err { IfErr result (IsDueRefusal (remove_made types.now (sighted draft.old.sight)
        draft.old.steps path.now)) }
{
    match leaving(alloc, types, draft, path) {
        Ok(nodes) => or_memory(alloc, put_all_gone(draft, &nodes)),
        Err(refusal) => Err(refusal),
    }
}

/// Moves a node with all below it to another path (JSR 283, 10.6 Moving Nodes). Refused, in this order: 15 where the
/// path is too deep or too long, 15 for the other path; 4 for the first of both that is the repository's own; 1 where
/// there is no node; 1 where there is none above the other path; 2 where a node is there; 4 with the other path where it
/// is below the node; 15 for the first moved path that is too deep or too long. After a refusal the draft is to be
/// dropped.
pub fn move_to<'a>(
    alloc: Global,
    draft: &mut Draft<'a>,
    from: &Path,
    to: &Path,
) -> Result<(), Refusal>
    requires { draft.old.steps ≡ [] }
    ensures sight { draft.new.sight ≡ draft.old.sight }
    ensures ok { OnOk result (move_made (sighted draft.old.sight) draft.old.steps from.now to.now
        ≡ Ok draft.new.steps) }
    ensures err { IfErr result (IsDueRefusal (move_made (sighted draft.old.sight) draft.old.steps
        from.now to.now)) }
{
    match moving(alloc, draft, from, to) {
        Ok(nodes) => or_memory(alloc, put_all_moved(draft, from, to, &nodes)),
        Err(refusal) => Err(refusal),
    }
}

// The nodes that go, where the node at the path may be removed.
fn leaving<'a>(
    alloc: Global,
    types: &Registry,
    draft: &Draft<'a>,
    path: &Path,
) -> Result<Vec<(&'a Path, &'a Node)>, Refusal>
    ensures passed { OnOk result (remove_refusal types.now (sighted draft.now.sight) draft.now.steps
        path.now ≡ None) }
    ensures ok { IfOk result (λ nodes. map deref_pair nodes.items
        ≡ (sighted draft.now.sight).below path.now) }
    ensures err { IfErr result (IsTheRefusal
        (remove_refusal types.now (sighted draft.now.sight) draft.now.steps path.now)) }
{
    match check_remove(alloc, types, draft, path) {
        Ok(()) => or_memory(alloc, draft.sight().below(path)),
        Err(refusal) => Err(refusal),
    }
}

// The node at a path may be removed.
fn check_remove(
    alloc: Global,
    types: &Registry,
    draft: &Draft<'_>,
    path: &Path,
) -> Result<(), Refusal>
    ensures ok { OnOk result (remove_refusal types.now (sighted draft.now.sight) draft.now.steps
        path.now ≡ None) }
    ensures err { IfErr result (IsTheRefusal
        (remove_refusal types.now (sighted draft.now.sight) draft.now.steps path.now)) }
{
    check_path(alloc, path)?;
    check_there(alloc, draft, path)?;
    check_not_root(alloc, path)?;
    check_not_kept(alloc, types, draft, path)
}

// There is a node at the path.
pub(crate) fn check_there(alloc: Global, draft: &Draft<'_>, path: &Path) -> Result<(), Refusal>
    ensures ok { OnOk result (absent (sighted draft.now.sight) draft.now.steps path.now ≡ None) }
    ensures err { IfErr result (IsTheRefusal
        (absent (sighted draft.now.sight) draft.now.steps path.now)) }
{
    match draft.node(path) {
        Some(_) => Ok(()),
        None => Err(no_item(alloc, path)),
    }
}

// The path isn't the root's.
pub(crate) fn check_not_root(alloc: Global, path: &Path) -> Result<(), Refusal>
    ensures ok { OnOk result (is_root path.now ≡ None) }
    ensures err { IfErr result (IsTheRefusal (is_root path.now)) }
{
    match path.names() {
        [] => Err(own_rule(alloc, path)),
        _ => Ok(()),
    }
}

// The node isn't kept below the one above it.
fn check_not_kept(
    alloc: Global,
    types: &Registry,
    draft: &Draft<'_>,
    path: &Path,
) -> Result<(), Refusal>
    ensures ok { OnOk result (kept_refusal types.now (sighted draft.now.sight) draft.now.steps
        path.now ≡ None) }
    ensures err { IfErr result (IsTheRefusal
        (kept_refusal types.now (sighted draft.now.sight) draft.now.steps path.now)) }
{
    match path.last_name() {
        Some(name) => check_child(alloc, types, draft, path, name),
        None => Ok(()),
    }
}

// The node isn't kept as the child of that name.
fn check_child(
    alloc: Global,
    types: &Registry,
    draft: &Draft<'_>,
    path: &Path,
    name: &Name,
) -> Result<(), Refusal>
    ensures ok { OnOk result (when (is_kept_below types.now (in_draft draft.now (above path.now))
        name.now (in_draft draft.now path.now)) (own_item_rule (above path.now) name.now) ≡ None) }
    ensures err { IfErr result (IsTheRefusal (when (is_kept_below types.now
        (in_draft draft.now (above path.now)) name.now (in_draft draft.now path.now))
        (own_item_rule (above path.now) name.now))) }
{
    match above(alloc, path) {
        Ok(parent) => check_child_of(alloc, types, draft, path, name, &parent),
        Err(AllocError) => Err(Refusal::memory(alloc)),
    }
}

// The node isn't kept as the child of that name of the node at another path.
fn check_child_of(
    alloc: Global,
    types: &Registry,
    draft: &Draft<'_>,
    path: &Path,
    name: &Name,
    parent: &Path,
) -> Result<(), Refusal>
    ensures ok { OnOk result (when (is_kept_below types.now (in_draft draft.now parent.now) name.now
        (in_draft draft.now path.now)) (own_item_rule parent.now name.now) ≡ None) }
    ensures err { IfErr result (IsTheRefusal (when (is_kept_below types.now
        (in_draft draft.now parent.now) name.now (in_draft draft.now path.now))
        (own_item_rule parent.now name.now))) }
{
    match is_kept_below(types, draft.node(parent), name, draft.node(path)) {
        Ok(true) => Err(own_item_rule(alloc, parent, name)),
        Ok(false) => Ok(()),
        Err(AllocError) => Err(Refusal::memory(alloc)),
    }
}

// Whether the definition that a child of that name goes by below a node is protected.
fn is_kept_below(
    types: &Registry,
    node: Option<&Node>,
    name: &Name,
    child: Option<&Node>,
) -> Result<bool, AllocError>
    ensures { IfOk result (λ kept. kept ≡ is_kept_below types.now (option_copied node.entry)
        name.now (option_copied child.entry)) }
{
    match node {
        Some(node) => match child {
            Some(child) => is_protected(types, node, name, child),
            None => Ok(false),
        },
        None => Ok(false),
    }
}

// Whether the definition that a child goes by is protected.
fn is_protected(
    types: &Registry,
    node: &Node,
    name: &Name,
    child: &Node,
) -> Result<bool, AllocError>
    ensures { IfOk result (λ protected. protected ≡ option_map_or (λ d. d.protected)
        (child_def types.now (types_of_node types.now node.now) name.now
        (property_of child.now primary_type)) false) }
{
    match types.child_def(node, name, child)? {
        Some(def) => Ok(def.protected),
        None => Ok(false),
    }
}

// Each of these nodes goes.
fn put_all_gone(draft: &mut Draft<'_>, nodes: &[(&Path, &Node)]) -> Result<(), AllocError>
    ensures sight { draft.new.sight ≡ draft.old.sight }
    ensures ok { OnOk result (draft.new.steps
        ≡ all_gone draft.old.steps (map deref_pair nodes.now)) }
{
    for (at, _) in nodes {
        draft.put(at, None)?;
    }
    Ok(())
}

// The nodes that move, where the node may be moved.
fn moving<'a>(
    alloc: Global,
    draft: &Draft<'a>,
    from: &Path,
    to: &Path,
) -> Result<Vec<(&'a Path, &'a Node)>, Refusal>
    ensures passed { OnOk result (move_refusal (sighted draft.now.sight) draft.now.steps from.now
        to.now ≡ None) }
    ensures ok { IfOk result (λ nodes. map deref_pair nodes.items
        ≡ (sighted draft.now.sight).below from.now) }
    ensures err { IfErr result (IsTheRefusal
        (move_refusal (sighted draft.now.sight) draft.now.steps from.now to.now)) }
{
    check_ends(alloc, from, to)?;
    check_stand(alloc, draft, from, to)?;
    moved_nodes(alloc, draft, from, to)
}

// The paths of a move are within the limits, and not the repository's own.
fn check_ends(alloc: Global, from: &Path, to: &Path) -> Result<(), Refusal>
    ensures ok { OnOk result (ends_refusal from.now to.now ≡ None) }
    ensures err { IfErr result (IsTheRefusal (ends_refusal from.now to.now)) }
{
    match check_both_limits(alloc, from, to) {
        Ok(()) => check_both_own(alloc, from, to),
        Err(refusal) => Err(refusal),
    }
}

// The paths of a move are within the limits.
fn check_both_limits(alloc: Global, from: &Path, to: &Path) -> Result<(), Refusal>
    ensures ok { OnOk result
        (first_some (limit_refusal from.now ∷ limit_refusal to.now ∷ []) ≡ None) }
    ensures err { IfErr result
        (IsTheRefusal (first_some (limit_refusal from.now ∷ limit_refusal to.now ∷ []))) }
{
    match check_limits(alloc, from) {
        Ok(()) => check_limits(alloc, to),
        Err(refusal) => Err(refusal),
    }
}

// The paths of a move are not the repository's own.
fn check_both_own(alloc: Global, from: &Path, to: &Path) -> Result<(), Refusal>
    ensures ok { OnOk result (first_some (in_system from.now ∷ in_system to.now ∷ []) ≡ None) }
    ensures err { IfErr result
        (IsTheRefusal (first_some (in_system from.now ∷ in_system to.now ∷ []))) }
{
    match check_not_system(alloc, from) {
        Ok(()) => check_not_system(alloc, to),
        Err(refusal) => Err(refusal),
    }
}

// There is a node, and it may stand at the other path.
fn check_stand(alloc: Global, draft: &Draft<'_>, from: &Path, to: &Path) -> Result<(), Refusal>
    ensures ok { OnOk result (stand_refusal (sighted draft.now.sight) draft.now.steps from.now
        to.now ≡ None) }
    ensures err { IfErr result (IsTheRefusal
        (stand_refusal (sighted draft.now.sight) draft.now.steps from.now to.now)) }
{
    match check_both_there(alloc, draft, from, to) {
        Ok(()) => check_target(alloc, draft, from, to),
        Err(refusal) => Err(refusal),
    }
}

// There is a node, and one above the other path.
fn check_both_there(alloc: Global, draft: &Draft<'_>, from: &Path, to: &Path) -> Result<(), Refusal>
    ensures ok { OnOk result (first_some (absent (sighted draft.now.sight) draft.now.steps from.now
        ∷ absent (sighted draft.now.sight) draft.now.steps (above to.now) ∷ []) ≡ None) }
    ensures err { IfErr result (IsTheRefusal
        (first_some (absent (sighted draft.now.sight) draft.now.steps from.now
        ∷ absent (sighted draft.now.sight) draft.now.steps (above to.now) ∷ []))) }
{
    match check_there(alloc, draft, from) {
        Ok(()) => check_above(alloc, draft, to),
        Err(refusal) => Err(refusal),
    }
}

// There is no node at the other path, which isn't at or below the first.
fn check_target(alloc: Global, draft: &Draft<'_>, from: &Path, to: &Path) -> Result<(), Refusal>
    ensures ok { OnOk result (first_some (when (is_some (in_draft draft.now to.now)) (taken to.now)
        ∷ when (is_under to.now from.now) (own_rule to.now) ∷ []) ≡ None) }
    ensures err { IfErr result (IsTheRefusal
        (first_some (when (is_some (in_draft draft.now to.now)) (taken to.now)
        ∷ when (is_under to.now from.now) (own_rule to.now) ∷ []))) }
{
    match check_free(alloc, draft, to) {
        Ok(()) => check_not_below(alloc, from, to),
        Err(refusal) => Err(refusal),
    }
}

// There is a node above the path.
fn check_above(alloc: Global, draft: &Draft<'_>, path: &Path) -> Result<(), Refusal>
    ensures ok { OnOk result (absent (sighted draft.now.sight) draft.now.steps (above path.now)
        ≡ None) }
    ensures err { IfErr result (IsTheRefusal
        (absent (sighted draft.now.sight) draft.now.steps (above path.now))) }
{
    match above(alloc, path) {
        Ok(parent) => check_there(alloc, draft, &parent),
        Err(AllocError) => Err(Refusal::memory(alloc)),
    }
}

// There is no node at the path.
fn check_free(alloc: Global, draft: &Draft<'_>, path: &Path) -> Result<(), Refusal>
    ensures ok { OnOk result
        (when (is_some (in_draft draft.now path.now)) (taken path.now) ≡ None) }
    ensures err { IfErr result (IsTheRefusal
        (when (is_some (in_draft draft.now path.now)) (taken path.now))) }
{
    match draft.node(path) {
        Some(_) => Err(taken(alloc, path)),
        None => Ok(()),
    }
}

// The second path isn't at or below the first.
fn check_not_below(alloc: Global, from: &Path, to: &Path) -> Result<(), Refusal>
    ensures ok { OnOk result (when (is_under to.now from.now) (own_rule to.now) ≡ None) }
    ensures err { IfErr result (IsTheRefusal (when (is_under to.now from.now) (own_rule to.now))) }
{
    if to.is_under(from) {
        return Err(own_rule(alloc, to));
    }
    Ok(())
}

// The nodes that move, where the paths that they get are within the limits.
fn moved_nodes<'a>(
    alloc: Global,
    draft: &Draft<'a>,
    from: &Path,
    to: &Path,
) -> Result<Vec<(&'a Path, &'a Node)>, Refusal>
    ensures passed { OnOk result (moved_limit from.now to.now
        ((sighted draft.now.sight).below from.now) ≡ None) }
    ensures ok { IfOk result (λ nodes. map deref_pair nodes.items
        ≡ (sighted draft.now.sight).below from.now) }
    ensures err { IfErr result (IsTheRefusal
        (moved_limit from.now to.now ((sighted draft.now.sight).below from.now))) }
{
    match draft.sight().below(from) {
        Ok(nodes) => within_limits(alloc, nodes, from, to),
        Err(AllocError) => Err(Refusal::memory(alloc)),
    }
}

// The nodes, where the paths that they get are within the limits.
fn within_limits<'a>(
    alloc: Global,
    nodes: Vec<(&'a Path, &'a Node)>,
    from: &Path,
    to: &Path,
) -> Result<Vec<(&'a Path, &'a Node)>, Refusal>
    ensures passed { OnOk result
        (moved_limit from.now to.now (map deref_pair nodes.entry.items) ≡ None) }
    ensures ok { IfOk result (λ same. same.items ≡ nodes.entry.items) }
    ensures err { IfErr result (IsTheRefusal
        (moved_limit from.now to.now (map deref_pair nodes.entry.items))) }
{
    match check_moved(alloc, &nodes, from, to) {
        Ok(()) => Ok(nodes),
        Err(refusal) => Err(refusal),
    }
}

// The paths that the nodes get are within the limits.
fn check_moved(
    alloc: Global,
    nodes: &[(&Path, &Node)],
    from: &Path,
    to: &Path,
) -> Result<(), Refusal>
    ensures ok { OnOk result (moved_limit from.now to.now (map deref_pair nodes.now) ≡ None) }
    ensures err { IfErr result (IsTheRefusal
        (moved_limit from.now to.now (map deref_pair nodes.now))) }
{
    for (at, _) in nodes {
        check_moved_path(alloc, from, to, at)?;
    }
    Ok(())
}

// The path that a node gets is within the limits.
fn check_moved_path(alloc: Global, from: &Path, to: &Path, at: &Path) -> Result<(), Refusal>
    ensures ok { OnOk result (limit_refusal (moved_path from.now to.now at.now) ≡ None) }
    ensures err { IfErr result (IsTheRefusal (limit_refusal (moved_path from.now to.now at.now))) }
{
    match moved_path(from, to, at) {
        Ok(place) => check_limits(alloc, &place),
        Err(AllocError) => Err(Refusal::memory(alloc)),
    }
}

// Where what stands at a path comes to stand.
fn moved_path(from: &Path, to: &Path, at: &Path) -> Result<Path, AllocError>
    ensures { IfOk result (λ place. place ≡ moved_path from.now to.now at.now) }
{
    let mut place = to.copy()?;
    for name in behind(at.names(), from.depth()) {
        place = place.child(name)?;
    }
    Ok(place)
}

// The names behind so many.
fn behind(names: &[Name], count: usize) -> &[Name]
    ensures { result.now ≡ drop count names.now }
{
    if count > names.len() {
        return &[];
    }
    &names[count..]
}

// Each of these nodes goes and stands at its new place.
fn put_all_moved(
    draft: &mut Draft<'_>,
    from: &Path,
    to: &Path,
    nodes: &[(&Path, &Node)],
) -> Result<(), AllocError>
    ensures sight { draft.new.sight ≡ draft.old.sight }
    ensures ok { OnOk result (draft.new.steps
        ≡ all_moved from.now to.now draft.old.steps (map deref_pair nodes.now)) }
{
    for (at, node) in nodes {
        put_moved(draft, from, to, at, node)?;
    }
    Ok(())
}

// A node goes and stands at its new place.
fn put_moved(
    draft: &mut Draft<'_>,
    from: &Path,
    to: &Path,
    at: &Path,
    node: &Node,
) -> Result<(), AllocError>
    ensures sight { draft.new.sight ≡ draft.old.sight }
    ensures ok { OnOk result (draft.new.steps
        ≡ with_node_moved from.now to.now draft.old.steps (at.now, node.now)) }
{
    draft.put(at, None)?;
    let place = moved_path(from, to, at)?;
    draft.put(&place, Some(node.copy()?))
}
