// What has to be known of the tree at the base before a command is made.
ghost use Rattle.std.specs.Prelude.{◌≡◌, ◌∷◌, ◌++◌, [], IfOk, OnOk, cond};
ghost use Rattle.std.specs.List.{list_any};
ghost use Rattle.std.specs.Option.{option_copied};
ghost use Rattle.jr_items.specs.Items.{same_name};
ghost use Rattle.jr_items.specs.Names.{versionable};
ghost use Rattle.jr_part.specs.declared.need.Need.TheVariants as need;
ghost use Rattle.jr_part.specs.Parts.{known_at};
ghost use Rattle.jr_overlay.specs.Overlays.{seen};
ghost use Rattle.jcr_mixin.specs.Histories.{due_history};
ghost use Rattle.jcr_make.specs.Subtrees.{makes_histories, makes_history};
ghost use Rattle.jcr_view.specs.Needs.{and_again, and_node, children_needs, ends_at, history_needs, listing_needs, needs_of, needs_to_rebase, parent_needs, storage_needs, versionable_needs};
ghost use Rattle.jcr_write.specs.Places.{above};

use jcr_mixin::{due_history, version_storage};
use jcr_trans::{Command, TreeNode};
use jcr_write::above;
use jr_items::OwnName;
use jr_overlay::{Overlay, Sight};
use jr_part::{Need, Part};
use jr_path::{DeepCopy, Name, Path};
use jr_tree::{Node, Who, Write};
use std::alloc::{AllocError, Global};

/// What a command asks for, where so much is known and has changed.
pub(crate) fn needs(
    alloc: Global,
    part: &Part,
    overlay: &Overlay,
    who: &Who,
    command: &Command,
) -> Result<Vec<Need>, AllocError>
    ensures { IfOk result (λ needs. needs.items
        ≡ needs_of who.now part.now overlay.now command.now) }
{
    match command {
        Command::Add(path, _) => adding_needs(alloc, path),
        Command::Tree(path, nodes) => tree_needs(alloc, path, nodes.as_slice()),
        Command::Set(path, _, _) | Command::Unset(path, _) | Command::Unmixin(path, _) =>
            node_needs(alloc, path),
        Command::Remove(path) => adding_needs(alloc, path),
        Command::Move(from, to) => moving_needs(alloc, from, to),
        Command::Mixin(path, name) => mixin_needs(alloc, part, overlay, who, path, name),
        Command::SetType(path, _) => subtree_needs(alloc, path),
        Command::OrderBefore(path, _) => ordering_needs(alloc, part, path),
        Command::Get(path) => property_needs(alloc, path),
        Command::List(path) => listing_needs(alloc, part, path),
        Command::Props(path) | Command::Id(path) => node_needs(alloc, path),
        Command::ById(_) | Command::Refs(_) | Command::Versions(_) => one(alloc, Need::All),
        _ => Ok(Vec::new(alloc)),
    }
}

fn one(alloc: Global, need: Need) -> Result<Vec<Need>, AllocError>
    ensures { IfOk result (λ needs. needs.items ≡ need ∷ []) }
{
    let mut needs = Vec::new(alloc);
    needs.push(need)?;
    Ok(needs)
}

// The node at a path.
fn node_needs(alloc: Global, path: &Path) -> Result<Vec<Need>, AllocError>
    ensures { IfOk result (λ needs. needs.items ≡ need.Node path.now ∷ []) }
{
    one(alloc, Need::Node(path.copy()?))
}

// What stands at or below a path.
fn subtree_needs(alloc: Global, path: &Path) -> Result<Vec<Need>, AllocError>
    ensures { IfOk result (λ needs. needs.items ≡ need.Subtree path.now ∷ []) }
{
    one(alloc, Need::Subtree(path.copy()?))
}

// What stands at or below a path, and the node above it.
fn adding_needs(alloc: Global, path: &Path) -> Result<Vec<Need>, AllocError>
    ensures { IfOk result (λ needs. needs.items
        ≡ need.Subtree path.now ∷ need.Node (above path.now) ∷ []) }
{
    let mut needs = subtree_needs(alloc, path)?;
    needs.push(Need::Node(above(alloc, path)?))?;
    Ok(needs)
}

fn moving_needs(alloc: Global, from: &Path, to: &Path) -> Result<Vec<Need>, AllocError>
    ensures { IfOk result (λ needs. needs.items
        ≡ need.Subtree from.now ∷ need.Subtree to.now ∷ need.Node (above to.now) ∷ []) }
{
    let mut needs = subtree_needs(alloc, from)?;
    needs.push(Need::Subtree(to.copy()?))?;
    needs.push(Need::Node(above(alloc, to)?))?;
    Ok(needs)
}

// The node at a path, and the one above with the names of its children.
fn ordering_needs(alloc: Global, part: &Part, path: &Path) -> Result<Vec<Need>, AllocError>
    ensures { IfOk result (λ needs. needs.items
        ≡ need.Node path.now ∷ listing_needs part.now (above path.now)) }
{
    let above = above(alloc, path)?;
    let mut needs = node_needs(alloc, path)?;
    needs.push(Need::Node(above.copy()?))?;
    push_children(&mut needs, part, &above)?;
    Ok(needs)
}

// The node at a path, and the names of its children where one is there.
fn listing_needs(alloc: Global, part: &Part, path: &Path) -> Result<Vec<Need>, AllocError>
    ensures { IfOk result (λ needs. needs.items ≡ listing_needs part.now path.now) }
{
    let mut needs = node_needs(alloc, path)?;
    push_children(&mut needs, part, path)?;
    Ok(needs)
}

fn push_children(needs: &mut Vec<Need>, part: &Part, path: &Path) -> Result<(), AllocError>
    ensures { OnOk result (needs.new.items
        ≡ needs.old.items ++ children_needs (known_at part.now path.now) path.now) }
{
    match part.node(path) {
        Some(Some(_)) => Ok(needs.push(Need::Children(path.copy()?))?),
        _ => Ok(()),
    }
}

// The node above the property that a path names; the root names none.
fn property_needs(alloc: Global, path: &Path) -> Result<Vec<Need>, AllocError>
    ensures { IfOk result (λ needs. needs.items ≡ parent_needs path.now) }
{
    match path.parent()? {
        Some(parent) => one(alloc, Need::Node(parent)),
        None => Ok(Vec::new(alloc)),
    }
}

// What adding a tree asks for; the version storage too, where a node of it gets a history.
fn tree_needs(alloc: Global, path: &Path, nodes: &[TreeNode]) -> Result<Vec<Need>, AllocError>
    ensures { IfOk result (λ needs. needs.items
        ≡ need.Subtree path.now ∷ need.Node (above path.now) ∷ storage_needs nodes.now) }
{
    let mut needs = adding_needs(alloc, path)?;
    push_storage(&mut needs, alloc, nodes)?;
    Ok(needs)
}

fn push_storage(needs: &mut Vec<Need>, alloc: Global, nodes: &[TreeNode]) -> Result<(), AllocError>
    ensures { OnOk result (needs.new.items ≡ needs.old.items ++ storage_needs nodes.now) }
{
    if makes_histories(nodes) {
        needs.push(Need::Subtree(version_storage(alloc)?))?;
    }
    Ok(())
}

fn makes_histories(nodes: &[TreeNode]) -> bool
    ensures { result ≡ makes_histories nodes.now }
{
    nodes.iter().any(|node| makes_history(node))
}

fn makes_history(node: &TreeNode) -> bool
    ensures { result ≡ makes_history node.now }
{
    lists_versionable(node.mixins.as_slice())
}

fn lists_versionable(mixins: &[Name]) -> bool
    ensures { result ≡ list_any (same_name versionable) mixins.now }
{
    mixins.iter().any(|name| OwnName::Versionable.is(name))
}

// What a mixin asks for; `mix:versionable` also asks for the history.
fn mixin_needs(
    alloc: Global,
    part: &Part,
    overlay: &Overlay,
    who: &Who,
    path: &Path,
    name: &Name,
) -> Result<Vec<Need>, AllocError>
    ensures { IfOk result (λ needs. needs.items ≡ cond (same_name versionable name.now)
        (versionable_needs (known_at part.now path.now) path.now
        (due_history who.now who.now.ids (seen part.now.nodes overlay.now path.now)))
        (need.Subtree path.now ∷ [])) }
{
    if OwnName::Versionable.is(name) {
        versionable_needs(alloc, part, overlay, who, path)
    } else {
        subtree_needs(alloc, path)
    }
}

fn versionable_needs(
    alloc: Global,
    part: &Part,
    overlay: &Overlay,
    who: &Who,
    path: &Path,
) -> Result<Vec<Need>, AllocError>
    ensures { IfOk result (λ needs. needs.items
        ≡ versionable_needs (known_at part.now path.now) path.now
        (due_history who.now who.now.ids (seen part.now.nodes overlay.now path.now))) }
{
    match part.node(path) {
        None => node_needs(alloc, path),
        Some(_) => known_needs(alloc, who, path, Sight::new(part, overlay).node(path)),
    }
}

// What stands at or below a path, and the history of the node that is seen there.
fn known_needs(
    alloc: Global,
    who: &Who,
    path: &Path,
    node: Option<&Node>,
) -> Result<Vec<Need>, AllocError>
    ensures { IfOk result (λ needs. needs.items ≡ need.Subtree path.now
        ∷ history_needs (due_history who.now who.now.ids (option_copied node.entry))) }
{
    let mut needs = subtree_needs(alloc, path)?;
    push_history(&mut needs, alloc, who, node)?;
    Ok(needs)
}

fn push_history(
    needs: &mut Vec<Need>,
    alloc: Global,
    who: &Who,
    node: Option<&Node>,
) -> Result<(), AllocError>
    ensures { OnOk result (needs.new.items ≡ needs.old.items
        ++ history_needs (due_history who.now who.now.ids (option_copied node.entry))) }
{
    match due_history(alloc, who, node)? {
        Some(history) => Ok(needs.push(Need::Subtree(history))?),
        None => Ok(()),
    }
}

/// What has to be known to make writes again on another tree.
pub(crate) fn needs_to_rebase(alloc: Global, writes: &[Write]) -> Result<Vec<Need>, AllocError>
    ensures { IfOk result (λ needs. needs.items ≡ needs_to_rebase writes.now) }
{
    let mut needs = Vec::new(alloc);
    for write in writes {
        push_again(&mut needs, alloc, write)?;
    }
    Ok(needs)
}

fn push_again(needs: &mut Vec<Need>, alloc: Global, write: &Write) -> Result<(), AllocError>
    ensures { OnOk result (needs.new.items ≡ and_again needs.old.items write.now) }
{
    match write {
        Write::Here(path) => push_two(needs, alloc, path),
        Write::Gone(path) => push_subtree(needs, path),
        Write::Put(path, _, _) | Write::Unset(path, _) => push_node(needs, path),
    }
}

// The node at a path, unless that stands last.
fn push_node(needs: &mut Vec<Need>, path: &Path) -> Result<(), AllocError>
    ensures { OnOk result (needs.new.items ≡ and_node needs.old.items path.now) }
{
    if !ends_at(needs, path) {
        needs.push(Need::Node(path.copy()?))?;
    }
    Ok(())
}

// The last need is of the node at a path.
fn ends_at(needs: &[Need], path: &Path) -> bool
    ensures { result ≡ ends_at needs.now path.now }
{
    match needs.last() {
        Some(Need::Node(last)) => path == last,
        _ => false,
    }
}

fn push_subtree(needs: &mut Vec<Need>, path: &Path) -> Result<(), AllocError>
    ensures { OnOk result (needs.new.items ≡ needs.old.items ++ need.Subtree path.now ∷ []) }
{
    needs.push(Need::Subtree(path.copy()?))?;
    Ok(())
}

// The node above a path, and the one there.
fn push_two(needs: &mut Vec<Need>, alloc: Global, path: &Path) -> Result<(), AllocError>
    ensures { OnOk result (needs.new.items
        ≡ and_node (and_node needs.old.items (above path.now)) path.now) }
{
    push_node(needs, &above(alloc, path)?)?;
    push_node(needs, path)
}
