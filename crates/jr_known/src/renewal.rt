// What is known of an earlier tree becomes what is known of the new one, a told path at a time.
ghost use Rattle.std.specs.Prelude.{◌≡◌, ◌∷◌, ◌++◌, [], Contains, IfOk, IsTrue, None, OnOk, Some, is_some};
ghost use Rattle.std.specs.List.{fold};
ghost use Rattle.jr_tree.specs.Trees.{Nodes, node_at};
ghost use Rattle.jr_path.specs.declared.path.Path.{Path};
ghost use Rattle.jr_part.specs.Parts.{AgreesWith, known_at};
ghost use Rattle.jr_known.specs.Earlier.{AreKnown};
ghost use Rattle.jr_known.specs.Renewal.{AreListed, IsRenewedBut, ListsChild, born_in, with_list_begun};

use crate::child_names::renamed;
use jr_part::Part;
use jr_path::{DeepCopy, List, Name, Path};
use jr_rev::Revision;
use jr_tree::Node;
use std::alloc::{AllocError, Global};

// At each told path at which the earlier tree has no node, it is known that none has children.
pub(crate) fn begin_lists(part: &mut Part, alloc: Global, told: &[Path]) -> Result<(), AllocError>
    ensures { OnOk result (part.new ≡ fold with_list_begun part.old told.now) }
{
    for path in told {
        begin_list(part, alloc, path)?;
    }
    Ok(())
}

fn begin_list(part: &mut Part, alloc: Global, path: &Path) -> Result<(), AllocError>
    ensures { OnOk result (part.new ≡ with_list_begun part.old path.now) }
{
    if has_node(part, path) {
        return Ok(());
    }
    part.put_children(path, List::new(alloc))
}

fn has_node(part: &Part, path: &Path) -> bool
    ensures { result ≡ is_some (node_at part.now.nodes path.now) }
{
    match part.node(path) {
        Some(Some(_)) => true,
        Some(None) | None => false,
    }
}

// What is known at each told path, and of it above, is that of the new tree.
pub(crate) fn renew_all(
    part: &mut Part,
    alloc: Global,
    told: &[Path],
    fresh: &Part,
) -> Result<(), AllocError>
    requires { AreKnown fresh.now told.now }
    ensures renewed { (t : Nodes) → AgreesWith t fresh.now → IsRenewedBut t told.now part.old
        → OnOk result (IsRenewedBut t [] part.new) }
    ensures listed { AreListed told.now part.old → OnOk result (AreListed told.now part.new) }
{
    for path in told {
        renew_at(part, alloc, path, fresh)?;
    }
    Ok(())
}

// The node at a path is put, and its name in the list of the node above; or both go.
fn renew_at(part: &mut Part, alloc: Global, path: &Path, fresh: &Part) -> Result<(), AllocError>
    requires { IsTrue (is_some (known_at fresh.now path.now)) }
    ensures renewed { (t : Nodes) (left : _) → AgreesWith t fresh.now
        → IsRenewedBut t (path.now ∷ left) part.old → OnOk result (IsRenewedBut t left part.new) }
    ensures listed { (told : _) → Contains told path.now → AreListed told part.old
        → OnOk result (AreListed told part.new) }
{
    let node = known_node(fresh, path)?;
    list_above(part, alloc, path, born_in(&node))?;
    part.in_order();
    part.put_node(path, node)?;
    Ok(())
}

// A copy of the node that is known to be at a path; None where none is.
fn known_node(fresh: &Part, path: &Path) -> Result<Option<Node>, AllocError>
    requires { IsTrue (is_some (known_at fresh.now path.now)) }
    ensures { IfOk result (λ node. known_at fresh.now path.now ≡ Some node) }
{
    match fresh.node(path) {
        Some(Some(node)) => Ok(Some(node.copy()?)),
        Some(None) | None => Ok(None),
    }
}

fn born_in(node: &Option<Node>) -> Option<Option<Revision>>
    ensures { result ≡ born_in node.now }
{
    match node {
        Some(node) => Some(node.born),
        None => None,
    }
}

// In the list of the node above a path, where it is known, the child at the path stands as it is
// now.
fn list_above(
    part: &mut Part,
    alloc: Global,
    path: &Path,
    born: Option<Option<Revision>>,
) -> Result<(), AllocError>
    ensures { OnOk result (ListsChild part.old part.new path.now born) }
{
    let Some(name) = path.last_name() else {
        return Ok(());
    };
    match path.parent()? {
        Some(above) => list_child(part, alloc, &above, name, born),
        None => Ok(()),
    }
}

fn list_child(
    part: &mut Part,
    alloc: Global,
    above: &Path,
    name: &Name,
    born: Option<Option<Revision>>,
) -> Result<(), AllocError>
    ensures { OnOk result (ListsChild part.old part.new (above.now ++ name.now ∷ []) born) }
{
    part.in_order();
    let Some(names) = part.children(above) else {
        return Ok(());
    };
    match renamed(alloc, names, name, born)? {
        Some(names) => part.put_children(above, names),
        None => Ok(()),
    }
}
