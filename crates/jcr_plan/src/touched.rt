// The nodes that an edit touches: those whose types, items, children or children's types it changes.
ghost use Rattle.std.specs.Prelude.{◌≡◌, ◌∷◌, [], cond, option_to_list, IfOk, OnOk};
ghost use Rattle.std.specs.List.{flat_map};
ghost use Rattle.jr_path.specs.Names.{parent_of};
ghost use Rattle.jr_tree.specs.Merging.{with_room};
ghost use Rattle.jcr_plan.specs.Checked.{IsTouched, renewed_by, touched_by};

use jcr_marks::is_type_name;
use jr_items::OwnName;
use jr_path::{DeepCopy, Path};
use jr_tree::{Node, Tree, Write};
use std::alloc::{AllocError, Global};

// The touched nodes, and those of which all is looked at, each as a tree of nodes without properties.
pub struct Touched {
    pub(crate) nodes: Tree,
    pub(crate) renewed: Tree,
}

// By hand, so that its parts are let go in one call.
impl Drop for Touched {
    fn drop(self) {
        let Touched { nodes, renewed } = self;
        drop(nodes);
        drop(renewed);
    }
}

impl Touched {
    pub(crate) fn of(alloc: Global, writes: &[Write]) -> Result<Touched, AllocError>
        ensures { IfOk result (IsTouched writes.now) }
    {
        let nodes = touched_nodes(alloc, writes)?;
        match renewed_nodes(alloc, writes) {
            Ok(renewed) => Ok(Touched { nodes, renewed }),
            Err(AllocError) => {
                drop(nodes);
                Err(AllocError)
            }
        }
    }
}

fn touched_nodes(alloc: Global, writes: &[Write]) -> Result<Tree, AllocError>
    ensures { IfOk result (λ tree. tree ≡ with_room [] (flat_map touched_by writes.now)) }
{
    let mut tree = Tree::new(alloc);
    for write in writes {
        match note_touched(&mut tree, alloc, write) {
            Ok(()) => {}
            Err(AllocError) => {
                drop(tree);
                return Err(AllocError);
            }
        }
    }
    Ok(tree)
}

fn note_touched(tree: &mut Tree, alloc: Global, write: &Write) -> Result<(), AllocError>
    ensures { OnOk result (tree.new ≡ with_room tree.old (touched_by write.now)) }
{
    match write {
        Write::Here(path) | Write::Gone(path) => note_with_parent(tree, alloc, path, true),
        Write::Put(path, name, _) | Write::Unset(path, name) => {
            note_with_parent(tree, alloc, path, OwnName::PrimaryType.is(name))
        }
    }
}

// Notes a node, and the one above it where that is asked.
fn note_with_parent(
    tree: &mut Tree,
    alloc: Global,
    path: &Path,
    above: bool,
) -> Result<(), AllocError>
    ensures { OnOk result (tree.new
        ≡ with_room tree.old (path.now ∷ cond above (option_to_list (parent_of path.now)) [])) }
{
    note(tree, alloc, path.copy()?)?;
    if !above {
        return Ok(());
    }
    match path.parent()? {
        Some(parent) => note(tree, alloc, parent),
        None => Ok(()),
    }
}

// The nodes that come or go or whose types are written.
fn renewed_nodes(alloc: Global, writes: &[Write]) -> Result<Tree, AllocError>
    ensures { IfOk result (λ tree. tree ≡ with_room [] (flat_map renewed_by writes.now)) }
{
    let mut tree = Tree::new(alloc);
    for write in writes {
        match note_renewed(&mut tree, alloc, write) {
            Ok(()) => {}
            Err(AllocError) => {
                drop(tree);
                return Err(AllocError);
            }
        }
    }
    Ok(tree)
}

fn note_renewed(tree: &mut Tree, alloc: Global, write: &Write) -> Result<(), AllocError>
    ensures { OnOk result (tree.new ≡ with_room tree.old (renewed_by write.now)) }
{
    match write {
        Write::Here(path) | Write::Gone(path) => note(tree, alloc, path.copy()?),
        Write::Put(path, name, _) | Write::Unset(path, name) => {
            note_if(tree, alloc, path, is_type_name(name))
        }
    }
}

fn note_if(tree: &mut Tree, alloc: Global, path: &Path, asked: bool) -> Result<(), AllocError>
    ensures { OnOk result (tree.new ≡ with_room tree.old (cond asked (path.now ∷ []) [])) }
{
    if !asked {
        return Ok(());
    }
    note(tree, alloc, path.copy()?)
}

fn note(tree: &mut Tree, alloc: Global, path: Path) -> Result<(), AllocError>
    ensures { OnOk result (tree.new ≡ with_room tree.old (path ∷ [])) }
{
    tree.insert(path, Node::new(alloc))
}
