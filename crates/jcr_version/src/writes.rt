// Lists of writes, and those of them that change something.
ghost use Rattle.std.specs.Prelude.{◌≡◌, ◌++◌, ◌∷◌, [], IfOk, OnOk, filter, map};
ghost use Rattle.jr_tree.specs.declared.edit.Write.TheVariants.{Put};
ghost use Rattle.jr_items.specs.Items.{adding};
ghost use Rattle.jr_items.specs.Own.{own_name};
ghost use Rattle.jcr_lock.specs.Needed.{has_this_property, is_needed};

use jr_items::OwnName;
use jr_path::{DeepCopy, List, Name, Path};
use jr_tree::{Edit, Node, Tree, Write};
use jr_value::Property;
use std::alloc::{AllocError, Global};

/// Those of the writes that change something, each judged by the tree before them. It takes no memory.
pub(crate) fn needed(tree: &Tree, mut writes: List<Write>) -> Edit
    ensures { result.writes ≡ filter (is_needed tree.now) writes }
{
    writes.inner_mut().retain(|write| is_needed(tree, write));
    Edit { writes }
}

// Whether the write changes something.
fn is_needed(tree: &Tree, write: &Write) -> bool
    ensures { result ≡ is_needed tree.now write.now }
{
    match write {
        Write::Here(path) => !tree.has(path),
        Write::Gone(path) => tree.has(path),
        Write::Put(path, name, property) => !is_there(tree, path, name, property),
        Write::Unset(path, name) => tree.property(path, name).is_some(),
    }
}

// Whether the node has this property.
fn is_there(tree: &Tree, path: &Path, name: &Name, property: &Property) -> bool
    ensures { result ≡ has_this_property tree.now path.now name.now property.now }
{
    match tree.property(path, name) {
        Some(found) => property == found,
        None => false,
    }
}

/// Puts the writes that add nodes with their properties.
pub(crate) fn push_adding(
    writes: &mut List<Write>,
    nodes: Vec<(Path, Node)>,
) -> Result<(), AllocError>
    ensures { OnOk result (writes.new ≡ writes.old ++ adding nodes.items) }
{
    for (path, node) in nodes {
        writes.push(Write::Here(path.copy()?))?;
        push_props(writes, &path, node)?;
    }
    Ok(())
}

fn push_props(writes: &mut List<Write>, path: &Path, node: Node) -> Result<(), AllocError>
    ensures { OnOk result (writes.new ≡ writes.old ++ map (λ x. Put path.now x.0 x.1) node.props) }
{
    for (name, property) in node.into_props().into_inner() {
        writes.push(Write::Put(path.copy()?, name, property))?;
    }
    Ok(())
}

/// Puts the write of a property with a name of the repository's own.
pub(crate) fn push_property(
    writes: &mut List<Write>,
    alloc: Global,
    path: &Path,
    name: OwnName,
    property: Property,
) -> Result<(), AllocError>
    ensures { OnOk result (writes.new ≡ writes.old ++ Put path.now (own_name name) property ∷ []) }
{
    let (path, name) = place_of(alloc, path, name)?;
    writes.push(Write::Put(path, name, property))
}

// Where a property with a name of the repository's own stands.
fn place_of(alloc: Global, path: &Path, name: OwnName) -> Result<(Path, Name), AllocError>
    ensures { IfOk result (λ place. place ≡ (path.now, own_name name)) }
{
    let path = path.copy()?;
    Ok((path, name.name(alloc)?))
}
