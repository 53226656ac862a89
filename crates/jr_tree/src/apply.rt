// What an edit makes of a tree.
ghost use Rattle.std.specs.Prelude.{◌≡◌, ℕ, IfOk, IsTrue, OnOk, OnErr, map, take};
ghost use Rattle.std.specs.BTreeMap.{insert_entry};
ghost use Rattle.std.specs.FinMap.{is_sorted};
ghost use Rattle.std.specs.List.{fold};
ghost use Rattle.std.specs.Map.Iter.{deref};
ghost use Rattle.jr_path.specs.Names.{path_cmp};
ghost use Rattle.jr_tree.specs.declared.edit.Write.TheVariants as write;
ghost use Rattle.jr_tree.specs.Merging.{with_node_of, written_nodes, paths_missing, with_room, without_paths, without_gone, without_unless, with_tree_part, changed_part, merged};
ghost use Rattle.jr_tree.specs.Edits.{applied, properties_at, with_node_write, with_property_write};

use crate::edit::{Edit, Write};
use crate::tree::{Node, Tree};
use jr_path::{DeepCopy, Keyed, Name, Path};
use jr_rev::Revision;
use jr_value::Property;
use std::alloc::{AllocError, Global};

impl Tree {
    /// Applies an edit: the last write of each item counts, those of nodes first. A node that comes has
    /// no properties before its own writes, and a node that goes loses its own; a property is written
    /// where its node is there. Each node that a Here names gets the revision, or none in a view, as the
    /// one that added it. A refusal leaves the tree as it was.
    pub fn apply(&mut self, edit: &Edit, born: Option<Revision>) -> Result<(), AllocError>
        ensures ok { OnOk result (self.new ≡ applied born self.old edit.now.writes) }
        ensures err { OnErr result (self.new ≡ self.old) }
    {
        let last = edit.last_writes()?;
        make(&mut self.nodes, self.alloc, &last, born)?;
        Ok(())
    }

    /// Puts a node at a path, in the place of one that is there. A refusal leaves the tree as it was.
    pub fn insert(&mut self, path: Path, node: Node) -> Result<(), AllocError>
        ensures ok { OnOk result (self.new ≡ insert_entry path_cmp self.old path node) }
        ensures err { OnErr result (self.new ≡ self.old) }
    {
        self.nodes.put(path, node)?;
        Ok(())
    }

    /// Puts a property of the node at a path, if one is there. A refusal leaves the tree as it was.
    pub fn put(&mut self, path: &Path, name: Name, property: Property) -> Result<(), AllocError>
        ensures ok { OnOk result (self.new ≡ with_property_write self.old (write.Put path.now name property)) }
        ensures err { OnErr result (self.new ≡ self.old) }
    {
        put_property(&mut self.nodes, path, name, property)?;
        Ok(())
    }
}

// Puts a property of the node at a path, if one is there.
fn put_property(
    nodes: &mut Keyed<Path, Node>,
    path: &Path,
    name: Name,
    property: Property,
) -> Result<(), AllocError>
    ensures ok { OnOk result (nodes.new ≡ with_property_write nodes.old (write.Put path.now name property)) }
    ensures err { OnErr result (nodes.new ≡ nodes.old) }
{
    if let Some(node) = nodes.inner_mut().get_mut(path) {
        node.props.put(name, property)?;
    }
    Ok(())
}

// Makes the writes. A refusal leaves all as it was.
fn make(
    nodes: &mut Keyed<Path, Node>,
    alloc: Global,
    writes: &[&Write],
    born: Option<Revision>,
) -> Result<(), AllocError>
    requires { IsTrue (is_sorted path_cmp nodes.old) }
    ensures ok { OnOk result (nodes.new ≡ merged nodes.old (changed_part born nodes.old (map deref writes.now)) (map deref writes.now)) }
    ensures err { OnErr result (nodes.new ≡ nodes.old) }
{
    let part = changed_part(nodes, alloc, writes, born)?;
    merge(nodes, alloc, part, writes)
}

// Copies of the nodes that are written, with the writes made.
fn changed_part(
    nodes: &Keyed<Path, Node>,
    alloc: Global,
    writes: &[&Write],
    born: Option<Revision>,
) -> Result<Keyed<Path, Node>, AllocError>
    ensures { IfOk result (λ part. part ≡ changed_part born nodes.now (map deref writes.now)) }
{
    let mut part = written_nodes(nodes, alloc, writes)?;
    write_nodes(&mut part, alloc, writes, born)?;
    write_properties(&mut part, writes)?;
    Ok(part)
}

// Puts the changed part in its places. A refusal leaves all as it was.
fn merge(
    nodes: &mut Keyed<Path, Node>,
    alloc: Global,
    part: Keyed<Path, Node>,
    writes: &[&Write],
) -> Result<(), AllocError>
    requires { IsTrue (is_sorted path_cmp nodes.old) }
    ensures ok { OnOk result (nodes.new ≡ merged nodes.old part (map deref writes.now)) }
    ensures err { OnErr result (nodes.new ≡ nodes.old) }
{
    make_room(nodes, alloc, &part)?;
    remove_gone(nodes, &part, writes);
    move_in(nodes, part);
    Ok(())
}

// Copies of the nodes that are written or of which a property is.
fn written_nodes(
    nodes: &Keyed<Path, Node>,
    alloc: Global,
    writes: &[&Write],
) -> Result<Keyed<Path, Node>, AllocError>
    ensures { IfOk result (λ part. part ≡ written_nodes nodes.now (map deref writes.now)) }
{
    let mut part = Keyed::new(alloc);
    for write in writes {
        copy_node(&mut part, nodes, write.path())?;
    }
    Ok(part)
}

fn copy_node(
    part: &mut Keyed<Path, Node>,
    nodes: &Keyed<Path, Node>,
    path: &Path,
) -> Result<(), AllocError>
    ensures { OnOk result (part.new ≡ with_node_of nodes.now part.old path.now) }
{
    if part.contains(path) {
        return Ok(());
    }
    match nodes.get(path) {
        Some(node) => part.put(path.copy()?, node.copy()?),
        None => Ok(()),
    }
}

// Puts an empty node at each path of the part that has none. A refusal leaves all as it was.
fn make_room(
    nodes: &mut Keyed<Path, Node>,
    alloc: Global,
    part: &Keyed<Path, Node>,
) -> Result<(), AllocError>
    requires { IsTrue (is_sorted path_cmp nodes.old) }
    ensures ok { OnOk result (nodes.new ≡ with_room nodes.old (paths_missing nodes.old part.now)) }
    ensures err { OnErr result (nodes.new ≡ nodes.old) }
{
    let missing = missing_paths(nodes, alloc, part)?;
    match put_empty(nodes, alloc, &missing) {
        Ok(()) => Ok(()),
        Err(refused) => {
            remove_paths(nodes, &missing);
            Err(refused)
        }
    }
}

// The paths of the part that the nodes lack.
fn missing_paths<'a>(
    nodes: &Keyed<Path, Node>,
    alloc: Global,
    part: &'a Keyed<Path, Node>,
) -> Result<Vec<&'a Path>, AllocError>
    ensures { IfOk result (λ paths. map deref paths.items ≡ paths_missing nodes.now part.now) }
{
    let mut paths = Vec::new(alloc);
    for (path, _) in part.inner() {
        if !nodes.contains(path) {
            paths.push(path)?;
        }
    }
    Ok(paths)
}

// A refusal leaves the nodes that were put before it.
fn put_empty(
    nodes: &mut Keyed<Path, Node>,
    alloc: Global,
    paths: &[&Path],
) -> Result<(), AllocError>
    ensures ok { OnOk result (nodes.new ≡ with_room nodes.old (map deref paths.now)) }
    ensures err { OnErr result ((n : ℕ) × (nodes.new ≡ with_room nodes.old (map deref (take n paths.now)))) }
{
    for path in paths {
        nodes.put(path.copy()?, Node::new(alloc))?;
    }
    Ok(())
}

fn remove_paths(nodes: &mut Keyed<Path, Node>, paths: &[&Path])
    ensures { nodes.new ≡ without_paths nodes.old (map deref paths.now) }
{
    for gone in paths {
        nodes.remove(gone);
    }
}

// Removes the written nodes that the part doesn't have any more.
fn remove_gone(nodes: &mut Keyed<Path, Node>, part: &Keyed<Path, Node>, writes: &[&Write])
    ensures { nodes.new ≡ without_gone nodes.old part.now (map deref writes.now) }
{
    for write in writes {
        remove_unless(nodes, part, write.path());
    }
}

fn remove_unless(nodes: &mut Keyed<Path, Node>, part: &Keyed<Path, Node>, path: &Path)
    ensures { nodes.new ≡ without_unless part.now nodes.old path.now }
{
    if !part.contains(path) {
        nodes.remove(path);
    }
}

// Puts the nodes of the part in the places that are there for them, without memory.
fn move_in(nodes: &mut Keyed<Path, Node>, part: Keyed<Path, Node>)
    ensures { nodes.new ≡ with_tree_part nodes.old part }
{
    for (path, node) in part.into_inner() {
        if let Some(place) = nodes.inner_mut().get_mut(&path) {
            *place = node;
        }
    }
}

fn write_nodes(
    nodes: &mut Keyed<Path, Node>,
    alloc: Global,
    writes: &[&Write],
    born: Option<Revision>,
) -> Result<(), AllocError>
    ensures { OnOk result (nodes.new ≡ fold (with_node_write born) nodes.old (map deref writes.now)) }
{
    for write in writes {
        write_node(nodes, alloc, write, born)?;
    }
    Ok(())
}

fn write_properties(nodes: &mut Keyed<Path, Node>, writes: &[&Write]) -> Result<(), AllocError>
    ensures { OnOk result (nodes.new ≡ fold with_property_write nodes.old (map deref writes.now)) }
{
    for write in writes {
        write_property(nodes, write)?;
    }
    Ok(())
}

fn write_node(
    nodes: &mut Keyed<Path, Node>,
    alloc: Global,
    write: &Write,
    born: Option<Revision>,
) -> Result<(), AllocError>
    ensures { OnOk result (nodes.new ≡ with_node_write born nodes.old write.now) }
{
    match write {
        Write::Here(path) => {
            let props = properties_of(nodes, alloc, path)?;
            nodes.put(path.copy()?, Node { props, born })?;
        }
        Write::Gone(path) => nodes.remove(path),
        Write::Put(..) | Write::Unset(..) => {}
    }
    Ok(())
}

// A copy of the properties of the node at a path, or none.
fn properties_of(
    nodes: &Keyed<Path, Node>,
    alloc: Global,
    path: &Path,
) -> Result<Keyed<Name, Property>, AllocError>
    ensures { IfOk result (λ props. props ≡ properties_at nodes.now path.now) }
{
    match nodes.get(path) {
        Some(node) => node.props.copy(),
        None => Ok(Keyed::new(alloc)),
    }
}

fn write_property(nodes: &mut Keyed<Path, Node>, write: &Write) -> Result<(), AllocError>
    ensures { OnOk result (nodes.new ≡ with_property_write nodes.old write.now) }
{
    match write {
        Write::Put(path, name, property) => {
            if let Some(node) = nodes.inner_mut().get_mut(path) {
                node.props.put(name.copy()?, property.copy()?)?;
            }
        }
        Write::Unset(path, name) => {
            if let Some(node) = nodes.inner_mut().get_mut(path) {
                node.props.remove(name);
            }
        }
        Write::Here(_) | Write::Gone(_) => {}
    }
    Ok(())
}
