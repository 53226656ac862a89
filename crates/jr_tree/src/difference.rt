// The edit that makes one tree from another.
ghost use Rattle.std.specs.Prelude.{◌≡◌, [], IfOk, OnOk, false};
ghost use Rattle.std.specs.BTreeMap.{is_at, insert_entry};
ghost use Rattle.std.specs.Map.{lookup};
ghost use Rattle.std.specs.Option.{option_map_or};
ghost use Rattle.jr_path.specs.Names.{name_cmp};
ghost use Rattle.jr_value.specs.Values.{same_property};
ghost use Rattle.jr_tree.specs.Edits.{changes, item_of, item_cmp, taking, properties_at};
ghost use Rattle.jr_tree.specs.Changes.{with_writes, unset_missing, put_changed, nodes_taken, nodes_changed, node_changes};

use crate::edit::{Edit, Write, put, unset};
use crate::tree::{Node, Tree};
use jr_path::{DeepCopy, Item, Keyed, List, Name, Path};
use jr_value::Property;
use std::alloc::{AllocError, Global};

type Properties = Keyed<Name, Property>;

/// The writes by which the second tree differs from the first, in the order of their items: nodes in path
/// order, each before its properties, and these by name. A node that goes has an Unset for each of its
/// properties; a property that is the same in both isn't written.
pub fn changes(from: &Tree, to: &Tree) -> Result<Edit, AllocError>
    ensures { IfOk result (λ edit. edit.writes ≡ changes from.now to.now) }
{
    let mut writes = Keyed::new(from.alloc);
    take_nodes(&mut writes, from, to)?;
    change_nodes(&mut writes, from, to)?;
    let mut list = Vec::new(from.alloc);
    for (_, write) in writes.into_inner() {
        list.push(write)?;
    }
    Ok(Edit {
        writes: List::of(list),
    })
}

// The nodes of the first tree that the second lacks.
fn take_nodes(writes: &mut Keyed<Item, Write>, from: &Tree, to: &Tree) -> Result<(), AllocError>
    ensures { OnOk result (writes.new ≡ with_writes writes.old (nodes_taken to.now from.now)) }
{
    for (path, node) in from.nodes.inner() {
        if !to.has(path) {
            take_node(writes, from.alloc, path, node)?;
        }
    }
    Ok(())
}

fn take_node(
    writes: &mut Keyed<Item, Write>,
    alloc: Global,
    path: &Path,
    node: &Node,
) -> Result<(), AllocError>
    ensures { OnOk result (writes.new ≡ with_writes writes.old (taking (path.now, node.now))) }
{
    add(writes, Write::Gone(path.copy()?))?;
    unset_properties(writes, path, &node.props, &Keyed::new(alloc))
}

// What the nodes of the second tree have otherwise than in the first.
fn change_nodes(writes: &mut Keyed<Item, Write>, from: &Tree, to: &Tree) -> Result<(), AllocError>
    ensures { OnOk result (writes.new ≡ with_writes writes.old (nodes_changed from.now to.now)) }
{
    for (path, node) in to.nodes.inner() {
        change_node(writes, from, path, node)?;
    }
    Ok(())
}

fn change_node(
    writes: &mut Keyed<Item, Write>,
    from: &Tree,
    path: &Path,
    node: &Node,
) -> Result<(), AllocError>
    ensures { OnOk result (writes.new ≡ with_writes writes.old (node_changes from.now (path.now, node.now))) }
{
    let none = Keyed::new(from.alloc);
    if !from.has(path) {
        add(writes, Write::Here(path.copy()?))?;
    }
    let old = properties_or(from, path, &none);
    unset_properties(writes, path, old, &node.props)?;
    put_properties(writes, path, old, &node.props)
}

// The properties of the node at a path, or none.
fn properties_or<'a>(tree: &'a Tree, path: &Path, none: &'a Properties) -> &'a Properties
    requires { none.now ≡ [] }
    ensures { result.now ≡ properties_at tree.now path.now }
{
    match tree.get(path) {
        Some(node) => &node.props,
        None => none,
    }
}

fn unset_properties(
    writes: &mut Keyed<Item, Write>,
    path: &Path,
    old: &Properties,
    new: &Properties,
) -> Result<(), AllocError>
    ensures { OnOk result (writes.new ≡ with_writes writes.old (unset_missing path.now old.now new.now)) }
{
    for (name, _) in old.inner() {
        if !new.contains(name) {
            add(writes, unset(path, name)?)?;
        }
    }
    Ok(())
}

fn put_properties(
    writes: &mut Keyed<Item, Write>,
    path: &Path,
    old: &Properties,
    new: &Properties,
) -> Result<(), AllocError>
    ensures { OnOk result (writes.new ≡ with_writes writes.old (put_changed path.now old.now new.now)) }
{
    for (name, property) in new.inner() {
        if !has_same(old, name, property) {
            add(writes, put(path, name, property)?)?;
        }
    }
    Ok(())
}

// Whether the property stands at the name.
fn has_same(properties: &Properties, name: &Name, property: &Property) -> bool
    ensures { result ≡ option_map_or (same_property property.now) (lookup (is_at (name_cmp name.now)) properties.now) false }
{
    match properties.get(name) {
        Some(there) => property == there,
        None => false,
    }
}

// One more write, in the place of an earlier one of its item.
fn add(writes: &mut Keyed<Item, Write>, write: Write) -> Result<(), AllocError>
    ensures { OnOk result (writes.new ≡ insert_entry item_cmp writes.old (item_of write) write) }
{
    let item = write.item()?;
    writes.put(item, write)
}
