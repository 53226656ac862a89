// Frozen nodes: what a version keeps of a node, and what forbids its check-in.
ghost use Rattle.std.specs.Prelude.{◌≡◌, ◌++◌, ◌∷◌, [], false, IfOk, OnOk, drop, length};
ghost use Rattle.std.specs.Option.{option_copied, option_map_or};
ghost use Rattle.jr_path.specs.Names.{parent_of};
ghost use Rattle.jr_items.specs.Items.{is_versionable, property_of};
ghost use Rattle.jr_items.specs.Own.{own_name};
ghost use Rattle.jcr_frozen.specs.Frozen.{aborting, aborting_at, aborting_property, frozen_copy, frozen_tree, is_aborting, is_copied, is_frozen_along, is_frozen_down, is_frozen_name, is_frozen_with, is_in_share, is_type_property, is_unkept, share_of, with_frozen_own, with_optional_property, with_in_share};

use crate::attributes::{Asked, node_has, property_has};
use jr_items::{OwnName, has_mixin};
use jr_path::{DeepCopy, Item, Keyed, Name, Path};
use jr_tree::{Node, Tree};
use jr_types::Registry;
use jr_value::{Property, Value};
use std::alloc::{AllocError, Global};

/// A share of a node's properties.
#[derive(Clone, Copy, PartialEq, Eq)]
pub enum Share {
    /// Those that the frozen node has as the node has them.
    Copied,
    /// Those that a restore leaves: a version doesn't keep them, and they aren't the node's types.
    Left,
}

/// Whether the node at a path has `mix:versionable` among its mixins.
pub fn is_versionable(alloc: Global, tree: &Tree, path: &Path) -> Result<bool, AllocError>
    ensures { IfOk result (λ answer. answer ≡ is_versionable tree.now path.now) }
{
    let types = OwnName::MixinTypes.name(alloc)?;
    let versionable = OwnName::Versionable.name(alloc)?;
    Ok(has_mixin(tree, &types, &versionable, path))
}

/// Whether a node is frozen with the node above (JSR 283, 3.13.9 Frozen Node): a version keeps it, and it is not
/// versionable itself.
pub fn is_frozen_along(
    alloc: Global,
    types: &Registry,
    tree: &Tree,
    path: &Path,
) -> Result<bool, AllocError>
    ensures { IfOk result (λ answer. answer ≡ is_frozen_along types.now tree.now path.now) }
{
    if !node_has(Asked::Kept, types, tree, path)? {
        return Ok(false);
    }
    Ok(!is_versionable(alloc, tree, path)?)
}

// Whether each node on the way down by these names is frozen with the node above.
fn is_frozen_down(
    alloc: Global,
    types: &Registry,
    tree: &Tree,
    path: &Path,
    names: &[Name],
) -> Result<bool, AllocError>
    ensures { IfOk result (λ answer. answer ≡ is_frozen_down types.now tree.now path.now names.now) }
{
    match names {
        [] => Ok(true),
        [first, rest @ ..] => {
            let child = path.child(first)?;
            if is_frozen_along(alloc, types, tree, &child)? {
                is_frozen_down(alloc, types, tree, &child, rest)
            } else {
                Ok(false)
            }
        }
    }
}

// Whether a node at or below another is frozen with it.
fn is_frozen_with(
    alloc: Global,
    types: &Registry,
    tree: &Tree,
    path: &Path,
    at: &Path,
) -> Result<bool, AllocError>
    ensures { IfOk result (λ answer. answer ≡ is_frozen_with types.now tree.now path.now at.now) }
{
    is_frozen_down(alloc, types, tree, path, names_below(path, at))
}

/// The names of the second path behind as many as the first has.
pub fn names_below<'a>(path: &Path, at: &'a Path) -> &'a [Name]
    ensures { result.now ≡ drop (length path.now) at.now }
{
    match at.names().get(path.depth()..) {
        Some(names) => names,
        None => &[],
    }
}

/// The path that these names lead to from another.
pub fn onto(path: &Path, names: &[Name]) -> Result<Path, AllocError>
    ensures { IfOk result (λ led. led ≡ path.now ++ names.now) }
{
    let mut onto = path.copy()?;
    for name in names {
        onto = onto.child(name)?;
    }
    Ok(onto)
}

/// Puts the frozen nodes of a node and of what is frozen with it, at a place and below, behind other nodes.
pub fn push_frozen(
    nodes: &mut Vec<(Path, Node)>,
    alloc: Global,
    types: &Registry,
    tree: &Tree,
    path: &Path,
    place: &Path,
) -> Result<(), AllocError>
    ensures { OnOk result (nodes.new.items ≡ nodes.old.items ++ frozen_tree types.now tree.now path.now place.now) }
{
    for (at, node) in &tree.under(path)? {
        if is_frozen_with(alloc, types, tree, path, at)? {
            push_copy(nodes, alloc, types, node, place, names_below(path, at))?;
        }
    }
    Ok(())
}

// Puts the frozen node of a node behind other nodes, at the place by these names below another.
fn push_copy(
    nodes: &mut Vec<(Path, Node)>,
    alloc: Global,
    types: &Registry,
    node: &Node,
    place: &Path,
    names: &[Name],
) -> Result<(), AllocError>
    ensures { OnOk result (nodes.new.items
        ≡ nodes.old.items ++ (place.now ++ names.now, frozen_copy types.now node.now) ∷ []) }
{
    let at = onto(place, names)?;
    let copy = frozen_copy(alloc, types, node)?;
    nodes.push((at, copy))?;
    Ok(())
}

// The frozen node of a node.
fn frozen_copy(alloc: Global, types: &Registry, node: &Node) -> Result<Node, AllocError>
    ensures { IfOk result (λ copy. copy ≡ frozen_copy types.now node.now) }
{
    let mut props = share_of(alloc, Share::Copied, types, node)?;
    put_own(&mut props, alloc, node)?;
    Ok(Node { props, born: None })
}

/// This share of a node's properties.
pub fn share_of(
    alloc: Global,
    share: Share,
    types: &Registry,
    node: &Node,
) -> Result<Keyed<Name, Property>, AllocError>
    ensures { IfOk result (λ props. props ≡ share_of share types.now node.now) }
{
    let mut props = Keyed::new(alloc);
    for (name, property) in node.props.iter() {
        put_in_share(&mut props, share, types, node, name, property)?;
    }
    Ok(props)
}

// Puts a property that is in the share.
fn put_in_share(
    props: &mut Keyed<Name, Property>,
    share: Share,
    types: &Registry,
    node: &Node,
    name: &Name,
    property: &Property,
) -> Result<(), AllocError>
    ensures { OnOk result (props.new
        ≡ with_in_share share types.now node.now props.old (name.now, property.now)) }
{
    if is_in_share(share, types, node, name, property)? {
        props.put(name.copy()?, property.copy()?)
    } else {
        Ok(())
    }
}

fn is_in_share(
    share: Share,
    types: &Registry,
    node: &Node,
    name: &Name,
    property: &Property,
) -> Result<bool, AllocError>
    ensures { IfOk result (λ answer. answer
        ≡ is_in_share share types.now node.now name.now property.now) }
{
    match share {
        Share::Copied => is_copied(types, node, name, property),
        Share::Left => is_left(types, node, name, property),
    }
}

// Whether a restore leaves the property: a version doesn't keep it, and it isn't the node's types.
fn is_left(
    types: &Registry,
    node: &Node,
    name: &Name,
    property: &Property,
) -> Result<bool, AllocError>
    ensures { IfOk result (λ answer. answer ≡ is_unkept types.now node.now name.now property.now) }
{
    if is_type_name(name) {
        return Ok(false);
    }
    Ok(!property_has(Asked::Kept, types, node, name, property)?)
}

fn is_type_name(name: &Name) -> bool
    ensures { result ≡ is_type_property name.now }
{
    OwnName::PrimaryType.is(name) || OwnName::MixinTypes.is(name)
}

// Whether the frozen node has the property as the node has it.
fn is_copied(
    types: &Registry,
    node: &Node,
    name: &Name,
    property: &Property,
) -> Result<bool, AllocError>
    ensures { IfOk result (λ answer. answer ≡ is_copied types.now node.now name.now property.now) }
{
    if is_frozen_name(name) {
        return Ok(false);
    }
    property_has(Asked::Kept, types, node, name, property)
}

/// Whether a name is that of a property that each frozen node has for itself.
pub fn is_frozen_name(name: &Name) -> bool
    ensures { result ≡ is_frozen_name name.now }
{
    OwnName::PrimaryType.is(name)
        || OwnName::MixinTypes.is(name)
        || OwnName::FrozenPrimaryType.is(name)
        || OwnName::FrozenMixinTypes.is(name)
        || OwnName::FrozenUuid.is(name)
}

// The frozen node's own type, and the node's type, mixins and `jcr:uuid`, of any kind, under other
// names.
fn put_own(props: &mut Keyed<Name, Property>, alloc: Global, node: &Node) -> Result<(), AllocError>
    ensures { OnOk result (props.new ≡ with_frozen_own node.now props.old) }
{
    let key = OwnName::PrimaryType.name(alloc)?;
    let own = OwnName::FrozenType.name(alloc)?;
    props.put(key, Property::Single(Value::Name(own)))?;
    put_told(
        props,
        alloc,
        node,
        OwnName::PrimaryType,
        OwnName::FrozenPrimaryType,
    )?;
    put_told(
        props,
        alloc,
        node,
        OwnName::MixinTypes,
        OwnName::FrozenMixinTypes,
    )?;
    put_told(props, alloc, node, OwnName::Uuid, OwnName::FrozenUuid)
}

/// Puts a property of the node, if it has it, under another name.
pub fn put_told(
    props: &mut Keyed<Name, Property>,
    alloc: Global,
    node: &Node,
    name: OwnName,
    other: OwnName,
) -> Result<(), AllocError>
    ensures { OnOk result (props.new ≡ with_optional_property props.old (own_name other) (property_of node.now (own_name name))) }
{
    let name = name.name(alloc)?;
    put_property(props, alloc, other, node.props.get(&name))
}

/// Puts a copy of a property, if there is one.
pub fn put_property(
    props: &mut Keyed<Name, Property>,
    alloc: Global,
    name: OwnName,
    property: Option<&Property>,
) -> Result<(), AllocError>
    ensures { OnOk result (props.new ≡ with_optional_property props.old (own_name name) (option_copied property.entry)) }
{
    match property {
        Some(property) => props.put(name.name(alloc)?, property.copy()?),
        None => Ok(()),
    }
}

/// The first item that forbids the check-in of a node, in path order, a node before its properties.
pub fn first_aborting(
    alloc: Global,
    types: &Registry,
    tree: &Tree,
    path: &Path,
) -> Result<Option<Item>, AllocError>
    ensures { IfOk result (λ found. found ≡ aborting types.now tree.now path.now) }
{
    for (at, node) in &tree.under(path)? {
        if let Some(item) = aborting_at(alloc, types, tree, path, at, node)? {
            return Ok(Some(item));
        }
    }
    Ok(None)
}

// The first item at a path that forbids the check-in.
fn aborting_at(
    alloc: Global,
    types: &Registry,
    tree: &Tree,
    path: &Path,
    at: &Path,
    node: &Node,
) -> Result<Option<Item>, AllocError>
    ensures { IfOk result (λ found. found ≡ aborting_at types.now tree.now path.now at.now node.now) }
{
    if is_aborting(alloc, types, tree, path, at)? {
        return Ok(Some(Item {
            path: at.copy()?,
            name: None,
        }));
    }
    if is_frozen_with(alloc, types, tree, path, at)? {
        aborting_property(types, at, node)
    } else {
        Ok(None)
    }
}

// Whether the node is a child of what is frozen, and forbids the check-in.
fn is_aborting(
    alloc: Global,
    types: &Registry,
    tree: &Tree,
    path: &Path,
    at: &Path,
) -> Result<bool, AllocError>
    ensures { IfOk result (λ answer. answer ≡ is_aborting types.now tree.now path.now at.now) }
{
    if at == path {
        return Ok(false);
    }
    if is_below_frozen(alloc, types, tree, path, at)? {
        node_has(Asked::Aborts, types, tree, at)
    } else {
        Ok(false)
    }
}

// Whether the node above is frozen.
fn is_below_frozen(
    alloc: Global,
    types: &Registry,
    tree: &Tree,
    path: &Path,
    at: &Path,
) -> Result<bool, AllocError>
    ensures { IfOk result (λ answer. answer ≡ option_map_or (is_frozen_with types.now tree.now path.now) (parent_of at.now) false) }
{
    match at.parent()? {
        Some(above) => is_frozen_with(alloc, types, tree, path, &above),
        None => Ok(false),
    }
}

// The first property of a node that forbids the check-in.
fn aborting_property(types: &Registry, at: &Path, node: &Node) -> Result<Option<Item>, AllocError>
    ensures { IfOk result (λ found. found ≡ aborting_property types.now at.now node.now) }
{
    for (name, property) in node.props.iter() {
        if property_has(Asked::Aborts, types, node, name, property)? {
            return Ok(Some(Item {
                path: at.copy()?,
                name: Some(name.copy()?),
            }));
        }
    }
    Ok(None)
}
