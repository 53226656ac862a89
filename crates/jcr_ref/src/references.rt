// The references of a tree: which name an identifier, and which name no node.
ghost use Rattle.std.specs.Prelude.{◌≡◌, ◌++◌, false, is_none, Some, IfOk, OnOk};
ghost use Rattle.std.specs.List.{filter_map, list_any};
ghost use Rattle.std.specs.Option.{option_copied, option_map_or};
ghost use Rattle.jr_items.specs.Items.{first_of, is_of_type, reference_in};
ghost use Rattle.jr_items.specs.Names.{frozen_type};
ghost use Rattle.jr_value.specs.Values.{same_bytes};
ghost use Rattle.jcr_ref.specs.References.{IsIndex, dangling, is_dangling, properties_where, number_named, referrers, refers, target_of, uuid_text, with_identifier};
ghost use Rattle.jcr_ref.specs.Targets.{IsIndexReady};

use crate::identifiers::{is_uuid_text, uuid_text};
use jr_items::{OwnName, one_text};
use jr_path::{DeepCopy, Item, Keyed, Name, Path, Text};
use jr_tree::{Node, Tree};
use jr_value::{Property, Value};
use std::alloc::{AllocError, Global};

/// The properties with a REFERENCE or WEAKREFERENCE to the identifier (JSR 283, 3.8.2 Referential Integrity), in path
/// order, then by name.
pub fn referrers(alloc: Global, tree: &Tree, id: &str) -> Result<Vec<Item>, AllocError>
    ensures { IfOk result (λ items. items.items ≡ referrers tree.now id.now) }
{
    let mut items = Vec::new(alloc);
    for (at, node) in tree.iter() {
        note_referrers(&mut items, at, node, id)?;
    }
    Ok(items)
}

// Notes the referring properties of a node.
fn note_referrers(items: &mut Vec<Item>, at: &Path, node: &Node, id: &str) -> Result<(), AllocError>
    ensures { OnOk result (items.new.items ≡ items.old.items ++ properties_where (λ x. refers id.now x) at.now node.now.props) }
{
    for (name, property) in node.props.iter() {
        if refers(property, id) {
            items.push(item_of(at, name)?)?;
        }
    }
    Ok(())
}

fn item_of(at: &Path, name: &Name) -> Result<Item, AllocError>
    ensures { IfOk result (λ item. item ≡ record { path = at.now; name = Some name.now }) }
{
    Ok(Item {
        path: at.copy()?,
        name: Some(name.copy()?),
    })
}

// Whether a value of the property is a reference to the identifier.
fn refers(property: &Property, id: &str) -> bool
    ensures { result ≡ refers id.now property.now }
{
    match property {
        Property::Single(value) => names(value, id),
        Property::Many(_, values) => one_names(values.as_slice(), id),
    }
}

fn one_names(values: &[Value], id: &str) -> bool
    ensures { result ≡ list_any (λ n. same_bytes (uuid_text n) id.now) (filter_map number_named values.now) }
{
    for value in values {
        if names(value, id) {
            return true;
        }
    }
    false
}

fn names(value: &Value, id: &str) -> bool
    ensures { result ≡ option_map_or (λ n. same_bytes (uuid_text n) id.now) (number_named value.now) false }
{
    match value {
        Value::Reference(number) => is_uuid_text(*number, id),
        Value::WeakReference(number) => is_uuid_text(*number, id),
        _ => false,
    }
}

/// The first property, in path order, then by name, with a REFERENCE that names no node (JSR 283, 3.8.2 Referential
/// Integrity): none has it as its `jcr:uuid`. References of an `nt:frozenNode` aren't held to that. It goes once over
/// the tree, with an index of the identifiers.
pub fn dangling(alloc: Global, tree: &Tree) -> Result<Option<Item>, AllocError>
    ensures { IfOk result (λ item. item ≡ dangling tree.now) }
{
    Targets::of(alloc, tree)?.first_dangling()
}

// A tree with the identifiers of its nodes, and the name under which a node's type stands.
#[derive(Drop)]
struct Targets<'a> {
    alloc: Global,
    tree: &'a Tree,
    primary: Name,
    index: Keyed<Text, bool>,
}

impl<'a> Targets<'a> {
    fn of(alloc: Global, tree: &'a Tree) -> Result<Targets<'a>, AllocError>
        ensures tree { IfOk result (λ targets. targets.tree.now ≡ tree.now) }
        ensures ready { IfOk result IsIndexReady }
    {
        let index = index(alloc, tree)?;
        let primary = OwnName::PrimaryType.name(alloc)?;
        Ok(Targets {
            alloc,
            tree,
            primary,
            index,
        })
    }

    // The first property of the tree with such a reference.
    fn first_dangling(&self) -> Result<Option<Item>, AllocError>
        requires { IsIndexReady self.now }
        ensures { IfOk result (λ item. item ≡ dangling self.now.tree.now) }
    {
        for (at, node) in self.tree.iter() {
            let found = self.first_lacking(at, node)?;
            if found.is_some() {
                return Ok(found);
            }
        }
        Ok(None)
    }

    // The first property of a node with a reference that names no node.
    fn first_lacking(&self, at: &Path, node: &Node) -> Result<Option<Item>, AllocError>
        requires { IsIndexReady self.now }
        ensures { IfOk result (λ item. item ≡ first_of (properties_where (is_dangling self.now.tree.now at.now) at.now node.now.props)) }
    {
        for (name, property) in node.props.iter() {
            if self.is_dangling(at, property)? {
                return Ok(Some(item_of(at, name)?));
            }
        }
        Ok(None)
    }

    // Whether the property has such a reference, on a node that is no `nt:frozenNode`.
    fn is_dangling(&self, at: &Path, property: &Property) -> Result<bool, AllocError>
        requires { IsIndexReady self.now }
        ensures { IfOk result (λ answer. answer ≡ is_dangling self.now.tree.now at.now property.now) }
    {
        if self.is_frozen(at) {
            return Ok(false);
        }
        match property {
            Property::Single(value) => self.lacks(value),
            Property::Many(_, values) => self.one_lacks(values.as_slice()),
        }
    }

    fn is_frozen(&self, at: &Path) -> bool
        requires { IsIndexReady self.now }
        ensures { result ≡ is_of_type self.now.tree.now frozen_type at.now }
    {
        match self.tree.property(at, &self.primary) {
            Some(Property::Single(Value::Name(name))) => OwnName::FrozenType.is(name),
            _ => false,
        }
    }

    fn one_lacks(&self, values: &[Value]) -> Result<bool, AllocError>
        requires { IsIndexReady self.now }
        ensures { IfOk result (λ answer. answer ≡ list_any (λ id. is_none (target_of self.now.tree.now id)) (filter_map reference_in values.now)) }
    {
        for value in values {
            if self.lacks(value)? {
                return Ok(true);
            }
        }
        Ok(false)
    }

    // Whether the value is a REFERENCE that names no node.
    fn lacks(&self, value: &Value) -> Result<bool, AllocError>
        requires { IsIndexReady self.now }
        ensures { IfOk result (λ answer. answer ≡ option_map_or (λ id. is_none (target_of self.now.tree.now id)) (reference_in value.now) false) }
    {
        match value {
            Value::Reference(number) => self.lacks_node(*number),
            _ => Ok(false),
        }
    }

    // Whether no node has the identifier.
    fn lacks_node(&self, number: u128) -> Result<bool, AllocError>
        requires { IsIndexReady self.now }
        ensures { IfOk result (λ answer. answer ≡ is_none (target_of self.now.tree.now number)) }
    {
        let id = Text::of(uuid_text(self.alloc, number)?);
        Ok(!self.index.contains(&id))
    }
}

// The texts that are the `jcr:uuid` of a node.
fn index(alloc: Global, tree: &Tree) -> Result<Keyed<Text, bool>, AllocError>
    ensures { IfOk result (IsIndex tree.now) }
{
    let uuid = OwnName::Uuid.name(alloc)?;
    let mut index = Keyed::new(alloc);
    for (at, _) in tree.iter() {
        note_identifier(&mut index, alloc, one_text(tree.property(at, &uuid)))?;
    }
    Ok(index)
}

// Notes an identifier, if there is one.
fn note_identifier(
    index: &mut Keyed<Text, bool>,
    alloc: Global,
    id: Option<&str>,
) -> Result<(), AllocError>
    ensures { OnOk result (index.new ≡ with_identifier index.old (option_copied id.entry)) }
{
    match id {
        Some(id) => index.put(Text::copy_of(alloc, id)?, true),
        None => Ok(()),
    }
}
