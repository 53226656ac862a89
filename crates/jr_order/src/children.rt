// The names of the children of a node in their order.
ghost use Rattle.std.specs.Prelude.{◌≡◌, ◌∷◌, ◌++◌, [], IfOk, OnOk, cond, map};
ghost use Rattle.std.specs.BTreeMap.{is_at};
ghost use Rattle.std.specs.List.{filter_map, fold};
ghost use Rattle.std.specs.Map.{keys_of, remove_entry};
ghost use Rattle.std.specs.Option.{option_copied};
ghost use Rattle.jr_path.specs.Names.{name_cmp};
ghost use Rattle.jr_items.specs.Items.{many_names, name_in};
ghost use Rattle.jr_part.specs.Parts.{has_name};
ghost use Rattle.jr_order.specs.Order.{by_birth, by_name, in_order, listed_names, ordered, with_birth};

use jr_items::OwnName;
use jr_path::{DeepCopy, Keyed, List, Name};
use jr_rev::Revision;
use jr_tree::Node;
use jr_types::Registry;
use jr_value::{Property, Value};
use std::alloc::{AllocError, Global};

/// Where a child stands among those that no list orders: by the revision that added it, what is pending last, and
/// then by name.
#[derive(Drop, PartialEq, Eq, PartialOrd, Ord)]
pub struct Birth {
    pub pending: bool,
    pub born: Option<Revision>,
    pub name: Name,
}

/// The names of the children of a node in their order (JSR 283, 5.2.2 Getting Child Nodes; 23 Orderable Child Nodes).
/// Where the types of the node order its children, those come first that its `rep:childOrder` lists, as it lists them,
/// and then the others by the revisions that added them, pending ones last, and of one revision by name. Else the names
/// stay as they are given.
pub fn ordered(
    alloc: Global,
    types: &Registry,
    node: &Node,
    rest: &[(Name, Option<Revision>)],
) -> Result<List<Name>, AllocError>
    ensures { IfOk result (λ names. names ≡ ordered types.now node.now rest.now) }
{
    if types.are_ordered(node)? {
        listed_first(alloc, node, rest)
    } else {
        names_of(alloc, rest)
    }
}

// First the children that the node lists, then the others by their births.
fn listed_first(
    alloc: Global,
    node: &Node,
    rest: &[(Name, Option<Revision>)],
) -> Result<List<Name>, AllocError>
    ensures { IfOk result (λ names. names ≡ in_order (listed_names node.now) (by_name rest.now)) }
{
    let listed = listed_names(alloc, node)?;
    in_order(alloc, &listed, by_name(alloc, rest)?)
}

// The names as they stand.
fn names_of(alloc: Global, rest: &[(Name, Option<Revision>)]) -> Result<List<Name>, AllocError>
    ensures { IfOk result (λ names. names ≡ keys_of rest.now) }
{
    let mut names = List::new(alloc);
    for (name, _) in rest {
        names.push(name.copy()?)?;
    }
    Ok(names)
}

// Children by their names.
fn by_name(
    alloc: Global,
    rest: &[(Name, Option<Revision>)],
) -> Result<Keyed<Name, Option<Revision>>, AllocError>
    ensures { IfOk result (λ names. names ≡ by_name rest.now) }
{
    let mut names = Keyed::new(alloc);
    for (name, born) in rest {
        names.put(name.copy()?, *born)?;
    }
    Ok(names)
}

// The names that the node lists as the order of its children.
fn listed_names<'a>(alloc: Global, node: &'a Node) -> Result<Vec<&'a Name>, AllocError>
    ensures { IfOk result (λ names. map (λ n. n.now) names.items ≡ listed_names node.now) }
{
    let key = OwnName::ChildOrder.name(alloc)?;
    names_in(alloc, values_of(node.props.get(&key)))
}

// The values, where the property is a list.
fn values_of(property: Option<&Property>) -> &[Value]
    ensures { filter_map name_in result.now ≡ many_names (option_copied property.entry) }
{
    match property {
        Some(Property::Many(_, values)) => values.as_slice(),
        _ => &[],
    }
}

// The names among the values.
fn names_in<'a>(alloc: Global, values: &'a [Value]) -> Result<Vec<&'a Name>, AllocError>
    ensures { IfOk result (λ names. map (λ n. n.now) names.items ≡ filter_map name_in values.now) }
{
    let mut names = Vec::new(alloc);
    for value in values {
        if let Some(name) = name_in(value) {
            names.push(name)?;
        }
    }
    Ok(names)
}

// The name that a value is.
fn name_in(value: &Value) -> Option<&Name>
    ensures { option_copied result ≡ name_in value.now }
{
    match value {
        Value::Name(name) => Some(name),
        _ => None,
    }
}

// First the listed names that are children's, each once, then the other children by their births.
fn in_order(
    alloc: Global,
    listed: &[&Name],
    mut rest: Keyed<Name, Option<Revision>>,
) -> Result<List<Name>, AllocError>
    ensures { IfOk result (λ names. names ≡ in_order (map (λ n. n.now) listed.now) rest) }
{
    let mut names = List::new(alloc);
    for name in listed {
        take_out(&mut names, &mut rest, name)?;
    }
    push_by_birth(alloc, &mut names, &rest)?;
    Ok(names)
}

// A listed name comes next where it is a child's, which then isn't left.
fn take_out(
    names: &mut List<Name>,
    rest: &mut Keyed<Name, Option<Revision>>,
    name: &Name,
) -> Result<(), AllocError>
    ensures names { OnOk result (names.new
        ≡ cond (has_name rest.old name.now) (names.old ++ name.now ∷ []) names.old) }
    ensures rest { OnOk result (rest.new ≡ cond (has_name rest.old name.now)
        (remove_entry (is_at (name_cmp name.now)) rest.old) rest.old) }
{
    if rest.contains(name) {
        names.push(name.copy()?)?;
        rest.remove(name);
    }
    Ok(())
}

// The children come next by their births.
fn push_by_birth(
    alloc: Global,
    names: &mut List<Name>,
    rest: &Keyed<Name, Option<Revision>>,
) -> Result<(), AllocError>
    ensures { OnOk result (names.new ≡ names.old ++ by_birth rest.now) }
{
    let births = births_of(alloc, rest)?;
    for (birth, _) in births.into_inner() {
        names.push(birth.name)?;
    }
    Ok(())
}

// The births of children, in their order.
fn births_of(
    alloc: Global,
    rest: &Keyed<Name, Option<Revision>>,
) -> Result<Keyed<Birth, bool>, AllocError>
    ensures { IfOk result (λ births. births ≡ fold with_birth [] rest.now) }
{
    let mut births = Keyed::new(alloc);
    for (name, born) in rest.iter() {
        note_birth(&mut births, name, *born)?;
    }
    Ok(births)
}

// Puts the birth of a child in its place.
fn note_birth(
    births: &mut Keyed<Birth, bool>,
    name: &Name,
    born: Option<Revision>,
) -> Result<(), AllocError>
    ensures { OnOk result (births.new ≡ with_birth births.old (name.now, born)) }
{
    let birth = Birth {
        pending: born.is_none(),
        born,
        name: name.copy()?,
    };
    births.put(birth, true)
}
