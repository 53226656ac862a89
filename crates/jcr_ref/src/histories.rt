// The histories of versions, which stand in the version storage by the identifier of their node.
ghost use Rattle.std.specs.Prelude.{◌≡◌, ◌++◌, ◌+◌, [], ◌∷◌, Some, IfOk, OnOk, MatchOption, map};
ghost use Rattle.std.specs.List.{fold};
ghost use Rattle.std.specs.String.{string_bytes};
ghost use Rattle.jr_tree.specs.declared.edit.Write.TheVariants.{Here, Put};
ghost use Rattle.jr_tree.specs.Trees.{children_of};
ghost use Rattle.jr_value.specs.declared.value.Property.TheVariants.{Single};
ghost use Rattle.jr_value.specs.declared.value.Value.TheVariants as value;
ghost use Rattle.jr_path.specs.Grammar.{IsName};
ghost use Rattle.jr_items.specs.Names.{version_storage};
ghost use Rattle.jr_items.specs.Own.{own_name};
ghost use Rattle.jcr_ref.specs.References.{identifier_of, uuid_text};
ghost use Rattle.jcr_ref.specs.Histories.{BeginsHistory, begun, history_drawn, version_history_of, history_references, history_writes, identified_writes, joined_history, new_history, number_at, number_by, typed_writes, version_names, with_version};

use crate::identifiers::{identifier_number, uuid_text};
use jr_items::{OwnName, one_text};
use jr_path::{DeepCopy, Keyed, List, Name, Path, PathFault, Text};
use jr_tree::{Tree, Who, Write};
use jr_value::{Kind, Property, Value, identifier_named};
use std::alloc::{AllocError, Global};

/// What a node that becomes versionable writes for its history, and how many identifiers that draws.
#[derive(Drop)]
pub struct HistoryWrites {
    pub writes: List<Write>,
    pub drawn: u32,
}

/// What `mixin` with `mix:versionable` adds for a node that has its identifier (JSR 283, 3.13 Versioning Model): the
/// history in the version storage, with its root version and the node of its labels, and the node's three references;
/// of a history that is there the references alone. None where the node's identifier is no name. The identifiers are
/// the session's next, first the history's, then the root version's.
pub fn history_writes(
    alloc: Global,
    tree: &Tree,
    path: &Path,
    who: &Who,
) -> Result<Option<HistoryWrites>, AllocError>
    ensures { IfOk result (BeginsHistory tree.now path.now who.now) }
{
    match history_path(alloc, tree, path)? {
        Some(history) => Ok(Some(writes_for(alloc, tree, path, &history, who)?)),
        None => Ok(None),
    }
}

impl DeepCopy for HistoryWrites {
    fn copy(&self) -> Result<HistoryWrites, AllocError> {
        Ok(HistoryWrites {
            writes: self.writes.copy()?,
            drawn: self.drawn,
        })
    }
}

// The place of a node's history, if its identifier is a name.
fn history_path(alloc: Global, tree: &Tree, path: &Path) -> Result<Option<Path>, AllocError>
    ensures { IfOk result (λ found. MatchOption found (¬ (IsName (identifier_of tree.now path.now))) (λ h. h ≡ version_history_of tree.now path.now)) }
{
    let id = identifier_of(alloc, tree, path)?;
    match Name::parse(alloc, id.as_str()) {
        Ok(name) => history_named(alloc, &name),
        Err(PathFault::BadName(_)) => Ok(None),
        Err(_) => Err(AllocError),
    }
}

fn history_named(alloc: Global, id: &Name) -> Result<Option<Path>, AllocError>
    ensures { IfOk result (λ found. found ≡ Some (version_storage ++ id.now ∷ [])) }
{
    let storage = storage(alloc)?;
    Ok(Some(storage.child(id)?))
}

// A node's identifier: its `jcr:uuid` where that is one text, and else its path.
fn identifier_of(alloc: Global, tree: &Tree, path: &Path) -> Result<String, AllocError>
    ensures { IfOk result (λ id. string_bytes id ≡ identifier_of tree.now path.now) }
{
    let uuid = OwnName::Uuid.name(alloc)?;
    match one_text(tree.property(path, &uuid)) {
        Some(id) => String::from_str(alloc, id),
        None => path.text(),
    }
}

// The node above all version histories.
fn storage(alloc: Global) -> Result<Path, AllocError>
    ensures { IfOk result (λ path. path ≡ version_storage) }
{
    let system = child(alloc, &Path::root(alloc), OwnName::System)?;
    child(alloc, &system, OwnName::VersionStorage)
}

fn writes_for(
    alloc: Global,
    tree: &Tree,
    path: &Path,
    history: &Path,
    who: &Who,
) -> Result<HistoryWrites, AllocError>
    requires { history.now ≡ version_history_of tree.now path.now }
    ensures writes { IfOk result (λ made. made.writes ≡ history_writes tree.now path.now who.now) }
    ensures drawn { IfOk result (λ made. made.drawn ≡ history_drawn tree.now path.now) }
{
    if tree.has(history) {
        join_history(alloc, tree, path, history)
    } else {
        begin_history(alloc, path, history, who)
    }
}

// The references to a history that is there.
fn join_history(
    alloc: Global,
    tree: &Tree,
    path: &Path,
    history: &Path,
) -> Result<HistoryWrites, AllocError>
    ensures writes { IfOk result (λ made. made.writes ≡ joined_history tree.now path.now history.now) }
    ensures drawn { IfOk result (λ made. made.drawn ≡ 0) }
{
    let root = child(alloc, history, OwnName::RootVersion)?;
    let of_history = number_at(alloc, tree, history)?;
    let of_root = number_at(alloc, tree, &root)?;
    let mut writes = List::new(alloc);
    push_references(&mut writes, alloc, path, of_history, of_root)?;
    Ok(HistoryWrites { writes, drawn: 0 })
}

// A new history, and the references to it.
fn begin_history(
    alloc: Global,
    path: &Path,
    history: &Path,
    who: &Who,
) -> Result<HistoryWrites, AllocError>
    ensures writes { IfOk result (λ made. made.writes ≡ begun path.now history.now who.now) }
    ensures drawn { IfOk result (λ made. made.drawn ≡ 2) }
{
    let of_history = drawn(who, 1);
    let of_root = drawn(who, 2);
    let mut writes = List::new(alloc);
    push_history(&mut writes, alloc, history, of_history, of_root)?;
    push_references(&mut writes, alloc, path, of_history, of_root)?;
    Ok(HistoryWrites { writes, drawn: 2 })
}

// The path of a child with a name of the repository's own.
fn child(alloc: Global, path: &Path, name: OwnName) -> Result<Path, AllocError>
    ensures { IfOk result (λ child. child ≡ path.now ++ own_name name ∷ []) }
{
    let name = name.name(alloc)?;
    path.child(&name)
}

// The number of the session's identifier that is so many behind its last.
fn drawn(who: &Who, more: u32) -> u128
    ensures { result ≡ number_by who.now (who.now.ids + more) }
{
    identifier_number(
        who.session.wrapping_add(who.earlier),
        who.ids.wrapping_add(more),
    )
}

// The number of the node's identifier, 0 where it has none of that form.
fn number_at(alloc: Global, tree: &Tree, path: &Path) -> Result<u128, AllocError>
    ensures { IfOk result (λ number. number ≡ number_at tree.now path.now) }
{
    let uuid = OwnName::Uuid.name(alloc)?;
    match one_text(tree.property(path, &uuid)) {
        Some(text) => Ok(identifier_named(text).unwrap_or(0)),
        None => Ok(0),
    }
}

// A history with its root version and the node of its labels.
fn push_history(
    writes: &mut List<Write>,
    alloc: Global,
    history: &Path,
    of_history: u128,
    of_root: u128,
) -> Result<(), AllocError>
    ensures { OnOk result (writes.new ≡ writes.old ++ new_history history.now of_history of_root) }
{
    let root = child(alloc, history, OwnName::RootVersion)?;
    let labels = child(alloc, history, OwnName::VersionLabels)?;
    push_identified(writes, alloc, history, OwnName::HistoryType, of_history)?;
    push_identified(writes, alloc, &root, OwnName::VersionType, of_root)?;
    push_typed(writes, alloc, &labels, OwnName::LabelsType)?;
    Ok(())
}

fn push_identified(
    writes: &mut List<Write>,
    alloc: Global,
    path: &Path,
    node_type: OwnName,
    id: u128,
) -> Result<(), AllocError>
    ensures { OnOk result (writes.new ≡ writes.old ++ identified_writes path.now (own_name node_type) id) }
{
    push_typed(writes, alloc, path, node_type)?;
    let text = uuid_property(alloc, id)?;
    push_property(writes, alloc, path, OwnName::Uuid, text)?;
    Ok(())
}

// The text of an identifier as a property.
fn uuid_property(alloc: Global, id: u128) -> Result<Property, AllocError>
    ensures { IfOk result (λ property. property ≡ Single (value.Str (uuid_text id))) }
{
    let text = uuid_text(alloc, id)?;
    Ok(Property::Single(Value::Str(Text::of(text))))
}

fn push_typed(
    writes: &mut List<Write>,
    alloc: Global,
    path: &Path,
    node_type: OwnName,
) -> Result<(), AllocError>
    ensures { OnOk result (writes.new ≡ writes.old ++ typed_writes path.now (own_name node_type)) }
{
    push_here(writes, path)?;
    let name = name_property(alloc, node_type)?;
    push_property(writes, alloc, path, OwnName::PrimaryType, name)?;
    Ok(())
}

// Puts that a node is there behind the writes.
fn push_here(writes: &mut List<Write>, path: &Path) -> Result<(), AllocError>
    ensures { OnOk result (writes.new ≡ writes.old ++ Here path.now ∷ []) }
{
    writes.push(Write::Here(path.copy()?))
}

// A name of the repository's own as a property.
fn name_property(alloc: Global, name: OwnName) -> Result<Property, AllocError>
    ensures { IfOk result (λ property. property ≡ Single (value.Name (own_name name))) }
{
    let name = name.name(alloc)?;
    Ok(Property::Single(Value::Name(name)))
}

fn push_property(
    writes: &mut List<Write>,
    alloc: Global,
    path: &Path,
    name: OwnName,
    property: Property,
) -> Result<(), AllocError>
    ensures { OnOk result (writes.new ≡ writes.old ++ Put path.now (own_name name) property ∷ []) }
{
    let (path, name) = place_of(alloc, path, name)?;
    writes.push(Write::Put(path, name, property))
}

// A copy of a path, and a name of the repository's own.
fn place_of(alloc: Global, path: &Path, name: OwnName) -> Result<(Path, Name), AllocError>
    ensures { IfOk result (λ place. place ≡ (path.now, own_name name)) }
{
    Ok((path.copy()?, name.name(alloc)?))
}

// A node's references to its history and to the root version.
fn push_references(
    writes: &mut List<Write>,
    alloc: Global,
    path: &Path,
    history: u128,
    root: u128,
) -> Result<(), AllocError>
    ensures { OnOk result (writes.new ≡ writes.old ++ history_references path.now history root) }
{
    let to_history = Property::Single(Value::Reference(history));
    let to_root = Property::Single(Value::Reference(root));
    push_property(writes, alloc, path, OwnName::VersionHistory, to_history)?;
    push_property(writes, alloc, path, OwnName::BaseVersion, to_root)?;
    let mut before = List::new(alloc);
    before.push(Value::Reference(root))?;
    let before = Property::Many(Kind::Reference, before);
    push_property(writes, alloc, path, OwnName::Predecessors, before)?;
    Ok(())
}

// Where a version stands in the order of making: behind the root version, shorter names first.
#[derive(Drop, PartialEq, Eq, PartialOrd, Ord)]
struct Place {
    later: bool,
    bytes: usize,
    name: Name,
}

/// The names of a history's versions in the order of making, the root version first; `v10` stands behind `v9`.
pub fn version_names(alloc: Global, tree: &Tree, history: &Path) -> Result<Vec<Name>, AllocError>
    ensures { IfOk result (λ names. names.items ≡ version_names tree.now history.now) }
{
    let places = places_of(alloc, tree, history)?;
    names_in(alloc, places)
}

// The versions of a history in their places.
fn places_of(alloc: Global, tree: &Tree, history: &Path) -> Result<Keyed<Place, bool>, AllocError>
    ensures { IfOk result (λ places. places ≡ fold with_version [] (children_of tree.now history.now)) }
{
    let mut places = Keyed::new(alloc);
    note_versions(&mut places, &tree.children(history)?)?;
    Ok(places)
}

fn note_versions(places: &mut Keyed<Place, bool>, names: &[Name]) -> Result<(), AllocError>
    ensures { OnOk result (places.new ≡ fold with_version places.old names.now) }
{
    for name in names {
        note_version(places, name)?;
    }
    Ok(())
}

// The names of versions in their places.
fn names_in(alloc: Global, places: Keyed<Place, bool>) -> Result<Vec<Name>, AllocError>
    ensures { IfOk result (λ names. names.items ≡ map (λ e. e.0.name) places) }
{
    let mut names = Vec::new(alloc);
    for (place, _) in places.into_inner() {
        push_name(&mut names, place)?;
    }
    Ok(names)
}

// Puts the name of a place behind the names.
fn push_name(names: &mut Vec<Name>, place: Place) -> Result<(), AllocError>
    ensures { OnOk result (names.new.items ≡ names.old.items ++ place.name ∷ []) }
{
    names.push(place.name)?;
    Ok(())
}

// Puts a version in its place; the node of the labels is none.
fn note_version(places: &mut Keyed<Place, bool>, name: &Name) -> Result<(), AllocError>
    ensures { OnOk result (places.new ≡ with_version places.old name.now) }
{
    if OwnName::VersionLabels.is(name) {
        return Ok(());
    }
    let place = Place {
        later: !OwnName::RootVersion.is(name),
        bytes: name.as_str().len(),
        name: name.copy()?,
    };
    places.put(place, true)
}
