// Version histories and their versions.
ghost use Rattle.std.specs.Prelude.{◌≡◌, ◌==◌, IfErr, IfOk, None, OnOk};
ghost use Rattle.std.specs.List.{filter_map, list_any};
ghost use Rattle.std.specs.Option.{option_copied};
ghost use Rattle.std.specs.String.{string_bytes};
ghost use Rattle.jr_path.specs.Grammar.{IsName};
ghost use Rattle.jr_tree.specs.Trees.{node_at};
ghost use Rattle.jr_items.specs.Items.{child_path, many_references, one_reference, reference_in};
ghost use Rattle.jr_items.specs.Names.{uuid, version_storage};
ghost use Rattle.jr_items.specs.Own.{own_name};
ghost use Rattle.jr_items.specs.Refusals.{IsTheRefusal};
ghost use Rattle.jcr_ref.specs.References.{identifier_of};
ghost use Rattle.jcr_ref.specs.Histories.{version_history_of, number_at};
ghost use Rattle.jcr_frozen.specs.Histories.{child_there, history_there, is_referenced, is_numbered, no_version, no_versions, id_number, unversioned, version_name, version_there, versions_of};

use crate::frozen::is_versionable;
use jcr_ref::version_names;
use jr_items::{OwnName, check_place, is_same_text, no_identifier, one_text, unsupported};
use jr_path::{DeepCopy, Name, Path, PathFault};
use jr_tree::{Refusal, Tree};
use jr_value::{Property, Value, identifier_named};
use std::alloc::{AllocError, Global};

/// The history of a versionable node (JSR 283, 3.13.2 Version History), for a command. Refused, in this order: the path, as
/// every version command; 12 with the command where the node isn't versionable or has no history.
pub fn find_history(alloc: Global, command: &str, tree: &Tree, path: &Path) -> Result<Path, Refusal>
    ensures history { IfOk result (λ history. history ≡ version_history_of tree.now path.now) }
    ensures ok { OnOk result (no_versions command.now tree.now path.now ≡ None) }
    ensures err { IfErr result (IsTheRefusal (no_versions command.now tree.now path.now)) }
{
    match check_place(alloc, tree, path) {
        Ok(()) => versioned(alloc, command, tree, path),
        Err(refusal) => Err(refusal),
    }
}

#[tactic(auto, using(crate::proofs::Found::some_of, crate::proofs::Found::none_of))]
fn versioned(alloc: Global, command: &str, tree: &Tree, path: &Path) -> Result<Path, Refusal>
    ensures history { IfOk result (λ history. history ≡ version_history_of tree.now path.now) }
    ensures ok { OnOk result (unversioned command.now tree.now path.now ≡ None) }
    ensures err { IfErr result (IsTheRefusal (unversioned command.now tree.now path.now)) }
{
    match history_there(alloc, tree, path) {
        Ok(Some(history)) => Ok(history),
        Ok(None) => Err(unsupported(alloc, command)),
        Err(AllocError) => Err(Refusal::memory(alloc)),
    }
}

// The history of a node, where it is versionable and has one.
#[tactic(auto, unfolding(crate::specs::Histories::has_versions))]
fn history_there(alloc: Global, tree: &Tree, path: &Path) -> Result<Option<Path>, AllocError>
    ensures { IfOk result (λ found. found ≡ history_there tree.now path.now) }
{
    if is_versionable(alloc, tree, path)? {
        history_at(alloc, tree, path)
    } else {
        Ok(None)
    }
}

fn history_at(alloc: Global, tree: &Tree, path: &Path) -> Result<Option<Path>, AllocError>
    ensures { IfOk result (λ found. found ≡ child_there tree.now version_storage (identifier_of tree.now path.now)) }
{
    let id = identifier_of(alloc, tree, path)?;
    let storage = storage(alloc)?;
    child_there(alloc, tree, &storage, id.as_str())
}

// A node's identifier: its `jcr:uuid` where that is one text, and else its path.
fn identifier_of(alloc: Global, tree: &Tree, path: &Path) -> Result<String, AllocError>
    ensures { IfOk result (λ id. string_bytes id ≡ identifier_of tree.now path.now) }
{
    let uuid = OwnName::Uuid.name(alloc)?;
    match one_text(tree.property(path, &uuid)) {
        Some(id) => String::from_str(alloc, id),
        None => path.text(),
    }
}

// The node above all version histories.
fn storage(alloc: Global) -> Result<Path, AllocError>
    ensures { IfOk result (λ path. path ≡ version_storage) }
{
    let system = own_child(alloc, &Path::root(alloc), OwnName::System)?;
    own_child(alloc, &system, OwnName::VersionStorage)
}

/// The path of a child with a name of the repository's own.
pub fn own_child(alloc: Global, path: &Path, name: OwnName) -> Result<Path, AllocError>
    ensures { IfOk result (λ child. child ≡ child_path path.now (own_name name)) }
{
    let name = name.name(alloc)?;
    path.child(&name)
}

// The path of the child of that name, where there is a node.
fn child_there(
    alloc: Global,
    tree: &Tree,
    path: &Path,
    name: &str,
) -> Result<Option<Path>, AllocError>
    ensures { IfOk result (λ found. found ≡ child_there tree.now path.now name.now) }
{
    match Name::parse(alloc, name) {
        Ok(name) => child_named(tree, path, &name),
        Err(PathFault::Memory) => Err(AllocError),
        Err(PathFault::BadName(_)) => {
            know_absent(tree, path, name);
            Ok(None)
        }
        Err(_) => unreachable!(),
    }
}

fn child_named(tree: &Tree, path: &Path, name: &Name) -> Result<Option<Path>, AllocError>
    ensures { IfOk result (λ found. found ≡ child_there tree.now path.now name.now) }
{
    let child = path.child(name)?;
    if tree.has(&child) {
        Ok(Some(child))
    } else {
        Ok(None)
    }
}

// No node has a text as its name that isn't in the grammar of names. It changes nothing: callers learn the fact.
#[tactic(auto, using(crate::proofs::VersionNames::passed_over))]
fn know_absent(tree: &Tree, path: &Path, name: &str)
    requires { ¬ (IsName name.now) }
    ensures { node_at tree.now (child_path path.now name.now) ≡ None }
{
    for (at, _) in tree.iter() {
        at.in_grammar();
    }
}

/// A version of a history, by its name. Refused: 6 with the name where the history has no such version.
#[tactic(auto, using(crate::proofs::Found::some_of, crate::proofs::Found::none_of))]
pub fn find_version(
    alloc: Global,
    tree: &Tree,
    history: &Path,
    version: &str,
) -> Result<Path, Refusal>
    ensures version { IfOk result (λ path. path ≡ child_path history.now version.now) }
    ensures ok { OnOk result (no_version tree.now history.now version.now ≡ None) }
    ensures err { IfErr result (IsTheRefusal (no_version tree.now history.now version.now)) }
{
    match version_there(alloc, tree, history, version) {
        Ok(Some(path)) => Ok(path),
        Ok(None) => Err(no_identifier(alloc, version)),
        Err(AllocError) => Err(Refusal::memory(alloc)),
    }
}

// The version of that name, where the history has it; the node of the labels is none.
#[tactic(auto, unfolding(crate::specs::Histories::has_version))]
fn version_there(
    alloc: Global,
    tree: &Tree,
    history: &Path,
    version: &str,
) -> Result<Option<Path>, AllocError>
    ensures { IfOk result (λ found. found ≡ version_there tree.now history.now version.now) }
{
    if is_same_text(OwnName::VersionLabels.as_str(), version) {
        Ok(None)
    } else {
        child_there(alloc, tree, history, version)
    }
}

/// The versions of a history in the order of making, by their paths.
pub fn versions_of(alloc: Global, tree: &Tree, history: &Path) -> Result<Vec<Path>, AllocError>
    ensures { IfOk result (λ versions. versions.items ≡ versions_of tree.now history.now) }
{
    let mut versions = Vec::new(alloc);
    for name in &version_names(alloc, tree, history)? {
        versions.push(history.child(name)?)?;
    }
    Ok(versions)
}

/// The name of the version that comes behind so many.
#[tactic(auto, using(crate::proofs::VersionNames::version_named))]
pub fn version_name(alloc: Global, count: usize) -> Result<Name, AllocError>
    ensures { IfOk result (λ name. name ≡ version_name count) }
{
    let text = format!(in alloc; "v{count}")?;
    Name::of(alloc, text.as_str())
}

/// The references in a list of them.
pub fn references_in(alloc: Global, property: Option<&Property>) -> Result<Vec<u128>, AllocError>
    ensures { IfOk result (λ references. references.items ≡ many_references (option_copied property.entry)) }
{
    match property {
        Some(Property::Many(_, values)) => references_among(alloc, values.as_slice()),
        _ => Ok(Vec::new(alloc)),
    }
}

fn references_among(alloc: Global, values: &[Value]) -> Result<Vec<u128>, AllocError>
    ensures { IfOk result (λ references. references.items ≡ filter_map reference_in values.now) }
{
    let mut references = Vec::new(alloc);
    for value in values {
        if let Value::Reference(number) = value {
            references.push(*number)?;
        }
    }
    Ok(references)
}

/// The reference, where the property is one.
pub fn one_reference(property: Option<&Property>) -> Option<u128>
    ensures { result ≡ one_reference (option_copied property.entry) }
{
    match property {
        Some(Property::Single(Value::Reference(number))) => Some(*number),
        _ => None,
    }
}

/// The number of the identifier of the node at a path. The name `jcr:uuid` is lent by the caller.
#[tactic(auto, unfolding(crate::specs::Histories::id_number))]
pub(crate) fn number_of(tree: &Tree, key: &Name, path: &Path) -> Option<u128>
    requires { key.now ≡ uuid }
    ensures { result ≡ id_number tree.now path.now }
{
    match one_text(tree.property(path, key)) {
        Some(text) => identifier_named(text),
        None => None,
    }
}

/// The number of the node's identifier, 0 where it has none of that form.
#[tactic(auto, unfolding(crate::specs::Histories::id_number))]
pub fn number_at(alloc: Global, tree: &Tree, path: &Path) -> Result<u128, AllocError>
    ensures { IfOk result (λ number. number ≡ number_at tree.now path.now) }
{
    let uuid = OwnName::Uuid.name(alloc)?;
    Ok(number_of(tree, &uuid, path).unwrap_or(0))
}

/// Whether one of the references names the node at a path. The name `jcr:uuid` is lent by the caller.
pub fn is_named(tree: &Tree, key: &Name, references: &[u128], path: &Path) -> bool
    requires { key.now ≡ uuid }
    ensures { result ≡ is_referenced references.now tree.now path.now }
{
    match number_of(tree, key, path) {
        Some(number) => is_among(number, references),
        None => false,
    }
}

/// Whether the node at a path has the identifier of that number. The name `jcr:uuid` is lent by the caller.
pub fn is_numbered(tree: &Tree, key: &Name, number: u128, path: &Path) -> bool
    requires { key.now ≡ uuid }
    ensures { result ≡ is_numbered number tree.now path.now }
{
    match number_of(tree, key, path) {
        Some(own) => own == number,
        None => false,
    }
}

fn is_among(number: u128, references: &[u128]) -> bool
    ensures { result ≡ list_any (λ m. m == number) references.now }
{
    references.iter().any(|reference| *reference == number)
}
