// The version that a check-in tells, of any node of any tree.
ghost use Rattle.std.specs.Prelude.{◌≡◌, [], IfOk, string_bytes};
ghost use Rattle.jr_path.specs.Grammar.{IsName};
ghost use Rattle.jr_tree.specs.Trees.{children_of};
ghost use Rattle.jr_items.specs.Items.{child_path, is_checked_in};
ghost use Rattle.jr_items.specs.Names.{version_storage};
ghost use Rattle.jr_items.specs.Own.{own_name};
ghost use Rattle.jcr_ref.specs.Histories.{version_history_of};
ghost use Rattle.jcr_ref.specs.References.{identifier_of};
ghost use Rattle.jcr_version.specs.Edits.{checked_in_version};

use jcr_frozen::own_child;
use jcr_version::checked_in_version;
use jr_items::{OwnName, has_mixin, is_flag, one_text};
use jr_path::{Name, Path, PathFault};
use jr_tree::Tree;
use std::alloc::{AllocError, Global};

// The name of the version that a check-in of a node makes, or of the base version of a node that is
// checked in; also where the node has no history, or an identifier that is no name.
pub(crate) fn version_told(
    alloc: Global,
    tree: &Tree,
    path: &Path,
) -> Result<Option<Name>, AllocError>
    ensures { IfOk result (λ name. name ≡ checked_in_version tree.now path.now) }
{
    let id = identifier_of(alloc, tree, path)?;
    version_of(alloc, tree, path, id.as_str())
}

// The name of the version that a check-in of a node makes, or of its base version, by the node's
// identifier.
fn version_of(alloc: Global, tree: &Tree, path: &Path, id: &str) -> Result<Option<Name>, AllocError>
    requires { id.now ≡ identifier_of tree.now path.now }
    ensures { IfOk result (λ name. name ≡ checked_in_version tree.now path.now) }
{
    match Name::parse(alloc, id) {
        Ok(name) => version_by(alloc, tree, path, &name),
        Err(PathFault::Memory) => Err(AllocError),
        Err(PathFault::BadName(_)) => first_version(alloc, tree, path, id),
        Err(_) => unreachable!(),
    }
}

// The name of the version that a check-in of a node makes, or of its base version, where the node's
// identifier is a name.
fn version_by(
    alloc: Global,
    tree: &Tree,
    path: &Path,
    id: &Name,
) -> Result<Option<Name>, AllocError>
    requires { id.now ≡ identifier_of tree.now path.now }
    ensures { IfOk result (λ name. name ≡ checked_in_version tree.now path.now) }
{
    let storage = storage(alloc)?;
    let history = storage.child(id)?;
    checked_in_version(alloc, tree, path, &history)
}

// The name of the version that a check-in of a node makes, where the node's identifier is no name,
// so that it has no versions.
fn first_version(
    alloc: Global,
    tree: &Tree,
    path: &Path,
    id: &str,
) -> Result<Option<Name>, AllocError>
    requires is { id.now ≡ identifier_of tree.now path.now }
    requires unnamed { ¬ (IsName id.now) }
    ensures { IfOk result (λ name. name ≡ checked_in_version tree.now path.now) }
{
    know_childless(tree, id);
    if is_checked_in(alloc, tree, path)? {
        return Ok(None);
    }
    Ok(Some(Name::of(alloc, "v0")?))
}

// No node has a text as its name that isn't in the grammar of names, and so no node stands below
// one. The call changes nothing: callers learn the fact.
fn know_childless(tree: &Tree, id: &str)
    requires { ¬ (IsName id.now) }
    ensures { children_of tree.now (child_path version_storage id.now) ≡ [] }
{
    for (at, _) in tree.iter() {
        at.in_grammar();
    }
}

// A node's identifier: its `jcr:uuid` where that is one text, and else its path.
fn identifier_of(alloc: Global, tree: &Tree, path: &Path) -> Result<String, AllocError>
    ensures { IfOk result (λ id. string_bytes id ≡ identifier_of tree.now path.now) }
{
    let uuid = OwnName::Uuid.name(alloc)?;
    match one_text(tree.property(path, &uuid)) {
        Some(id) => String::from_str(alloc, id),
        None => path.text(),
    }
}

// The node above all version histories.
pub(crate) fn storage(alloc: Global) -> Result<Path, AllocError>
    ensures { IfOk result (λ path. path ≡ version_storage) }
{
    let system = own_child(alloc, &Path::root(alloc), OwnName::System)?;
    own_child(alloc, &system, OwnName::VersionStorage)
}

// Whether a node is versionable and not checked out.
fn is_checked_in(alloc: Global, tree: &Tree, path: &Path) -> Result<bool, AllocError>
    ensures { IfOk result (λ b. b ≡ is_checked_in tree.now path.now) }
{
    let types = OwnName::MixinTypes.name(alloc)?;
    let versionable = OwnName::Versionable.name(alloc)?;
    if !has_mixin(tree, &types, &versionable, path) {
        return Ok(false);
    }
    let checked_out = OwnName::IsCheckedOut.name(alloc)?;
    Ok(is_flag(false, tree.property(path, &checked_out)))
}
