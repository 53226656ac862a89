// The rule of the tree.
ghost use Rattle.std.specs.Prelude.{◌≡◌, ◌&&◌, [], IfOk, is_some};
ghost use Rattle.jr_items.specs.Names.{system, version_storage};
ghost use Rattle.jr_path.specs.declared.path.DocId.TheVariants.{Node};
ghost use Rattle.jr_tree.specs.Trees.{has_parent, node_at};
ghost use Rattle.oak_sound.specs.Sound.{first_breaking, has_no_values, has_system, is_value};
ghost use Rattle.oak_sound.specs.Sound.{keeps_node, keeps_tree, latest_committed};

use crate::committed::{ById, latest_committed};
use jr_items::OwnName;
use jr_path::{DocId, Keyed, Name, Path};
use jr_rev::{RevVec, Revision};
use jr_tree::Tree;
use jr_value::Property;
use oak_doc::Document;
use std::alloc::{AllocError, Global};

// The first document that doesn't keep the rule of the tree.
pub(crate) fn first_out_of_tree(
    alloc: Global,
    documents: &ById,
    sweep: &RevVec,
    tree: &Tree,
) -> Result<Option<usize>, AllocError>
    ensures { IfOk result (λ at. at ≡ first_breaking
        (λ before e. keeps_tree documents.now sweep.now tree.now e.0 e.1) [] documents.now) }
{
    let _ = documents.len();
    for (at, (id, document)) in documents.iter().enumerate() {
        if !keeps_tree(alloc, documents, sweep, tree, id, document)? {
            return Ok(Some(at));
        }
    }
    Ok(None)
}

fn keeps_tree(
    alloc: Global,
    documents: &ById,
    sweep: &RevVec,
    tree: &Tree,
    id: &DocId,
    document: &Document,
) -> Result<bool, AllocError>
    ensures { IfOk result (λ keeps. keeps
        ≡ keeps_tree documents.now sweep.now tree.now id.now document.now) }
{
    match id {
        DocId::Node(path) => keeps_path(alloc, documents, sweep, tree, path, document),
        _ => Ok(true),
    }
}

fn keeps_path(
    alloc: Global,
    documents: &ById,
    sweep: &RevVec,
    tree: &Tree,
    path: &Path,
    document: &Document,
) -> Result<bool, AllocError>
    ensures { IfOk result (λ keeps. keeps
        ≡ keeps_tree documents.now sweep.now tree.now (Node path.now) document.now) }
{
    if path.depth() == 0 {
        if !has_system(alloc, tree)? {
            return Ok(false);
        }
    }
    keeps_node(alloc, documents, sweep, tree, path, document)
}

// Whether the root and the repository's own nodes are there.
fn has_system(alloc: Global, tree: &Tree) -> Result<bool, AllocError>
    ensures { IfOk result (λ has. has ≡ has_system tree.now) }
{
    let root = Path::root(alloc);
    let system = system_path(alloc)?;
    let storage = storage_path(alloc)?;
    Ok(has_all(tree, &root, &system, &storage))
}

fn has_all(tree: &Tree, root: &Path, system: &Path, storage: &Path) -> bool
    ensures { result ≡ (is_some (node_at tree.now root.now) && is_some (node_at tree.now system.now)
        && is_some (node_at tree.now storage.now)) }
{
    tree.has(root) && tree.has(system) && tree.has(storage)
}

fn system_path(alloc: Global) -> Result<Path, AllocError>
    ensures { IfOk result (λ path. path ≡ system) }
{
    let root = Path::root(alloc);
    root.child(&OwnName::System.name(alloc)?)
}

fn storage_path(alloc: Global) -> Result<Path, AllocError>
    ensures { IfOk result (λ path. path ≡ version_storage) }
{
    let system = system_path(alloc)?;
    system.child(&OwnName::VersionStorage.name(alloc)?)
}

fn keeps_node(
    alloc: Global,
    documents: &ById,
    sweep: &RevVec,
    tree: &Tree,
    path: &Path,
    document: &Document,
) -> Result<bool, AllocError>
    ensures { IfOk result (λ keeps. keeps
        ≡ keeps_node documents.now sweep.now tree.now path.now document.now) }
{
    if tree.has(path) {
        return has_parent(tree, path);
    }
    has_no_values(alloc, documents, sweep, document)
}

// Whether the node above is there.
fn has_parent(tree: &Tree, path: &Path) -> Result<bool, AllocError>
    ensures { IfOk result (λ has. has ≡ has_parent tree.now path.now) }
{
    match path.parent()? {
        Some(parent) => Ok(tree.has(&parent)),
        None => Ok(true),
    }
}

// Whether no property has a value as its latest committed entry.
fn has_no_values(
    alloc: Global,
    documents: &ById,
    sweep: &RevVec,
    document: &Document,
) -> Result<bool, AllocError>
    ensures { IfOk result (λ has. has ≡ has_no_values documents.now sweep.now document.now) }
{
    for (_, values) in document.props.iter() {
        if has_value(alloc, documents, sweep, document, values)? {
            return Ok(false);
        }
    }
    Ok(true)
}

fn has_value(
    alloc: Global,
    documents: &ById,
    sweep: &RevVec,
    document: &Document,
    values: &Keyed<Revision, Option<Property>>,
) -> Result<bool, AllocError>
    ensures { IfOk result (λ has. has
        ≡ is_value (latest_committed documents.now sweep.now document.now values.now)) }
{
    match latest_committed(alloc, documents, sweep, document, values)? {
        Some((_, value)) => Ok(value.is_some()),
        None => Ok(false),
    }
}
