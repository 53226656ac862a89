// The children of a node.
ghost use Rattle.std.specs.Prelude.{◌≡◌, ◌↔◌, ◌∷◌, ◌++◌, [], IfOk, IsTrue, is_some};
ghost use Rattle.std.specs.List.{Contains};
ghost use Rattle.std.specs.List.Sorted.{IsStrictlySortedBy};
ghost use Rattle.std.specs.Map.{keys_of};
ghost use Rattle.jr_path.specs.Ids.{id_cmp};
ghost use Rattle.std.specs.Option.{option_map};
ghost use Rattle.jr_path.specs.Names.{last_name, name_cmp};
ghost use Rattle.jr_path.specs.declared.path.DocId.TheVariants.{Node};
ghost use Rattle.jr_tree.specs.Trees.{born_of, is_child_of};
ghost use Rattle.oak_read.specs.Meaning.{documents_in, found_node, child_found, found_children};

use crate::node::find_node;
use jr_path::{DeepCopy, DocId, Keyed, Name, Path};
use jr_rev::{Pin, Revision};
use oak_doc::Document;
use std::alloc::{AllocError, Global};

/// The names of the nodes below a path that documents at rest show at a pin, in ascending order, each with
/// the revision that added it, whether or not there is a node at the path itself (JSR 283, 5.2 Traversal
/// Access).
pub fn find_children(
    alloc: Global,
    documents: &Keyed<DocId, Document>,
    pin: &Pin,
    path: &Path,
) -> Result<Vec<(Name, Option<Revision>)>, AllocError>
    ensures { IfOk result (λ names. names.items ≡ found_children (documents_in documents.now)
        pin.now.sweep pin.now.base (keys_of documents.now) path.now) }
{
    let mut names = Vec::new(alloc);
    for (id, _) in documents.iter() {
        if let Some(child) = child_found(alloc, documents, pin, path, id)? {
            names.push(child)?;
        }
    }
    Ok(names)
}

/// The children by documents are the nodes that are found one name below the path, each with the revision
/// that added it, and their names ascend where the documents stand in store order, as they do in a map by
/// their ids.
pub fn children_of_documents()
    ensures found { (table : _) (t v p n born : _) → Contains (found_children (documents_in table) t v (keys_of table) p) (n, born)
        ↔ (IsTrue (is_some (found_node (documents_in table) t v (p ++ n ∷ []))) × (born_of (found_node (documents_in table) t v (p ++ n ∷ [])) ≡ born)) }
    ensures ascending { (table : _) (t v p : _) → IsStrictlySortedBy id_cmp (keys_of table)
        → IsStrictlySortedBy (λ c d. name_cmp c.0 d.0) (found_children (documents_in table) t v (keys_of table) p) }
{}

// The name of the node whose document it is, with the revision that added it, where it is found and is a
// child of the path's node.
pub(crate) fn child_found(
    alloc: Global,
    documents: &Keyed<DocId, Document>,
    pin: &Pin,
    path: &Path,
    id: &DocId,
) -> Result<Option<(Name, Option<Revision>)>, AllocError>
    ensures { IfOk result (λ child. child ≡ child_found (documents_in documents.now)
        pin.now.sweep pin.now.base path.now id.now) }
{
    match id {
        DocId::Node(at) => child_at(alloc, documents, pin, path, at),
        _ => Ok(None),
    }
}

// The name of the node at the second path, with the revision that added it, where it is found and is a
// child of the first path's node.
pub(crate) fn child_at(
    alloc: Global,
    documents: &Keyed<DocId, Document>,
    pin: &Pin,
    path: &Path,
    at: &Path,
) -> Result<Option<(Name, Option<Revision>)>, AllocError>
    ensures { IfOk result (λ child. child ≡ child_found (documents_in documents.now)
        pin.now.sweep pin.now.base path.now (Node at.now)) }
{
    if !is_child(path, at) {
        return Ok(None);
    }
    let Some(node) = find_node(alloc, documents, pin, at)? else {
        return Ok(None);
    };
    named(at, node.born)
}

// The last name of a path, with the revision that added its node.
fn named(at: &Path, born: Option<Revision>) -> Result<Option<(Name, Option<Revision>)>, AllocError>
    ensures { IfOk result (λ named. named ≡ option_map (λ n. (n, born)) (last_name at.now)) }
{
    match at.last_name() {
        Some(name) => Ok(Some((name.copy()?, born))),
        None => Ok(None),
    }
}

// Whether the second path is that of a child of the first.
pub(crate) fn is_child(path: &Path, at: &Path) -> bool
    ensures { result ≡ is_child_of path.now at.now }
{
    let [parent @ .., _] = at.names() else {
        return false;
    };
    path.names().cmp(parent).is_eq()
}
