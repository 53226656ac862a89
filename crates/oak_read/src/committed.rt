// Which entries count.
ghost use Rattle.std.specs.Prelude.{◌≡◌, ◌&&◌, IfOk, take};
ghost use Rattle.jr_rev.specs.Vectors.{sees};
ghost use Rattle.oak_read.specs.Meaning.{documents_in, path_of, main_of, commit_root_of, is_committed};

use jr_path::{DeepCopy, DocId, Keyed, Path};
use jr_rev::{Pin, RevVec, Revision};
use oak_doc::Document;
use std::alloc::{AllocError, Global};

/// Whether the base sees the revision, and it is committed as it stands in the document.
pub fn counts(
    alloc: Global,
    documents: &Keyed<DocId, Document>,
    pin: &Pin,
    document: &Document,
    r: Revision,
) -> Result<bool, AllocError>
    ensures { IfOk result (λ counting. counting ≡ (sees pin.now.base r
        && is_committed (documents_in documents.now) pin.now.sweep document.now r)) }
{
    if !pin.base.sees(r) {
        return Ok(false);
    }
    is_committed(alloc, documents, &pin.sweep, document, r)
}

// Whether the sweep vector sees the revision, or its commit root has it.
fn is_committed(
    alloc: Global,
    documents: &Keyed<DocId, Document>,
    sweep: &RevVec,
    document: &Document,
    r: Revision,
) -> Result<bool, AllocError>
    ensures { IfOk result (λ committed. committed
        ≡ is_committed (documents_in documents.now) sweep.now document.now r) }
{
    if sweep.sees(r) {
        return Ok(true);
    }
    let root = commit_root_of(alloc, document, r)?;
    match documents.get(&root) {
        Some(root) => Ok(root.revisions.contains(&r)),
        None => Ok(false),
    }
}

/// The commit root of a revision, as it stands in the document: the document of the ancestor that the entry names; where
/// the document has no such entry, the document of its node.
///
/// Oak, DocumentNodeStore: "Node Document", `_commitRoot`.
pub fn commit_root_of(alloc: Global, document: &Document, r: Revision) -> Result<DocId, AllocError>
    ensures { IfOk result (λ root. root ≡ commit_root_of document.now r) }
{
    match document.commit_root.get(&r) {
        Some(depth) => Ok(DocId::Node(ancestor(alloc, &document.id, *depth)?)),
        None => main_of(&document.id),
    }
}

// Of a previous document the document of its node, else the document itself.
fn main_of(id: &DocId) -> Result<DocId, AllocError>
    ensures { IfOk result (λ main. main ≡ main_of id.now) }
{
    match id {
        DocId::Node(path) | DocId::Prev(_, path) => Ok(DocId::Node(path.copy()?)),
        DocId::Settings => Ok(DocId::Settings),
    }
}

// The ancestor, of so many names, of the node whose document it is.
fn ancestor(alloc: Global, id: &DocId, depth: u32) -> Result<Path, AllocError>
    ensures { IfOk result (λ path. path ≡ take depth (path_of id.now)) }
{
    match id {
        DocId::Node(path) | DocId::Prev(_, path) => {
            Ok(path.prefix(path.depth().min(depth as usize))?)
        }
        DocId::Settings => Ok(Path::root(alloc)),
    }
}
