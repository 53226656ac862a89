// What is committed by the documents.
ghost use Rattle.std.specs.Prelude.{◌≡◌, ◌∷◌, ◌++◌, [], Some, IfOk, filter, option_to_list};
ghost use Rattle.oak_read.specs.Meaning.{documents_in, is_committed, latest};
ghost use Rattle.oak_read.specs.Shown.{shown};
ghost use Rattle.oak_sound.specs.Sound.{latest_committed};

use jr_path::{DocId, Keyed};
use jr_rev::{RevVec, Revision};
use oak_doc::Document;
use oak_read::commit_root_of;
use std::alloc::{AllocError, Global};

/// Documents in store order, by their ids.
pub type ById = Keyed<DocId, Document>;

// Whether the sweep vector sees the revision, or its commit root, as it stands in the document, has
// it.
pub(crate) fn is_committed(
    alloc: Global,
    documents: &ById,
    sweep: &RevVec,
    document: &Document,
    r: Revision,
) -> Result<bool, AllocError>
    ensures { IfOk result (λ committed. committed
        ≡ is_committed (documents_in documents.now) sweep.now document.now r) }
{
    if sweep.sees(r) {
        return Ok(true);
    }
    let root = commit_root_of(alloc, document, r)?;
    match documents.get(&root) {
        Some(root) => Ok(root.revisions.contains(&r)),
        None => Ok(false),
    }
}

// The latest of some entries that is committed as it stands in the document.
pub(crate) fn latest_committed<'a, V>(
    alloc: Global,
    documents: &ById,
    sweep: &RevVec,
    document: &Document,
    entries: &'a Keyed<Revision, V>,
) -> Result<Option<(Revision, &'a V)>, AllocError>
    ensures { IfOk result (λ found. shown found
        ≡ latest_committed documents.now sweep.now document.now entries.now) }
{
    let mut best = None;
    for (r, value) in entries.iter() {
        best = entry_with(alloc, documents, sweep, document, *r, value, best)?;
    }
    Ok(best)
}

// The latest of the best so far and an entry, where that is committed.
fn entry_with<'a, V>(
    alloc: Global,
    documents: &ById,
    sweep: &RevVec,
    document: &Document,
    r: Revision,
    value: &'a V,
    best: Option<(Revision, &'a V)>,
) -> Result<Option<(Revision, &'a V)>, AllocError>
    ensures { IfOk result (λ next. shown next ≡ latest (option_to_list (shown best.entry)
        ++ filter (λ e. is_committed (documents_in documents.now) sweep.now document.now e.0)
        ((r, value.now) ∷ []))) }
{
    if is_committed(alloc, documents, sweep, document, r)? {
        Ok(Some(later(best, r, value)))
    } else {
        Ok(best)
    }
}

// The later of the best so far and an entry; of one revision the best so far.
fn later<'a, V>(best: Option<(Revision, &'a V)>, r: Revision, value: &'a V) -> (Revision, &'a V)
    ensures { Some (result.0, result.1.now)
        ≡ latest (option_to_list (shown best.entry) ++ (r, value.now) ∷ []) }
{
    match best {
        Some((found, kept)) => { if found < r { (r, value) } else { (found, kept) } }
        None => (r, value),
    }
}
