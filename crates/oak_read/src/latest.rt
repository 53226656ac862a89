// The latest of the entries that count.
ghost use Rattle.std.specs.Prelude.{◌≡◌, ◌++◌, ◌∷◌, [], Some, IfOk, option_to_list};
ghost use Rattle.oak_read.specs.Meaning.{documents_in, latest};
ghost use Rattle.oak_read.specs.Shown.{shown, counting_among};

use crate::committed::counts;
use jr_path::{DocId, Keyed};
use jr_rev::{Pin, Revision};
use oak_doc::Document;
use std::alloc::{AllocError, Global};

// The latest of the best so far and the entries of a document that count; of one revision the first.
pub(crate) fn latest_with<'a, V>(
    alloc: Global,
    documents: &Keyed<DocId, Document>,
    pin: &Pin,
    document: &Document,
    entries: &'a Keyed<Revision, V>,
    best: Option<(Revision, &'a V)>,
) -> Result<Option<(Revision, &'a V)>, AllocError>
    ensures { IfOk result (λ next. shown next ≡ latest (option_to_list (shown best.entry)
        ++ counting_among (documents_in documents.now) pin.now.sweep pin.now.base document.now
        entries.now)) }
{
    let mut best = best;
    for (r, value) in entries.iter() {
        best = entry_with(alloc, documents, pin, document, *r, value, best)?;
    }
    Ok(best)
}

// The latest of the best so far and an entry of a document, where that counts.
fn entry_with<'a, V>(
    alloc: Global,
    documents: &Keyed<DocId, Document>,
    pin: &Pin,
    document: &Document,
    r: Revision,
    value: &'a V,
    best: Option<(Revision, &'a V)>,
) -> Result<Option<(Revision, &'a V)>, AllocError>
    ensures { IfOk result (λ next. shown next ≡ latest (option_to_list (shown best.entry)
        ++ counting_among (documents_in documents.now) pin.now.sweep pin.now.base document.now
        ((r, value.now) ∷ []))) }
{
    if counts(alloc, documents, pin, document, r)? {
        Ok(Some(later(best, r, value)))
    } else {
        Ok(best)
    }
}

// The later of the best so far and an entry; of one revision the best so far.
fn later<'a, V>(best: Option<(Revision, &'a V)>, r: Revision, value: &'a V) -> (Revision, &'a V)
    ensures { Some (result.0, result.1.now)
        ≡ latest (option_to_list (shown best.entry) ++ (r, value.now) ∷ []) }
{
    match best {
        Some((found, kept)) => { if found < r { (r, value) } else { (found, kept) } }
        None => (r, value),
    }
}
