// The first rule that is broken.
ghost use Rattle.std.specs.Prelude.{◌≡◌, IfOk};
ghost use Rattle.std.specs.Option.{option_map};
ghost use Rattle.oak_sound.specs.Meant.{opened_pin, opened_tree};
ghost use Rattle.oak_sound.specs.Sound.{first_broken};

use crate::committed::ById;
use crate::numbers::first_misnumbered;
use crate::revisions::first_with_others;
use crate::roots::first_misrooted;
use crate::shown::first_out_of_tree;
use crate::vectors::first_without_vectors;
use crate::whole::Meaning;
use std::alloc::{AllocError, Global};

/// A rule that is broken, and the first document in store order that breaks it, counted from 0.
#[derive(Clone, Copy, Debug, PartialEq, Eq)]
pub struct Broken {
    pub rule: u8,
    pub document: usize,
}

/// The first of these rules that is broken by documents of so many cluster nodes, if one is, where
/// it is told what they mean:
///
/// 1. the root's `_lastRev` and `_sweepRev` have an entry for each cluster node and no other, the
///    second at most the first;
/// 2. each revision, in vectors too, has counter 0, a time below 2^62 and one of these cluster
///    nodes;
/// 3. each `_modCount` is below 2^63 and differs from those before it, and `_sessions` is at most
///    16,777,152;
/// 4. each commit root stands above its node; each number of a previous document that is listed is
///    below the `_modCount` of the document that lists it, and where that previous document is
///    there, it has its entries between the revisions that it is listed with, and behind each of
///    them the document has a later committed one of the item;
/// 5. what the documents show is a tree with the repository's own nodes, and where there is no node
///    no property of it has a value as its latest committed entry.
///
/// A previous document breaks the fourth where its entries aren't between those revisions, the
/// document that lists it where the rest doesn't hold. The root's document breaks the fifth where
/// one of the repository's own nodes is missing.
pub fn first_broken(
    alloc: Global,
    documents: &ById,
    clusters: u32,
    meant: &Meaning,
) -> Result<Option<Broken>, AllocError>
    requires pin { meant.now.pin ≡ opened_pin clusters documents.now }
    requires tree { meant.now.tree ≡ opened_tree clusters documents.now }
    ensures { IfOk result (λ b. option_map (λ b. (b.rule, b.document)) b
        ≡ first_broken clusters documents.now) }
{
    if let Some(document) = first_without_vectors(documents, clusters) {
        return Ok(Some(Broken { rule: 1, document }));
    }
    if let Some(document) = first_with_others(documents, clusters) {
        return Ok(Some(Broken { rule: 2, document }));
    }
    if let Some(document) = first_misnumbered(alloc, documents)? {
        return Ok(Some(Broken { rule: 3, document }));
    }
    if let Some(document) = first_misrooted(alloc, documents, &meant.pin.sweep)? {
        return Ok(Some(Broken { rule: 4, document }));
    }
    if let Some(document) = first_out_of_tree(alloc, documents, &meant.pin.sweep, &meant.tree)? {
        return Ok(Some(Broken { rule: 5, document }));
    }
    Ok(None)
}
