// Opening documents with node types.
ghost use Rattle.std.specs.Prelude.{◌≡◌, ◌≤◌, [], None, IfErr, IfOk, map};
ghost use Rattle.std.specs.List.Sorted.{IsStrictlySortedBy};
ghost use Rattle.std.specs.Option.{option_map};
ghost use Rattle.jr_path.specs.Ids.{id_cmp};
ghost use Rattle.oak_store.specs.Tables.{by_id};
ghost use Rattle.oak_sound.specs.Sound.{first_breaking};
ghost use Rattle.oak_open.specs.Opening.{Blames};
ghost use Rattle.jr_open.specs.Typed.{IsOpenedWithTypes, first_broken_with_types, keeps_types};

use crate::types::first_untyped;
use jr_edited::Edited;
use jr_types::Registry;
use oak_doc::Document;
use oak_open::{OpenFault, Opened, open_documents};
use std::alloc::{AllocError, Global};

/// What a repository of so many cluster nodes and of these node types begins with that is opened
/// from documents for so many sessions: what `open_documents` of `oak_open` makes of them, whose
/// tree meets the nine rules of its types (JSR 283, 3.7 Node Types). Where a rule is broken, it
/// tells the first one, with the first document in store order that breaks it, counted from 0: one
/// of the five of `oak_sound`, or 6, that the node of the document keeps the rules of its types.
pub fn open(
    alloc: Global,
    documents: Vec<Document>,
    clusters: u32,
    sessions: u32,
    types: &Registry,
) -> Result<Opened, OpenFault>
    requires clusters { 1 ≤ clusters × clusters ≤ 8 }
    requires sessions { sessions ≤ 64 }
    requires ordered { IsStrictlySortedBy id_cmp (map (λ d. d.id) documents.items) }
    ensures ok { IfOk result
        (IsOpenedWithTypes clusters sessions types.now (by_id documents.items)) }
    ensures err { IfErr result
        (Blames (first_broken_with_types clusters types.now (by_id documents.items))) }
{
    let opened = open_documents(alloc, documents, clusters, sessions)?;
    typed(alloc, opened, types)
}

// What is opened, where its tree keeps the rule of node types.
fn typed(alloc: Global, opened: Opened, types: &Registry) -> Result<Opened, OpenFault>
    ensures ok { IfOk result (λ o. (o ≡ opened)
        × (first_breaking (λ before e. keeps_types types.now opened.tree e.0) []
        opened.table.documents ≡ None)) }
    ensures err { IfErr result (Blames (option_map (λ i. (6, i))
        (first_breaking (λ before e. keeps_types types.now opened.tree e.0) []
        opened.table.documents))) }
{
    match found_untyped(alloc, &opened, types) {
        Ok(None) => Ok(opened),
        Ok(Some(document)) => Err(OpenFault::Unsound { rule: 6, document }),
        Err(_) => Err(OpenFault::Memory),
    }
}

fn found_untyped(
    alloc: Global,
    opened: &Opened,
    types: &Registry,
) -> Result<Option<usize>, AllocError>
    ensures { IfOk result (λ at. at
        ≡ first_breaking (λ before e. keeps_types types.now opened.now.tree e.0) []
        opened.now.table.documents) }
{
    let tree = Edited::unchanged(alloc, &opened.tree);
    first_untyped(opened.table.documents(), &tree, types)
}
