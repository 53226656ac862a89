// Opening documents.
ghost use Rattle.std.specs.Prelude.{◌≡◌, ◌≤◌, IfErr, IfOk, map};
ghost use Rattle.std.specs.List.Sorted.{IsStrictlySortedBy};
ghost use Rattle.std.specs.Map.{values_of};
ghost use Rattle.jr_path.specs.Ids.{id_cmp};
ghost use Rattle.oak_store.specs.Tables.{by_id};
ghost use Rattle.oak_sound.specs.Meant.{opened_pin, opened_tree};
ghost use Rattle.oak_sound.specs.Sound.{AreSoundDocuments, first_broken};
ghost use Rattle.oak_open.specs.Opening.{Blames, IsOpened, opened_table};

use crate::OpenFault;
use crate::documents::{Opening, opened_documents};
use jr_path::{DeepCopy, Keyed};
use jr_rev::{Pin, RevVec};
use jr_tree::Tree;
use oak_doc::Document;
use oak_sound::{Broken, ById, Meaning, first_broken, greatest_number, meant};
use oak_store::DocTable;
use std::alloc::{AllocError, Global};

/// What a repository that is opened from documents begins with.
pub struct Opened {
    pub table: DocTable,
    pub tree: Tree,
    pub start: RevVec,
}

// By hand, so that its parts are let go in one call.
impl Drop for Opened {
    fn drop(self) {
        let Opened {
            table,
            tree,
            start: _,
        } = self;
        drop(table);
        drop(tree);
    }
}

/// What a repository of so many cluster nodes begins with that is opened from documents for so many
/// sessions: the documents without what isn't committed or isn't seen at their end, published and
/// swept up to it, with the tree that they show there. Where one of the rules of `oak_sound` is
/// broken, it tells the first such rule, with the first document in store order that breaks it,
/// counted from 0.
pub fn open_documents(
    alloc: Global,
    documents: Vec<Document>,
    clusters: u32,
    sessions: u32,
) -> Result<Opened, OpenFault>
    requires clusters { 1 ≤ clusters × clusters ≤ 8 }
    requires sessions { sessions ≤ 64 }
    requires ordered { IsStrictlySortedBy id_cmp (map (λ d. d.id) documents.items) }
    ensures ok { IfOk result (IsOpened clusters sessions (by_id documents.items)) }
    ensures err { IfErr result (Blames (first_broken clusters (by_id documents.items))) }
{
    let documents = by_id(alloc, documents)?;
    let meant = sound_meaning(alloc, &documents, clusters)?;
    let opened = open_sound(alloc, &documents, clusters, sessions, meant)?;
    Ok(opened)
}

// The documents by their ids.
fn by_id(alloc: Global, documents: Vec<Document>) -> Result<ById, AllocError>
    requires { IsStrictlySortedBy id_cmp (map (λ d. d.id) documents.items) }
    ensures { IfOk result (λ table. table ≡ by_id documents.items) }
{
    let mut table = Keyed::new(alloc);
    for document in documents {
        table.put(document.id.copy()?, document)?;
    }
    Ok(table)
}

// What documents of so many cluster nodes mean as a whole, where no rule is broken.
fn sound_meaning(alloc: Global, documents: &ById, clusters: u32) -> Result<Meaning, OpenFault>
    requires { 1 ≤ clusters × clusters ≤ 8 }
    ensures sound { IfOk result (λ m. AreSoundDocuments clusters documents.now) }
    ensures pin { IfOk result (λ m. m.pin ≡ opened_pin clusters documents.now) }
    ensures tree { IfOk result (λ m. m.tree ≡ opened_tree clusters documents.now) }
    ensures err { IfErr result (Blames (first_broken clusters documents.now)) }
{
    let meant = meant(alloc, documents, clusters)?;
    match first_broken(alloc, documents, clusters, &meant)? {
        None => Ok(meant),
        Some(Broken { rule, document }) => Err(OpenFault::Unsound { rule, document }),
    }
}

// What a repository begins with that is opened from sound documents with this meaning.
fn open_sound(
    alloc: Global,
    documents: &ById,
    clusters: u32,
    sessions: u32,
    meant: Meaning,
) -> Result<Opened, AllocError>
    requires sessions { sessions ≤ 64 }
    requires ordered { IsStrictlySortedBy id_cmp (map (λ d. d.id) (values_of documents.now)) }
    requires sound { AreSoundDocuments clusters documents.now }
    requires pin { meant.pin ≡ opened_pin clusters documents.now }
    requires tree { meant.tree ≡ opened_tree clusters documents.now }
    ensures { IfOk result (IsOpened clusters sessions documents.now) }
{
    let (pin, tree) = meant.into_parts();
    let table = opened_table(alloc, documents, clusters, sessions, &pin)?;
    Ok(Opened {
        table,
        tree,
        start: pin.base,
    })
}

// The table of the opened documents.
fn opened_table(
    alloc: Global,
    documents: &ById,
    clusters: u32,
    sessions: u32,
    pin: &Pin,
) -> Result<DocTable, AllocError>
    requires sessions { sessions ≤ 64 }
    requires ordered { IsStrictlySortedBy id_cmp (map (λ d. d.id) (values_of documents.now)) }
    requires sound { AreSoundDocuments clusters documents.now }
    requires pin { pin.now ≡ opened_pin clusters documents.now }
    ensures { IfOk result (λ t. t ≡ opened_table clusters sessions documents.now) }
{
    let number = greatest_number(documents);
    let opening = Opening {
        alloc,
        documents,
        pin,
        sessions,
    };
    let (opened, last) = opened_documents(&opening, number)?;
    DocTable::of(alloc, opened, last)
}
