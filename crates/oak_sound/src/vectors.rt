// The rule of the root's vectors.
ghost use Rattle.std.specs.Prelude.{◌≡◌, [], nat_le};
ghost use Rattle.jr_path.specs.declared.path.DocId.TheVariants.{Node};
ghost use Rattle.jr_rev.specs.Vectors.{entry};
ghost use Rattle.oak_machine.specs.History.{has_entry};
ghost use Rattle.oak_sound.specs.Sound.{first_breaking, is_of_nodes, keeps_vectors};

use crate::committed::ById;
use jr_path::DocId;
use jr_rev::RevVec;
use oak_doc::Document;

// The first document that doesn't keep the rule of vectors.
pub(crate) fn first_without_vectors(documents: &ById, clusters: u32) -> Option<usize>
    ensures { result
        ≡ first_breaking (λ before e. keeps_vectors clusters e.0 e.1) [] documents.now }
{
    let _ = documents.len();
    for (at, (id, document)) in documents.iter().enumerate() {
        if !keeps_vectors(id, document, clusters) {
            return Some(at);
        }
    }
    None
}

fn keeps_vectors(id: &DocId, document: &Document, clusters: u32) -> bool
    ensures { result ≡ keeps_vectors clusters id.now document.now }
{
    match id {
        DocId::Node(path) => path.depth() > 0 || has_vectors(document, clusters),
        _ => true,
    }
}

fn has_vectors(document: &Document, clusters: u32) -> bool
    ensures { result ≡ keeps_vectors clusters (Node []) document.now }
{
    is_of_nodes(&document.last_rev, clusters)
        && is_of_nodes(&document.sweep_rev, clusters)
        && document.sweep_rev.is_below(&document.last_rev)
}

// Whether a vector has an entry for each of so many cluster nodes, and no other.
fn is_of_nodes(vector: &RevVec, clusters: u32) -> bool
    ensures { result ≡ is_of_nodes clusters vector.now }
{
    [1, 2, 3, 4, 5, 6, 7, 8]
        .iter()
        .all(|k| has_entry(vector, clusters, *k))
}

fn has_entry(vector: &RevVec, clusters: u32, k: u32) -> bool
    ensures { result ≡ has_entry (nat_le k clusters) (entry vector.now k) }
{
    vector.get(k).is_some() == (k <= clusters)
}
