//! Documents that one opens with show the start that they are opened with.
//!
//! Oak, DocumentNodeStore: "Node Document", "Clustering".
#![tactic(auto)]

ghost use Rattle.std.specs.Prelude.{◌≡◌, ◌≤◌, ℕ, List, Some};
ghost use Rattle.jr_path.specs.declared.path.Path.{Path};
ghost use Rattle.jr_path.specs.declared.path.DocId.{DocId};
ghost use Rattle.jr_tree.specs.Trees.{node_at};
ghost use Rattle.oak_doc.specs.declared.document.Document.{Document};
ghost use Rattle.oak_machine.specs.History.{IsStart};
ghost use Rattle.oak_read.specs.Meaning.{documents_in, found_node};
ghost use Rattle.oak_store.specs.Tables.{by_id};
ghost use Rattle.oak_open.specs.Opening.{opened_table};
ghost use Rattle.core_begun.specs.Kept.{ShowsStart};
ghost use Rattle.core_open.specs.Starting.{AreOpenable, begun_documents, shown_start};

/// What documents open with is a start: a tree, with a vector that has an entry for each cluster
/// node and for no other.
pub fn opened_documents_have_a_start()
    ensures { (clusters : ℕ) (ds : List Document) → AreOpenable clusters ds
        → IsStart clusters (shown_start clusters ds) }
{}

/// Opened documents show that start, so they are kept since it before any event; and at its vector,
/// swept up to it, they mean its tree.
pub fn opened_documents_show_their_start()
    ensures shown { (clusters sessions : ℕ) (ds : List Document) → AreOpenable clusters ds
        → ShowsStart (shown_start clusters ds) (begun_documents clusters sessions ds) }
    ensures mean { (clusters sessions : ℕ) (ds : List Document) (p : Path)
        → AreOpenable clusters ds → found_node (begun_documents clusters sessions ds)
        (shown_start clusters ds).at (shown_start clusters ds).at p
        ≡ node_at (shown_start clusters ds).tree p }
{}

/// Each stands by its own id. Their numbers are their own and at most the number drawn last, and
/// none is lower than it was.
pub fn opened_documents_are_numbered()
    ensures named { (clusters sessions : ℕ) (ds : List Document) (i : DocId) (d : Document)
        → begun_documents clusters sessions ds i ≡ Some d → d.id ≡ i }
    ensures apart { (clusters sessions : ℕ) (ds : List Document) (i j : DocId) (d e : Document)
        → AreOpenable clusters ds → begun_documents clusters sessions ds i ≡ Some d
        → begun_documents clusters sessions ds j ≡ Some e → d.mod_count ≡ e.mod_count → i ≡ j }
    ensures last { (clusters sessions : ℕ) (ds : List Document) (i : DocId) (d : Document)
        → begun_documents clusters sessions ds i ≡ Some d
        → d.mod_count ≤ (opened_table clusters sessions (by_id ds)).number }
    ensures rise { (clusters sessions : ℕ) (ds : List Document) (i : DocId) (old new : Document)
        → documents_in (by_id ds) i ≡ Some old → begun_documents clusters sessions ds i ≡ Some new
        → old.mod_count ≤ new.mod_count }
{}
