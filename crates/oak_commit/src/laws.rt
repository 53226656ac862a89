// What is so of committers.
ghost use Rattle.std.specs.Prelude.{◌≡◌, ◌∷◌, ◌++◌, List, None, Option, Some};
ghost use Rattle.jr_path.specs.declared.path.DocId.{DocId};
ghost use Rattle.jr_path.specs.declared.path.DocId.TheVariants as id;
ghost use Rattle.jr_path.specs.declared.path.Path.{Path};
ghost use Rattle.oak_commit.specs.Committing.{Committing, due_of, meeting, wrote};
ghost use Rattle.oak_commit.specs.Looking.{whole};
ghost use Rattle.oak_commit.specs.Looks.{IsWriting, after_looks, previous_in};
ghost use Rattle.oak_doc.specs.declared.asks.Ask.TheVariants as ask;
ghost use Rattle.oak_doc.specs.declared.document.Document.{Document};
ghost use Rattle.oak_doc.specs.declared.document.PrevEntry.{PrevEntry};

/// A committer that has written a document asks for each previous document that this listed before, in their order, each
/// once; and then it is to mark what it meets in the document with all that moved put back. A previous document that is
/// gone is empty (Oak, DocumentNodeStore: "Previous Documents").
pub fn looks_pass_previous_documents()
    ensures asks { (ds : DocId → Option Document) (c : Committing) (p : Path) (rest : List Path)
        (d : Document) (es fs : List PrevEntry) (e : PrevEntry)
        → IsWriting c p rest → d.prev ≡ es ++ e ∷ fs
        → due_of (after_looks p ds c d es) ≡ ask.Find (id.Prev e.number p) }
    ensures meets { (ds : DocId → Option Document) (c : Committing) (p : Path) (rest : List Path)
        (d : Document) → IsWriting c p rest → after_looks p ds c d d.prev
        ≡ meeting (wrote c p rest) p (whole p (Some d) (previous_in p ds d.prev)) }
{}
