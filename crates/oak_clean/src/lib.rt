//! What a collection leaves of a store, and what it counts, where nobody else writes.
#![tactic(auto)]

ghost use Rattle.jr_rev.specs.declared.vector.Pin.{Pin};
ghost use Rattle.oak_read.specs.Reading.{IsTable};
ghost use Rattle.oak_store.specs.Tables.{Table};
ghost use Rattle.oak_clean.specs.Clean.{AreNamesInOrder, CollectorsEndClean, IsClean, IsCounted, SeesSwept, SkipsWhatStays, after_collection};

/// Once a collection has gone over all documents of a store in which nobody else wrote, no node's
/// document has garbage of its bound, but for those that have the last number; and those that
/// still have garbage were skipped.
pub fn collections_leave_no_garbage()
    ensures clean { (bound : Pin) (t : Table) → SeesSwept bound → IsTable t.documents
        → AreNamesInOrder t → IsClean bound (after_collection bound t).store }
    ensures skipped { (bound : Pin) (t : Table) → SeesSwept bound → IsTable t.documents
        → AreNamesInOrder t → SkipsWhatStays bound (after_collection bound t) }
{}

/// A collector that a store answers alone, from its first ask on, ends, and leaves no node's
/// document with garbage of the bound that it took, but for those that have the last number.
pub fn collectors_end_clean()
    ensures { CollectorsEndClean }
{}

/// A collection counts the documents that are gone, and the garbage entries that went out of those
/// that stay; and each document that it skipped has the last number, and stays as it was.
pub fn collections_count_what_goes()
    ensures { (bound : Pin) (t : Table) → IsTable t.documents
        → IsCounted bound t (after_collection bound t) }
{}
