// What a value under the lock has to say of itself.
ghost use Rattle.std.specs.Prelude.{◌≡◌, ℕ, List, length};

/// A value with a journal that only grows, numbered authors, a part for each author, a frame, and what changes only
/// where the journal grows.
///
/// The five meanings are for contracts alone. The lock counts the journal by `count`.
pub trait Counted {
    /// An event of the journal.
    type Entry;

    /// What an author owns of the value.
    type Part;

    /// What never changes.
    type Frame;

    /// What changes only where the journal grows.
    type Steady;

    // The events so far, the first one first.
    ghost journal: { Self → List Self.Entry };

    // The authors that the value has.
    ghost authors: { Self → List ℕ };

    // The part of an author.
    ghost part: { Self → ℕ → Self.Part };

    ghost frame: { Self → Self.Frame };

    ghost steady: { Self → Self.Steady };

    /// The number of events.
    fn count(&self) -> u64
        ensures { result ≡ length (journal self.now) };
}
