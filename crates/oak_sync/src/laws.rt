// What background writes and reads come to.
ghost use Rattle.std.specs.Prelude.{◌≡◌, ◌++◌, ◌∷◌, [], List};
ghost use Rattle.oak_sync.specs.Upward.{AreUpward};
ghost use Rattle.oak_sync.specs.Ending.{AsksUpward, Learns, Publishes};

/// There is one list of the paths with all that is above them, and the root is its last.
pub fn one_way_up()
    ensures one { (paths up other : List _) → AreUpward paths up → AreUpward paths other → up ≡ other }
    ensures root { (paths up : List _) → AreUpward paths up → (front : List _) × (up ≡ front ++ [] ∷ []) }
{}

/// Whatever its updates find, a background write asks for the documents of its pending paths and of all that is
/// above them, one behind another, and then ends.
pub fn back_writes_ask()
    ensures { AsksUpward }
{}

/// Where nobody else changes the documents, a background write ends, and has raised the entry of `_lastRev` in
/// each of its documents that is there, and changed nothing else.
pub fn back_writes_publish()
    ensures { Publishes }
{}

/// Over documents at rest a background read ends, and has learned the two vectors of the root's document.
pub fn back_reads_end()
    ensures { Learns }
{}
