// What a sweep comes to.
ghost use Rattle.oak_sweep.specs.Ending.{MissesNone, SweepsAll, TablesKnow, TeachesOne};

/// Over documents at rest a sweep asks for every node's document, then for the update of the root, and then that the memory
/// learns; it ends in what the root's document says to be published.
pub fn sweeps_pass_all_nodes()
    ensures { SweepsAll }
{}

/// Over documents that come and go meanwhile: when a sweep asks for the update of the root, it was shown the document
/// of each node that was there throughout. Documents at any moment answer as this asks, while the node's is among them.
pub fn sweeps_miss_no_node()
    ensures shown { MissesNone }
    ensures known { TablesKnow }
{}

/// What the memory learns of a sweep raises one entry of its sweep vector, and nothing else.
pub fn sweeps_teach_one_entry()
    ensures { TeachesOne }
{}
