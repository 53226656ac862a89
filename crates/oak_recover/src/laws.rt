// What a recovery comes to.
ghost use Rattle.oak_recover.specs.Ending.{RecoversAll};
ghost use Rattle.oak_recover.specs.Told.{AllTellTheRoot};

/// Over documents at rest a recovery ends. It has undone in each node's document, in store order, just what is dead there by
/// the definition, in ascending order, and has counted these, up to the greatest number that there is. It has told those with
/// committed revisions, and all that is above them, the greatest of these, or what was published where there is none.
pub fn recoveries_end_by_the_definition()
    ensures { RecoversAll }
{}

/// What a recovery tells at its end is what the root's document says of the stopped node, once
/// that was told: what the recovery has found, or what the root said already, where another
/// recovery of the node had found more.
pub fn recoveries_tell_what_the_root_says()
    ensures { AllTellTheRoot }
{}
