// What the updates make of the settings' document.
ghost use Rattle.oak_checkpoint.specs.Settings.{attach_op, create_op, detach_op, drop_readers_op, release_op};
ghost use Rattle.oak_checkpoint.specs.Kept.{Attaches, Creates, Detaches, DropsReaders, MakesOfSettings, Releases};

/// What each update makes of the settings' document, with any number. A checkpoint that is made is the one of its
/// id, and one that is released is gone. A session that attaches reads at the pin of the checkpoint, where there is one,
/// until it is detached, whatever becomes of the checkpoint. All else stays.
pub fn what_the_settings_keep()
    ensures created { (id : _) (pin : _) → MakesOfSettings (create_op id pin) (Creates id pin) }
    ensures released { (id : _) → MakesOfSettings (release_op id) (Releases id) }
    ensures attached { (session : _) (id : _) → MakesOfSettings (attach_op session id) (Attaches session id) }
    ensures detached { (session : _) → MakesOfSettings (detach_op session) (Detaches session) }
    ensures dropped { (sessions : _) → MakesOfSettings (drop_readers_op sessions) (DropsReaders sessions) }
{}
