// Each step is one of a world.
ghost use Rattle.oak_tidy.specs.Moves.{AbsentStay, AppendsItsEvents, BoundsBegin, BoundsGo, ChangedStay, CollectionsBegin, CollectsGarbage, DocumentsGo, GarbageGoes, GonePass, LooksGo, NodesBound, NodesTell, ReadsStay, RefusalsGo, SettingsBound, SplitsBegin, SplitsCopy, SplitsList, SplitsUndo};

/// What begins can make a step, and each step appends just the events of one step of its kind.
pub fn steps_have_their_events()
    ensures appends { AppendsItsEvents }
    ensures splits { SplitsBegin }
    ensures collections { CollectionsBegin }
{}

/// A reading step leaves the world. A look for a document, what a cluster node tells, an update
/// that is refused and a removal that isn't made change no document and no memory.
pub fn looks_are_steps()
    ensures reads { ReadsStay }
    ensures looks { LooksGo }
    ensures nodes { NodesTell }
    ensures refused { RefusalsGo }
    ensures changed { ChangedStay }
    ensures absent { AbsentStay }
{}

/// A split writes its previous document; takes what moved from the document, which lists the
/// previous one then; or removes the previous one again.
pub fn splits_are_steps()
    ensures copied { SplitsCopy }
    ensures listed { SplitsList }
    ensures undone { SplitsUndo }
{}

/// A collection begins its bound with the root, lowers it to what each cluster node holds that
/// isn't recovered, and with the settings takes it. What is asked of a document is what the bound
/// says of it: garbage goes, and documents go.
pub fn collections_are_steps()
    ensures begins { BoundsBegin }
    ensures nodes { NodesBound }
    ensures gone { GonePass }
    ensures settings { SettingsBound }
    ensures bound { BoundsGo }
    ensures asks { CollectsGarbage }
    ensures pruned { GarbageGoes }
    ensures removed { DocumentsGo }
{}
