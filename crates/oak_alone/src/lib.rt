//! What a split and a collection come to while nobody else adds an event.
#![tactic(auto)]

ghost use Rattle.oak_alone.specs.Alone.{CollectsAlone, SplitsAlone};
ghost use Rattle.oak_alone.specs.Quiet.{OwnTurnsAreQuiet};

use oak_machine::Law;

/// A split of a session ends as over documents at rest, and makes of them what it says, while
/// nobody else adds an event.
pub fn splits_alone<L: Law>(law: &L)
    ensures { SplitsAlone (L.may_start law.now) (L.may_say law.now) L }
{}

/// A collection of a session takes its bound once, and makes of the documents what a collection of
/// that bound makes of them at rest, while nobody else adds an event.
pub fn collections_alone<L: Law>(law: &L)
    ensures { CollectsAlone (L.may_start law.now) (L.may_say law.now) L }
{}

/// Where one session alone takes its turns, nobody else adds an event.
pub fn own_turns_are_quiet<L: Law>(law: &L)
    ensures { OwnTurnsAreQuiet L }
{}
