// How the cut of a journal grows.
ghost use Rattle.std.specs.Prelude.{◌≡◌, ◌++◌, ◌∷◌, [], List, true, false};
ghost use Rattle.oak_machine.specs.declared.event.Event.{Event};
ghost use Rattle.oak_machine.specs.History.{Past};
ghost use Rattle.jr_script.specs.declared.script.Script.{Script};
ghost use Rattle.jr_stage.specs.Places.{is_of_turn};
ghost use Rattle.jr_stage.specs.Parts.{Rule, Part, part_session, must_end, goes_on, is_part, events_of, IsCut};
ghost use Rattle.jr_stage.specs.Growing.{LookBack, StayParts, knows_next};

/// How the cut of a journal grows while a schedule runs. The part under way takes one event more,
/// where it need not have ended. A part that is one comes behind those before it, where none of
/// these looks ahead. And a cut stays one whatever comes later: of parts that don't look ahead
/// always, of others where no Write or Mark of their sessions is next.
pub fn cuts_grow()
    ensures under_way { (script : Script) (rule : Rule) (before part : Past) (e : Event)
        → knows_next (part_session rule) before part ≡ true
        → goes_on script rule before part [] ≡ true
        → must_end script rule before part (e ∷ []) ≡ false
        → is_of_turn script (part ++ before) (part_session rule) e ≡ true
        → goes_on script rule before (e ∷ part) [] ≡ true }
    ensures one_more { (script : Script) (p : Part) (parts : List Part)
        → LookBack parts → IsCut script parts []
        → is_part script p.rule (events_of parts) p.events [] ≡ true
        → IsCut script (p ∷ parts) [] }
    ensures stays { (script : Script) (parts : List Part) (l m : List Event)
        → LookBack parts → IsCut script parts l → IsCut script parts m }
    ensures waits { (script : Script) (parts : List Part) (l m : List Event)
        → StayParts script parts m → IsCut script parts l → IsCut script parts m }
{}
