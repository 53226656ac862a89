// Which edits may start, which texts may be said, and for which events a command asks.
ghost use Rattle.std.specs.Prelude.{◌↔◌, ℕ, List};
ghost use Rattle.jr_path.specs.Lists.{Text};
ghost use Rattle.jr_tree.specs.declared.edit.Edit.{Edit};
ghost use Rattle.oak_clash.specs.declared.mark.MarkAt.{MarkAt};
ghost use Rattle.oak_machine.specs.declared.event.Event.{Event};
ghost use Rattle.oak_machine.specs.History.{History};
ghost use Rattle.oak_machine.specs.Laws.{StartsProper, StartsWrite};
ghost use Rattle.oak_machine.specs.Runs.{IsLawful, MayFollow, StartsLast, SaysLast, SaysLastBehind, any_said, any_start};

/// A law of a machine: which edits may start, which texts may be said, and for which events a command
/// asks.
pub trait Law {
    /// An edit with its marks may start for a session at a history.
    ghost may_start: { Self → History → ℕ → Edit → List MarkAt → Type 0 };

    /// A text may be said as the reply of that index of a session at a history.
    ghost may_say: { Self → History → ℕ → ℕ → Text → Type 0 };

    /// The command of that index of a session asks for such an event.
    ghost asks: { Self → ℕ → ℕ → Event → Type 0 };

    /// What may start may still start, after events of others.
    ghost starts_last: { (law : Self) → StartsLast (may_start law) (may_say law) };

    ghost says_last: { (law : Self) → SaysLast (may_start law) (may_say law) };

    ghost says_last_behind: { (law : Self) → SaysLastBehind (may_start law) (may_say law) };

    /// What may start is proper, with the marks of its writes.
    ghost proper: { (law : Self) → StartsProper (may_start law) };

    /// What may start writes something.
    ghost writes: { (law : Self) → StartsWrite (may_start law) };
}

/// The law under which nothing starts, anything may be said, and each event is asked for.
#[derive(Clone, Copy, PartialEq, Eq)]
pub struct IdleLaw;

impl Law for IdleLaw {
    ghost may_start = { λ law h s edit marks. ⊥ };

    ghost may_say = { λ law h s i text. Unit {0} };

    ghost asks = { λ law s i e. Unit {0} };

    ghost starts_last = { λ law h added s edit marks others starts. starts };

    ghost says_last = { λ law h added s i text others says. says };

    ghost says_last_behind = { λ law h added e s i text others end run later says. says };

    ghost proper = { λ law h s edit marks v base starts. absurd starts };

    ghost writes = { λ law h s edit marks starts. absurd starts };
}

/// An event may follow by a law just where it may whatever the law lets start and say, and where the law
/// lets start the edit, or say the text, of which it tells.
pub fn machine_and_law<L: Law>()
    ensures { (law : L) (h : History) (e : _) → MayFollow (L.may_start law) (L.may_say law) h e
        ↔ (MayFollow any_start any_said h e × IsLawful (L.may_start law) (L.may_say law) h e) }
{}
