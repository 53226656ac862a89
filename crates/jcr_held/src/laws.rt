// Laws of what is held.
ghost use Rattle.std.specs.Prelude.{IsTrue, None};
ghost use Rattle.std.specs.String.{string_bytes};
ghost use Rattle.std.specs.declared.alloc.Global.{Global};
ghost use Rattle.std.specs.declared.string.String.{String};
ghost use Rattle.jcr_trans.specs.declared.command.Command.{Command};
ghost use Rattle.jcr_law.specs.State.{Call, is_ok_text};
ghost use Rattle.jcr_call.specs.declared.coming.Coming.TheVariants as coming;
ghost use Rattle.jcr_held.specs.Accepts.{AcceptsAs};
ghost use Rattle.jcr_held.specs.Comes.{ComesTo};
ghost use Rattle.jcr_held.specs.Holds.{Holds};
ghost use Rattle.jcr_held.specs.declared.held.Held.{Held};

/// A reply that accepts a command without a commit leaves the lock tokens and the cursor as they
/// are: there was nothing to write, and a lock has always something to write (JSR 283, 17 Locking).
pub fn replies_without_commit_keep_tokens()
    ensures { (c : Call) (x : Held) (m : Command) (text : String Global) → Holds c x
        → ComesTo c m (coming.Said text) → IsTrue (is_ok_text (string_bytes text))
        → AcceptsAs x None c m }
{}
