// What every script that is made has.
ghost use Rattle.std.specs.Prelude.{◌≡◌, ◌<◌, ◌≤◌, ℕ, All, List, Option, length};
ghost use Rattle.serde_json.specs.Data.{Data};
ghost use Rattle.jr_script.specs.Scripts.{IsFault, IsJson, IsScript};
ghost use Rattle.jr_script.specs.declared.script.Script.{Script};
ghost use Rattle.jr_script.specs.declared.script.ScriptFault.TheVariants.{Bad};
ghost use Rattle.jr_gen.specs.Draws.{draw};
ghost use Rattle.jr_gen.specs.Scripts.{IsTurn, commands_data, script_text, sessions_data, turns_data};
ghost use Rattle.jr_gen.specs.Sizes.{IsOfSize};

use jr_script::scripts_are_unique;

/// A draw below a number is below it; there are as many sessions as are asked for, with 104 commands each; and each entry of
/// the schedule is a turn of one of them.
pub fn scripts_are_whole()
    ensures draws { (k n x : ℕ) → 0 < n → draw k n x < n }
    ensures sessions { (m seed : ℕ) → length (sessions_data m 0 m seed) ≡ m }
    ensures commands { (s m x : ℕ) → length (commands_data s m x) ≡ 104 }
    ensures schedule { (k m x : ℕ) → length (turns_data k m x) ≡ k }
    ensures turns { (k m x : ℕ) → 0 < m → All (IsTurn m) (turns_data k m x) }
{}

/// The text that is made for 1 to 64 sessions is that of a script, and breaks no rule of scripts; the script has as many
/// sessions as are asked for, with 104 commands each.
pub fn generated_scripts_are_read()
    ensures read { (seed m : ℕ) → 0 < m → m ≤ 64
        → (script : Script) × (d : Data) × IsJson (script_text seed m) d × IsScript d script }
    ensures unbroken { (seed m : ℕ) → 0 < m → m ≤ 64
        → (rule : ℕ) (pointer : List ℕ) (offset : Option ℕ)
        → IsFault (script_text seed m) (Bad rule pointer offset) → ⊥ }
    ensures sizes { (seed m : ℕ) → 0 < m → m ≤ 64 → (d : Data) (script : Script)
        → IsJson (script_text seed m) d → IsScript d script → IsOfSize m script }
{
    scripts_are_unique();
}
