// Laws of scripts.
ghost use Rattle.std.specs.Prelude.{◌≡◌, Result};
ghost use Rattle.serde_json.specs.Data.{Data};
ghost use Rattle.jr_args.specs.Outcomes.{Outcome};
ghost use Rattle.jr_script.specs.Bounds.{IsWithin};
ghost use Rattle.jr_script.specs.Scripts.{IsScript, script_of};
ghost use Rattle.jr_script.specs.declared.script.Script.{Script};
ghost use Rattle.jr_script.specs.declared.script.TextFault.{TextFault};

use cnd_print::meanings_can_be_printed;
use jr_cnd::one_meaning;
use jr_rules::the_initial_tree_meets_the_built_in_types;
use jr_types::added_types_keep_the_rules;

/// JSON has one outcome at most: it means one script, or its first fault is one rule broken at one place, or the text of its
/// types fails at one offset.
pub fn scripts_are_unique()
    ensures { (d : Data) (o p : Outcome (Result Script TextFault))
        → script_of d o → script_of d p → o ≡ p }
{
    one_meaning();
}

/// What JSON means keeps the bounds: its types begin with the built-in ones, and the initial tree meets them; its sessions
/// are at its cluster nodes, and the entries of its schedule are for its sessions.
pub fn scripts_are_within()
    ensures { (d : Data) (script : Script) → IsScript d script → IsWithin script }
{
    the_initial_tree_meets_the_built_in_types();
    added_types_keep_the_rules();
    meanings_can_be_printed();
}
