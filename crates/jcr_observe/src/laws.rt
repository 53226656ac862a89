// Laws of the changes that events tell.
ghost use Rattle.std.specs.Prelude.{List, Option};
ghost use Rattle.jr_rev.specs.declared.revision.Revision.{Revision};
ghost use Rattle.jr_tree.specs.declared.edit.Write.{Write};
ghost use Rattle.jr_tree.specs.Trees.{Nodes, IsTree};
ghost use Rattle.jr_tree.specs.Edits.{applied, IsProper};
ghost use Rattle.oak_machine.specs.Changed.{item_changes};
ghost use Rattle.jcr_observe.specs.Differences.{AreDifferences};

/// The item changes of a proper edit are the differences of the trees before and after it.
pub fn changes_are_differences()
    ensures { (born : Option Revision) (t : Nodes) (ws : List Write) → IsTree t → IsProper t ws
        → AreDifferences t (applied born t ws) (item_changes t ws) }
{}
