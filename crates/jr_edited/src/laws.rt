// Laws of edited trees.
ghost use Rattle.std.specs.Prelude.{◌≡◌, List, None, IsTrue};
ghost use Rattle.std.specs.FinMap.{is_sorted};
ghost use Rattle.jr_path.specs.Names.{path_cmp};
ghost use Rattle.jr_tree.specs.declared.edit.Write.{Write};
ghost use Rattle.jr_tree.specs.Edits.{applied};
ghost use Rattle.jr_tree.specs.Trees.{Nodes};
ghost use Rattle.jr_overlay.specs.Overlays.{view_of};
ghost use Rattle.jr_edited.specs.Edited.{changed_nodes};

/// What an edit makes of the nodes that it writes, in their places, is what it makes of the tree.
pub fn edits_make_views()
    ensures { (t : Nodes) (ws : List Write) → IsTrue (is_sorted path_cmp t)
        → view_of t (changed_nodes t ws) ≡ applied None t ws }
{}
