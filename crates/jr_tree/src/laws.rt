// Laws of trees and edits.
ghost use Rattle.std.specs.Prelude.{◌≡◌, List, [], Option, None, IsTrue, is_some};
ghost use Rattle.std.specs.Option.{unwrap_or};
ghost use Rattle.std.specs.FinMap.{is_sorted};
ghost use Rattle.jr_path.specs.Names.{path_cmp};
ghost use Rattle.jr_path.specs.declared.name.Name.{Name};
ghost use Rattle.jr_path.specs.declared.path.Path.{Path};
ghost use Rattle.jr_rev.specs.declared.revision.Revision.{Revision};
ghost use Rattle.jr_tree.specs.declared.edit.Write.{Write};
ghost use Rattle.jr_tree.specs.Trees.{Nodes, IsTree, born_at, has_names_in_order, node_at, property_at, initial_tree, undated};
ghost use Rattle.jr_tree.specs.Edits.{applied, changes, IsProper};
ghost use Rattle.jr_tree.specs.Items.{born_after, has_after, property_after, written, put_of};

/// The initial tree is a tree.
pub fn initial_tree_is_a_tree()
    ensures { IsTree initial_tree }
{}

/// A proper edit of a tree gives a tree, whatever its revision.
pub fn proper_edits_give_trees()
    ensures { (born : Option Revision) (t : Nodes) (ws : List Write) → IsProper t ws → IsTree (applied born t ws) }
{}

/// After an edit a node is there as its last write says, and else as it was.
pub fn edits_move_nodes()
    ensures { (born : Option Revision) (t : Nodes) (ws : List Write) → IsTrue (is_sorted path_cmp t) → (p : Path) → is_some (node_at (applied born t ws) p) ≡ has_after t ws p }
{}

/// After an edit by a revision this added each node that is there and was written, and another the one that
/// added it before.
pub fn edits_date_nodes()
    ensures { (born : Option Revision) (t : Nodes) (ws : List Write) → IsTrue (is_sorted path_cmp t) → (p : Path) → born_at (applied born t ws) p ≡ born_after born t ws p }
{}

/// After an edit a property of a node that is there is as its last write says, and else as it was.
pub fn edits_write_properties()
    ensures { (born : Option Revision) (t : Nodes) (ws : List Write) → IsTrue (is_sorted path_cmp t) → IsTrue (has_names_in_order t) → (p : Path) (n : Name) → property_at (applied born t ws) p n ≡ property_after t ws p n }
{}

/// After an edit that is proper on a tree each property is as its last write says, and else as it was.
pub fn proper_edits_write_properties()
    ensures { (born : Option Revision) (t : Nodes) (ws : List Write) → IsTree t → IsProper t ws → (p : Path) (n : Name) → property_at (applied born t ws) p n ≡ unwrap_or (written (put_of p n) ws) (property_at t p n) }
{}

/// The changes from one tree to another, applied to the first, give the second, but for the revisions that
/// added the nodes; and applied without a revision they give it itself, where the nodes that it adds are
/// pending and the first tree's were added as in it.
pub fn changes_lead_there()
    ensures exact { (t u : Nodes) → IsTree t → IsTree u → ((p : Path) → born_at u p ≡ born_at t p) → applied None t (changes t u) ≡ u }
    ensures alike { (born : Option Revision) (t u : Nodes) → IsTree t → IsTree u → undated (applied born t (changes t u)) ≡ undated u }
{}

/// The changes from one tree to another are a proper edit of the first, and there are none from a tree to itself.
pub fn changes_are_proper()
    ensures proper { (t u : Nodes) → IsTree t → IsTree u → IsProper t (changes t u) }
    ensures none { (t : Nodes) → IsTree t → changes t t ≡ [] }
{}
