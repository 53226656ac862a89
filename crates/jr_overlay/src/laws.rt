// Laws of views.
ghost use Rattle.std.specs.Prelude.{◌≡◌, ◌≢◌, ◌||◌, [], Option, None, Some, is_some};
ghost use Rattle.std.specs.Prelude.{IsFalse, IsTrue};
ghost use Rattle.std.specs.FinMap.{is_sorted};
ghost use Rattle.jr_path.specs.Names.{is_under, name_cmp, parent_of, path_cmp};
ghost use Rattle.jr_path.specs.declared.path.Path.{Path};
ghost use Rattle.jr_tree.specs.declared.tree.Node.{Node};
ghost use Rattle.jr_tree.specs.Trees.{IsTree, Nodes, dated_children_of, node_at, subtree_of};
ghost use Rattle.jr_tree.specs.Edits.{IsProper, changes};
ghost use Rattle.jr_part.specs.declared.need.Need.TheVariants as need;
ghost use Rattle.jr_part.specs.Parts.{AgreesWith, Knowledge, LacksNothing, list_at};
ghost use Rattle.jr_overlay.specs.Overlays.{AreOver, Changed, base_at, edit_of};
ghost use Rattle.jr_overlay.specs.Overlays.{known_view, seen, view_of, whole_view};
ghost use Rattle.jr_overlay.specs.Drafts.{Steps, drafted, stepped, with_step, with_steps};
ghost use Rattle.jr_overlay.specs.Views.{AreAt, KeepTree, all_gone, all_moved, is_known, step_at};

/// The view has at each path what was changed there, or else what the tree has, and its paths are
/// in order.
pub fn views_show_changes()
    ensures nodes { (t : Nodes) (c : Changed) → IsTrue (is_sorted path_cmp t)
        → IsTrue (is_sorted path_cmp c) → (p : Path) → node_at (view_of t c) p ≡ seen t c p }
    ensures order { (t : Nodes) (c : Changed) → IsTrue (is_sorted path_cmp t)
        → IsTrue (is_sorted path_cmp (view_of t c)) }
{}

/// Where nothing is touched the view is the tree, and there is nothing to write.
pub fn views_begin()
    ensures over { (t : Nodes) → AreOver t [] }
    ensures view { (t : Nodes) → view_of t [] ≡ t }
    ensures edit { edit_of [] ≡ [] }
{}

/// Where what stands at a path is known, or nothing lacks of a subtree that it is in, the base
/// there is what the tree has.
pub fn known_bases_agree()
    ensures node { (t : Nodes) (k : Knowledge) (c : Changed) (p : Path) → AgreesWith t k
        → AreOver t c → IsTrue (is_known k c p) → base_at k.nodes c p ≡ node_at t p }
    ensures below { (t : Nodes) (k : Knowledge) (c : Changed) (p q : Path) → IsTree t
        → IsTrue (is_sorted path_cmp k.nodes) → AgreesWith t k → AreOver t c
        → LacksNothing k (need.Subtree p) → IsTrue (is_under q p)
        → base_at k.nodes c q ≡ node_at t q }
{}

/// Steps that count make of the view what they make of a tree, where the base is known at each of
/// them. So the view stays a tree where they keep one.
pub fn commits_step_views()
    ensures over { (t : Nodes) (known : Nodes) (c : Changed) (steps : Steps) → AreOver t c
        → AreAt (λ p. base_at known c p ≡ node_at t p) steps
        → AreOver t (with_steps known c steps) }
    ensures view { (t : Nodes) (known : Nodes) (c : Changed) (steps : Steps)
        → IsTrue (is_sorted path_cmp t) → AreOver t c
        → AreAt (λ p. base_at known c p ≡ node_at t p) steps
        → view_of t (with_steps known c steps) ≡ stepped t (view_of t c) steps }
    ensures tree { (t : Nodes) (known : Nodes) (c : Changed) (steps : Steps)
        → IsTrue (is_sorted path_cmp t) → AreOver t c
        → AreAt (λ p. base_at known c p ≡ node_at t p) steps
        → IsTree (view_of t c) → KeepTree (whole_view (view_of t c)) steps
        → IsTree (view_of t (with_steps known c steps)) }
    ensures known { (k : Knowledge) (c : Changed) (steps : Steps) (p : Path)
        → IsTrue (is_known k c p || is_some (step_at steps p))
        → IsTrue (is_known k (with_steps k.nodes c steps) p) }
{}

/// What is read of a view of which so much is known is what is read of the whole view: a node where
/// it is known, the children of a node whose list is known or that the tree lacks, and a subtree of
/// which nothing lacks.
pub fn known_views_agree()
    ensures node { (t : Nodes) (k : Knowledge) (c : Changed) (p : Path) → IsTree t
        → AgreesWith t k → AreOver t c → IsTrue (is_known k c p)
        → (known_view k c).node p ≡ (whole_view (view_of t c)).node p }
    ensures children { (t : Nodes) (k : Knowledge) (c : Changed) (p : Path) → IsTree t
        → AgreesWith t k
        → (IsTrue (is_some (node_at t p)) → IsTrue (is_some (list_at k p)))
        → (known_view k c).children p ≡ (whole_view (view_of t c)).children p }
    ensures below { (t : Nodes) (k : Knowledge) (c : Changed) (p : Path) → IsTree t
        → IsTrue (is_sorted path_cmp k.nodes) → AgreesWith t k → AreOver t c
        → LacksNothing k (need.Subtree p)
        → (known_view k c).below p ≡ (whole_view (view_of t c)).below p }
    ensures nodes_below { (t : Nodes) (k : Knowledge) (c : Changed) (p q : Path) → IsTree t
        → IsTrue (is_sorted path_cmp k.nodes) → AgreesWith t k → AreOver t c
        → LacksNothing k (need.Subtree p) → IsTrue (is_under q p)
        → (known_view k c).node q ≡ (whole_view (view_of t c)).node q }
{}

/// The edit of the changes holds the changes from the tree to the view, and is proper.
pub fn edits_are_the_changes()
    ensures exact { (t : Nodes) (c : Changed) → IsTree t → AreOver t c → IsTree (view_of t c)
        → edit_of c ≡ changes t (view_of t c) }
    ensures proper { (t : Nodes) (c : Changed) → IsTree t → AreOver t c → IsTree (view_of t c)
        → IsProper t (edit_of c) }
{}

/// A tree with steps made that keep it is a tree.
pub fn steps_keep_trees()
    ensures { (t v : Nodes) (steps : Steps) → IsTree v → KeepTree (whole_view v) steps
        → IsTree (stepped t v steps) }
{}

/// No steps keep a tree, and so do steps that keep it with one node more, whose names are in order
/// and whose parent is there. After steps that keep a tree the names of each node are in order and
/// each node's parent is there.
pub fn puts_keep_trees()
    ensures none { (v : Nodes) → IsTree v → KeepTree (whole_view v) [] }
    ensures put { (v : Nodes) (steps : Steps) (p : Path) (node : Node)
        → KeepTree (whole_view v) steps → IsTrue (is_sorted name_cmp node.props)
        → ((q : Path) → parent_of p ≡ Some q → IsTrue (is_some (drafted (whole_view v) steps q)))
        → KeepTree (whole_view v) (with_step steps p (Some node)) }
    ensures names { (v : Nodes) (steps : Steps) (p : Path) (node : Node) → IsTree v
        → KeepTree (whole_view v) steps → drafted (whole_view v) steps p ≡ Some node
        → IsTrue (is_sorted name_cmp node.props) }
    ensures parents { (v : Nodes) (steps : Steps) (p q : Path) → IsTree v
        → KeepTree (whole_view v) steps → IsTrue (is_some (drafted (whole_view v) steps p))
        → parent_of p ≡ Some q → IsTrue (is_some (drafted (whole_view v) steps q)) }
{}

/// A tree stays one where a node other than the root goes with all nodes below it.
pub fn removals_keep_trees()
    ensures { (v : Nodes) (p : Path) → IsTree v → p ≢ []
        → KeepTree (whole_view v) (all_gone [] (subtree_of v p)) }
{}

/// A tree stays one where a node moves, with all nodes below it, to a free place that has a parent
/// and isn't below the node itself.
pub fn moves_keep_trees()
    ensures { (v : Nodes) (p q above : Path) → IsTree v → IsTrue (is_some (node_at v p))
        → node_at v q ≡ None → parent_of q ≡ Some above → IsTrue (is_some (node_at v above))
        → IsFalse (is_under q p)
        → KeepTree (whole_view v) (all_moved p q [] (subtree_of v p)) }
{}
