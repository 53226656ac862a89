// Laws of parts of trees.
ghost use Rattle.std.specs.Prelude.{◌≡◌, IsTrue, Some};
ghost use Rattle.std.specs.FinMap.{is_sorted};
ghost use Rattle.jr_path.specs.Names.{name_cmp, path_cmp};
ghost use Rattle.jr_path.specs.declared.path.Path.{Path};
ghost use Rattle.jr_tree.specs.Trees.{IsTree, Nodes, dated_children_of, node_at, subtree_of};
ghost use Rattle.jr_part.specs.declared.need.Need.TheVariants as need;
ghost use Rattle.jr_part.specs.Parts.{AgreesWith, Knowledge, LacksNothing, nothing_known, with_children, with_node};

/// A part of which nothing is known agrees with each tree, and a part that agrees with a tree still
/// does so once what the tree answers is put.
pub fn puts_agree()
    ensures nothing { (t : Nodes) → AgreesWith t nothing_known }
    ensures node { (t : Nodes) (k : Knowledge) (p : Path) → AgreesWith t k
        → AgreesWith t (with_node k p (node_at t p)) }
    ensures children { (t : Nodes) (k : Knowledge) (p : Path) → AgreesWith t k
        → AgreesWith t (with_children k p (dated_children_of t p)) }
{}

/// The names of the children of a node of a tree rise.
pub fn children_rise()
    ensures { (t : Nodes) (p : Path) → IsTree t
        → IsTrue (is_sorted name_cmp (dated_children_of t p)) }
{}

/// Where nothing of a subtree lacks, each tree that the part agrees with has the same nodes there as
/// the part.
pub fn subtrees_are_whole()
    ensures { (t : Nodes) (k : Knowledge) (p : Path) → IsTree t
        → IsTrue (is_sorted path_cmp k.nodes) → AgreesWith t k → LacksNothing k (need.Subtree p)
        → subtree_of k.nodes p ≡ subtree_of t p }
{}
