// Laws of nodes with all that belongs to them.
ghost use Rattle.std.specs.Prelude.{◌≡◌, IfOk, IsFalse, IsTrue, List, Ok, Some, is_some};
ghost use Rattle.std.specs.FinMap.{is_sorted};
ghost use Rattle.jr_path.specs.Names.{is_under, name_cmp, parent_of};
ghost use Rattle.jr_path.specs.declared.path.Path.{Path};
ghost use Rattle.jr_tree.specs.Trees.{Nodes};
ghost use Rattle.jr_tree.specs.declared.shared.Who.{Who};
ghost use Rattle.jr_tree.specs.declared.tree.Node.{Node};
ghost use Rattle.jr_items.specs.Items.{property_of};
ghost use Rattle.jr_items.specs.Names.{uuid};
ghost use Rattle.jr_types.specs.declared.TypeDef.{TypeDef};
ghost use Rattle.jr_overlay.specs.Drafts.{drafted};
ghost use Rattle.jr_overlay.specs.Overlays.{View, whole_view};
ghost use Rattle.jr_overlay.specs.Views.{KeepTree};
ghost use Rattle.jcr_fill.specs.Kept.{IsAsBefore, IsPutWith};
ghost use Rattle.jcr_fill.specs.Makings.{Making, complete};

/// Where a node is put with all that belongs to it, what was made before is as it was at each place that is neither its
/// own nor below.
pub fn completing_stays_below()
    ensures { (types : List TypeDef) (who : Who) (view : View) (p : Path) (node : Node) (m : Making)
        (q : Path) → IsFalse (is_under q p)
        → IfOk (complete types who view p node m) (IsAsBefore q m) }
{}

/// A node that is put with all that belongs to it keeps its identifier. Where it has none, it has none afterwards or
/// the session's next one.
pub fn completing_keeps_identifiers()
    ensures { (types : List TypeDef) (who : Who) (view : View) (p : Path) (node : Node) (m : Making)
        → IfOk (complete types who view p node m) (IsPutWith who m.ids (property_of node uuid) p) }
{}

/// A node whose names are in order, put with all that belongs to it where the node above it is there, keeps a tree a
/// tree. It takes no node away.
pub fn completing_keeps_trees()
    ensures tree { (types : List TypeDef) (who : Who) (v : Nodes) (p : Path) (node : Node)
        (m new : Making) → KeepTree (whole_view v) m.steps → IsTrue (is_sorted name_cmp node.props)
        → ((q : Path) → parent_of p ≡ Some q → IsTrue (is_some (drafted (whole_view v) m.steps q)))
        → complete types who (whole_view v) p node m ≡ Ok new → KeepTree (whole_view v) new.steps }
    ensures nodes { (types : List TypeDef) (who : Who) (view : View) (p q : Path) (node : Node)
        (m new : Making) → complete types who view p node m ≡ Ok new
        → IsTrue (is_some (drafted view m.steps q)) → IsTrue (is_some (drafted view new.steps q)) }
{}
