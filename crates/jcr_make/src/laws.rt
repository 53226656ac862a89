// Laws of what is made.
ghost use Rattle.std.specs.Prelude.{◌≡◌, IfOk, IsFalse, IsTrue, List, Ok, Option, is_some};
ghost use Rattle.std.specs.Option.{IfSome};
ghost use Rattle.jr_path.specs.Names.{is_under};
ghost use Rattle.jr_path.specs.declared.name.Name.{Name};
ghost use Rattle.jr_path.specs.declared.path.Path.{Path};
ghost use Rattle.jr_tree.specs.declared.shared.Who.{Who};
ghost use Rattle.jr_types.specs.declared.TypeDef.{TypeDef};
ghost use Rattle.jr_items.specs.Items.{same_name};
ghost use Rattle.jr_items.specs.Names.{version_storage, versionable};
ghost use Rattle.jr_overlay.specs.Drafts.{Steps, drafted};
ghost use Rattle.jr_overlay.specs.Overlays.{View, whole_view};
ghost use Rattle.jr_overlay.specs.Views.{KeepTree};
ghost use Rattle.jr_tree.specs.Trees.{IsTree, Nodes};
ghost use Rattle.jcr_trans.specs.declared.command.TreeNode.{TreeNode};
ghost use Rattle.jcr_write.specs.Places.{above};
ghost use Rattle.jcr_fill.specs.Kept.{IsAsBefore};
ghost use Rattle.jcr_fill.specs.Makings.{Making};
ghost use Rattle.jcr_make.specs.AlikeViews.{AreAlikeFrom};
ghost use Rattle.jcr_make.specs.Commands.{add_made};
ghost use Rattle.jcr_mixin.specs.Commands.{type_made, unmixin_made};
ghost use Rattle.jcr_mixin.specs.Histories.{due_history, mixin_made};
ghost use Rattle.jcr_make.specs.Subtrees.{makes_histories, tree_made};

/// Of two views with the same nodes at and below a path, and with the same node above it, `add` makes the same.
pub fn adding_reads_below_and_above()
    ensures { (types : List TypeDef) (who : Who) (u v : View) (p : Path) (named : Option Name)
        (m : Making) → AreAlikeFrom u v p → u.node (above p) ≡ v.node (above p)
        → add_made types who u p named m ≡ add_made types who v p named m }
{}

/// Of two views with the same nodes at and below a path `type` makes the same.
pub fn changing_types_reads_below()
    ensures { (types : List TypeDef) (who : Who) (u v : View) (p : Path) (n : Name) (m : Making)
        → AreAlikeFrom u v p → type_made types who u p n m ≡ type_made types who v p n m }
{}

/// Of two views with the same node at a path `unmixin` makes the same.
pub fn unmixing_reads_the_node()
    ensures { (types : List TypeDef) (u v : View) (p : Path) (n : Name) (steps : Steps)
        → u.node p ≡ v.node p → unmixin_made types u p n steps ≡ unmixin_made types v p n steps }
{}

/// Of two views with the same nodes at and below a path `mixin` makes the same, with `mix:versionable` where they also
/// have the same nodes at and below the history of the node there: by the identifier that the node has, or else by the
/// session's next one.
pub fn mixing_reads_below_and_its_history()
    ensures { (types : List TypeDef) (who : Who) (u v : View) (p : Path) (n : Name) (m : Making)
        → AreAlikeFrom u v p
        → (IsTrue (same_name versionable n)
        → IfSome (due_history who m.ids (drafted u m.steps p)) (AreAlikeFrom u v))
        → mixin_made types who u p n m ≡ mixin_made types who v p n m }
{}

/// Of two views with the same nodes at and below a path, and with the same node above it, `tree` makes the same, where a
/// node gets `mix:versionable` if they also have the same histories of versions.
pub fn trees_read_below_above_and_histories()
    ensures { (types : List TypeDef) (who : Who) (u v : View) (p : Path) (parts : List TreeNode)
        (m : Making) → AreAlikeFrom u v p → u.node (above p) ≡ v.node (above p)
        → (IsTrue (makes_histories parts) → AreAlikeFrom u v version_storage)
        → tree_made types who u p parts m ≡ tree_made types who v p parts m }
{}

/// `add` and `type` leave what was made before as it was at each place that is neither their own nor below.
pub fn makings_stay_below()
    ensures added { (types : List TypeDef) (who : Who) (view : View) (p : Path)
        (named : Option Name) (m : Making) (q : Path) → IsFalse (is_under q p)
        → IfOk (add_made types who view p named m) (IsAsBefore q m) }
    ensures retyped { (types : List TypeDef) (who : Who) (view : View) (p : Path) (n : Name)
        (m : Making) (q : Path) → IsFalse (is_under q p)
        → IfOk (type_made types who view p n m) (IsAsBefore q m) }
{}

/// `mixin` leaves what was made before as it was at each place that is neither its own nor below, and that with
/// `mix:versionable` is neither the history of the node there nor below: by the identifier that the node has, or else
/// by the session's next one.
pub fn mixing_stays_below_and_in_its_history()
    ensures { (types : List TypeDef) (who : Who) (view : View) (p : Path) (n : Name) (m : Making)
        (q : Path) → IsFalse (is_under q p)
        → (IsTrue (same_name versionable n)
        → IfSome (due_history who m.ids (drafted view m.steps p)) (λ h. IsFalse (is_under q h)))
        → IfOk (mixin_made types who view p n m) (IsAsBefore q m) }
{}

/// `tree` leaves what was made before as it was at each place that is neither its own nor below, and that, where a node
/// gets `mix:versionable`, isn't in the version storage.
pub fn trees_stay_below_and_in_histories()
    ensures { (types : List TypeDef) (who : Who) (view : View) (p : Path) (parts : List TreeNode)
        (m : Making) (q : Path) → IsFalse (is_under q p)
        → (IsTrue (makes_histories parts) → IsFalse (is_under q version_storage))
        → IfOk (tree_made types who view p parts m) (IsAsBefore q m) }
{}

/// Where a command isn't refused, what it makes keeps a tree a tree: on a view with steps that keep it. For the histories
/// that `tree` and `mixin` begin the version storage must be there.
pub fn makings_keep_trees()
    ensures add { (types : List TypeDef) (who : Who) (v : Nodes) (p : Path) (named : Option Name)
        (m new : Making) → IsTree v → KeepTree (whole_view v) m.steps
        → add_made types who (whole_view v) p named m ≡ Ok new → KeepTree (whole_view v) new.steps }
    ensures tree { (types : List TypeDef) (who : Who) (v : Nodes) (p : Path) (parts : List TreeNode)
        (m new : Making) → IsTree v → KeepTree (whole_view v) m.steps
        → IsTrue (is_some (drafted (whole_view v) m.steps version_storage))
        → tree_made types who (whole_view v) p parts m ≡ Ok new
        → KeepTree (whole_view v) new.steps }
    ensures mixin { (types : List TypeDef) (who : Who) (v : Nodes) (p : Path) (n : Name)
        (m new : Making) → IsTree v → KeepTree (whole_view v) m.steps
        → IsTrue (is_some (drafted (whole_view v) m.steps version_storage))
        → mixin_made types who (whole_view v) p n m ≡ Ok new → KeepTree (whole_view v) new.steps }
    ensures unmixin { (types : List TypeDef) (v : Nodes) (p : Path) (n : Name) (steps new : Steps)
        → IsTree v → KeepTree (whole_view v) steps
        → unmixin_made types (whole_view v) p n steps ≡ Ok new → KeepTree (whole_view v) new }
    ensures retyped { (types : List TypeDef) (who : Who) (v : Nodes) (p : Path) (n : Name)
        (m new : Making) → IsTree v → KeepTree (whole_view v) m.steps
        → type_made types who (whole_view v) p n m ≡ Ok new → KeepTree (whole_view v) new.steps }
{}

/// What is made takes no node away: each node that was there is there.
pub fn makings_keep_nodes()
    ensures add { (types : List TypeDef) (who : Who) (view : View) (p q : Path)
        (named : Option Name) (m new : Making) → add_made types who view p named m ≡ Ok new
        → IsTrue (is_some (drafted view m.steps q)) → IsTrue (is_some (drafted view new.steps q)) }
    ensures tree { (types : List TypeDef) (who : Who) (view : View) (p q : Path)
        (parts : List TreeNode) (m new : Making) → tree_made types who view p parts m ≡ Ok new
        → IsTrue (is_some (drafted view m.steps q)) → IsTrue (is_some (drafted view new.steps q)) }
    ensures mixin { (types : List TypeDef) (who : Who) (view : View) (p q : Path) (n : Name)
        (m new : Making) → mixin_made types who view p n m ≡ Ok new
        → IsTrue (is_some (drafted view m.steps q)) → IsTrue (is_some (drafted view new.steps q)) }
    ensures unmixin { (types : List TypeDef) (view : View) (p q : Path) (n : Name)
        (steps new : Steps) → unmixin_made types view p n steps ≡ Ok new
        → IsTrue (is_some (drafted view steps q)) → IsTrue (is_some (drafted view new q)) }
    ensures retyped { (types : List TypeDef) (who : Who) (view : View) (p q : Path) (n : Name)
        (m new : Making) → type_made types who view p n m ≡ Ok new
        → IsTrue (is_some (drafted view m.steps q)) → IsTrue (is_some (drafted view new.steps q)) }
{}
