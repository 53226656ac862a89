// Laws of the commands that make nothing of themselves.
ghost use Rattle.std.specs.Prelude.{◌≡◌, [], List, Ok, Option};
ghost use Rattle.jr_path.specs.declared.name.Name.{Name};
ghost use Rattle.jr_path.specs.declared.path.Path.{Path};
ghost use Rattle.jr_value.specs.declared.value.Property.{Property};
ghost use Rattle.jr_types.specs.declared.TypeDef.{TypeDef};
ghost use Rattle.jr_overlay.specs.Drafts.{Steps};
ghost use Rattle.jr_overlay.specs.Overlays.{View, whole_view};
ghost use Rattle.jr_overlay.specs.Views.{KeepTree};
ghost use Rattle.jr_tree.specs.Trees.{IsTree, Nodes};
ghost use Rattle.jcr_write.specs.Places.{above};
ghost use Rattle.jcr_write.specs.Writes.{move_made, order_made, remove_made, set_made, unset_made};

/// Where a command isn't refused, its steps keep a tree a tree: on a view with steps that keep it, or on the view alone.
pub fn writes_keep_trees()
    ensures set { (types : List TypeDef) (v : Nodes) (steps new : Steps) (p : Path) (n : Name)
        (x : Property) → IsTree v → KeepTree (whole_view v) steps
        → set_made types (whole_view v) steps p n x ≡ Ok new → KeepTree (whole_view v) new }
    ensures unset { (types : List TypeDef) (v : Nodes) (steps new : Steps) (p : Path) (n : Name)
        → IsTree v → KeepTree (whole_view v) steps
        → unset_made types (whole_view v) steps p n ≡ Ok new → KeepTree (whole_view v) new }
    ensures order { (types : List TypeDef) (v : Nodes) (steps new : Steps) (p : Path)
        (before : Option Name) → IsTree v → KeepTree (whole_view v) steps
        → order_made types (whole_view v) steps p before ≡ Ok new → KeepTree (whole_view v) new }
    ensures remove { (types : List TypeDef) (v : Nodes) (new : Steps) (p : Path) → IsTree v
        → remove_made types (whole_view v) [] p ≡ Ok new → KeepTree (whole_view v) new }
    ensures moved { (v : Nodes) (new : Steps) (p q : Path) → IsTree v
        → move_made (whole_view v) [] p q ≡ Ok new → KeepTree (whole_view v) new }
{}

/// Setting and unsetting a property reads the node alone: two views that are alike there give the same.
pub fn properties_read_their_node()
    ensures set { (types : List TypeDef) (u w : View) (steps : Steps) (p : Path) (n : Name)
        (x : Property) → u.node p ≡ w.node p
        → set_made types u steps p n x ≡ set_made types w steps p n x }
    ensures unset { (types : List TypeDef) (u w : View) (steps : Steps) (p : Path) (n : Name)
        → u.node p ≡ w.node p → unset_made types u steps p n ≡ unset_made types w steps p n }
{}

/// Removing a node reads it, the node above it, and what is below it.
pub fn removals_read_subtrees()
    ensures { (types : List TypeDef) (u w : View) (steps : Steps) (p : Path)
        → u.node p ≡ w.node p → u.node (above p) ≡ w.node (above p) → u.below p ≡ w.below p
        → remove_made types u steps p ≡ remove_made types w steps p }
{}

/// Moving a node reads it and what is below it, and of the other path the node there and the one above.
pub fn moves_read_both_ends()
    ensures { (u w : View) (steps : Steps) (p q : Path) → u.node p ≡ w.node p
        → u.node (above q) ≡ w.node (above q) → u.node q ≡ w.node q → u.below p ≡ w.below p
        → move_made u steps p q ≡ move_made w steps p q }
{}

/// Changing the order of children reads the node, the one above it, and the children of that one.
pub fn orders_read_the_parent()
    ensures { (types : List TypeDef) (u w : View) (steps : Steps) (p : Path) (before : Option Name)
        → u.node p ≡ w.node p → u.node (above p) ≡ w.node (above p)
        → u.children (above p) ≡ w.children (above p)
        → order_made types u steps p before ≡ order_made types w steps p before }
{}
