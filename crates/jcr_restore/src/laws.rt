// The laws of restores.
ghost use Rattle.std.specs.Prelude.{◌≡◌, ◌≢◌, List, [], Option};
ghost use Rattle.jr_path.specs.declared.name.Name.{Name};
ghost use Rattle.jr_path.specs.declared.path.Path.{Path};
ghost use Rattle.jr_rev.specs.declared.revision.Revision.{Revision};
ghost use Rattle.jr_tree.specs.declared.edit.Write.{Write};
ghost use Rattle.jr_tree.specs.declared.shared.Who.{Who};
ghost use Rattle.jr_tree.specs.Edits.{applied};
ghost use Rattle.jr_tree.specs.Trees.{Nodes};
ghost use Rattle.jr_types.specs.declared.TypeDef.{TypeDef};
ghost use Rattle.jcr_restore.specs.BroughtBack.{CanComeBack, IsBack, left_out};
ghost use Rattle.jcr_restore.specs.CheckedIn.{IsCheckIn, IsUntouchedSince, made_version};
ghost use Rattle.jcr_restore.specs.Edits.{frozen_of};

/// After a check-in, and whatever changes of what the version keeps, a restore of that version brings
/// back the node, its properties and the nodes below it as they were (JSR 283, 15.7 Restore).
pub fn restores_bring_nodes_back()
    ensures { (types : List TypeDef) (old new : Nodes) (p v : Path) → CanComeBack types old new p (frozen_of v) → IsBack types old new p v }
{}

/// After a check-in, and changes that leave alone the frozen nodes of its version and what a version leaves
/// out, a restore of that version brings back the node, its properties and the nodes below it as they were
/// before the check-in (JSR 283, 15.7 Restore).
pub fn restores_undo_changes_since_a_check_in()
    ensures { (types : List TypeDef) (born : Option Revision) (old new : Nodes) (p : Path) (who : Who) (ws : List Write) → IsCheckIn types old p who ws → IsUntouchedSince types old (applied born old ws) new p (made_version old p) → IsBack types old new p (made_version old p) }
{}

/// A check-in of a node other than the root leaves what a version of the node leaves out as it was (JSR 283,
/// 15.2 Check-In).
pub fn check_ins_leave_what_versions_leave_out()
    ensures { (types : List TypeDef) (born : Option Revision) (old : Nodes) (p : Path) (who : Who) (ws : List Write) → IsCheckIn types old p who ws → p ≢ [] → (ns : List Name) → left_out types (applied born old ws) p ns ≡ left_out types old p ns }
{}
