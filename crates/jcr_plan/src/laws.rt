// Laws of plans.
ghost use Rattle.std.specs.Prelude.{◌≡◌, ℕ, List, None, IsFalse, IsTrue, false, true};
ghost use Rattle.std.specs.List.{list_any};
ghost use Rattle.std.specs.FinMap.{is_sorted};
ghost use Rattle.jr_path.specs.Names.{path_cmp};
ghost use Rattle.jr_tree.specs.declared.edit.Edit.{Edit};
ghost use Rattle.jr_tree.specs.declared.edit.Write.{Write};
ghost use Rattle.jr_tree.specs.Edits.{IsProper, applied};
ghost use Rattle.jr_tree.specs.Trees.{IsTree, Nodes};
ghost use Rattle.jr_types.specs.declared.TypeDef.{TypeDef};
ghost use Rattle.jr_types.specs.Rules.{TypesOk};
ghost use Rattle.oak_clash.specs.declared.mark.MarkAt.{MarkAt};
ghost use Rattle.oak_machine.specs.Laws.{AreOfWrites};
ghost use Rattle.jcr_ref.specs.References.{ReferencesOk, dangling};
ghost use Rattle.jcr_marks.specs.Marks.{marks_of};
ghost use Rattle.jcr_plan.specs.declared.causes.Assured.{Assured};
ghost use Rattle.jcr_plan.specs.Checked.{IsAsAssured, may_dangle, refusal_by};
ghost use Rattle.jcr_plan.specs.Plans.{PlanOk};
ghost use Rattle.jcr_plan.specs.Refusals.{plan_refusal};

/// A proper edit that isn't refused is a plan, with its marks.
pub fn what_is_not_refused_is_a_plan()
    ensures { (types : List TypeDef) (t : Nodes) (tokens : List (List ℕ)) (ws : List Write)
        → IsProper t ws → plan_refusal types t tokens ws ≡ None
        → PlanOk types t tokens ws (marks_of t ws) }
{}

/// On a tree that meets the rules of its types it is enough to check the nodes that an edit touches: both calls answer alike.
pub fn what_is_not_touched_keeps_the_rules()
    ensures { (types : List TypeDef) (t : Nodes) (tokens : List (List ℕ)) (ws : List Write)
        → IsTrue (is_sorted path_cmp t) → TypesOk types t
        → refusal_by (record { typed = true; referring = false }) types t tokens ws
        ≡ plan_refusal types t tokens ws }
{}

/// Where each REFERENCE of a tree names a node, each does after an edit that removes no node with an identifier and writes no
/// identifier, no REFERENCE and no primary type of an `nt:frozenNode`.
pub fn what_no_write_changes_dangles_not()
    ensures { (t : Nodes) (ws : List Write) → IsTree t → ReferencesOk t
        → IsFalse (list_any (may_dangle t (applied None t ws)) ws)
        → dangling (applied None t ws) ≡ None }
{}

/// On a tree that is as the caller is assured both calls answer alike.
pub fn what_is_assured_is_not_checked()
    ensures { (assured : Assured) (types : List TypeDef) (t : Nodes) (tokens : List (List ℕ))
        (ws : List Write) → IsTree t → IsAsAssured assured types t
        → refusal_by assured types t tokens ws ≡ plan_refusal types t tokens ws }
{}

/// A plan is a proper edit, and the Exists and Props among its marks are those of its writes.
pub fn plans_are_proper()
    ensures { (types : List TypeDef) (t : Nodes) (tokens : List (List ℕ)) (edit : Edit)
        (marks : List MarkAt) → PlanOk types t tokens edit.writes marks
        → IsProper t edit.writes × AreOfWrites t edit marks }
{}
