// Each commit of the product obeys.
ghost use Rattle.std.specs.Prelude.{◌≡◌, ◌≢◌, ℕ, List, None, Some};
ghost use Rattle.jr_path.specs.declared.path.Item.{Item};
ghost use Rattle.jr_rev.specs.declared.revision.Revision.{Revision};
ghost use Rattle.jr_rev.specs.declared.vector.RevVec.{RevVec};
ghost use Rattle.jr_tree.specs.Trees.{IsTree};
ghost use Rattle.jr_items.specs.Refusals.{clash_refusal};
ghost use Rattle.jr_types.specs.Rules.{TypesOk};
ghost use Rattle.jcr_trans.specs.declared.command.Command.{Command};
ghost use Rattle.jcr_law.specs.declared.law.JcrLaw.{JcrLaw};
ghost use Rattle.jcr_law.specs.Lasting.{says_of, starts_of};
ghost use Rattle.jcr_law.specs.Law.{SaysBy, no_text};
ghost use Rattle.jcr_law.specs.Since.{draw_since};
ghost use Rattle.jcr_law.specs.State.{command_at};
ghost use Rattle.jcr_plan.specs.Plans.{IsFree};
ghost use Rattle.jcr_ref.specs.References.{ReferencesOk};
ghost use Rattle.oak_machine.specs.declared.event.Draw.{Draw};
ghost use Rattle.oak_machine.specs.Commits.{draw_of, refusal_of, tree_at};
ghost use Rattle.oak_machine.specs.History.{Begin, History, begin_tree};
ghost use Rattle.oak_machine.specs.Runs.{AreNodes, MayCommit};
ghost use Rattle.oak_machine.specs.Sessions.{base_of, next_index};
ghost use Rattle.core_heads.specs.Sound.{IsNodesRun};
ghost use Rattle.core_calls.specs.Seeing.{SeesTrees, SeesTyped};
ghost use Rattle.core_merge.specs.Orders.{tree_by_commits};
ghost use Rattle.core_obeys.specs.Answering.{NameOthers};
ghost use Rattle.core_obeys.specs.Obeying.{ObeysThroughout};
ghost use Rattle.core_obeys.specs.Plans.{tokens_at_draw};
ghost use Rattle.core_clash.specs.Unclashing.{IsUnclashing};
ghost use Rattle.core_obeys.specs.Product.{IsProductRun, tokens_by};
ghost use Rattle.core_obeys.specs.Tidy.{IsTidy};

/// In each run by the law of the product, from whatever it begins with, the tree of all commits, in
/// the order in which they were made, is a tree and meets the rules of node types (JSR 283, 3.7
/// Node Types), where what it begins with meets them, and so does what a session sees at its base,
/// which is a tree whether or not what it begins with meets them; no commit changes what is locked
/// against the tokens that its session held when it was drawn, or what a checked-in node covers (17
/// Locking, 15 Versioning); and where identifiers stand once, and each REFERENCE of what it begins
/// with names a node, each REFERENCE names a node (3.8 Referential Integrity).
pub fn the_product_obeys()
    ensures trees { (law : JcrLaw) (h : History) → IsProductRun law h
        → IsTree (tree_by_commits h.begin h.past) }
    ensures types { (law : JcrLaw) (h : History) → IsProductRun law h
        → TypesOk law.types (tree_by_commits h.begin h.past) }
    ensures bases { (law : JcrLaw) (h : History) (s : ℕ) (v : RevVec) → IsProductRun law h
        → base_of h.past s ≡ Some v → TypesOk law.types (tree_at h.begin h.past v) }
    ensures bases_are_trees { (begin : Begin) (law : JcrLaw) (clusters : ℕ) (sessions : List ℕ)
        → AreNodes clusters sessions → SeesTrees law clusters sessions begin }
    ensures bases_are_typed { (begin : Begin) (law : JcrLaw) (clusters : ℕ) (sessions : List ℕ)
        → AreNodes clusters sessions → TypesOk law.types (begin_tree begin)
        → SeesTyped law clusters sessions begin }
    ensures free { (law : JcrLaw) (h : History) (r : Revision) (d : Draw) → IsProductRun law h
        → draw_of h.past r ≡ Some d → MayCommit h.past r
        → IsFree law.types (tree_by_commits h.begin h.past)
        (tokens_at_draw (tokens_by law) h r d.session) d.edit.writes }
    ensures references { (law : JcrLaw) (h : History) → IsProductRun law h → IsTidy h.begin h.past
        → ReferencesOk (tree_by_commits h.begin h.past) }
{}

/// In each run by the law of the product all this holds at each time, as each run was a run at each
/// time before.
pub fn the_product_obeys_throughout()
    ensures { (law : JcrLaw) (h : History) → IsProductRun law h → ObeysThroughout law h }
{
    the_product_obeys();
}

/// Where a commit of a run clashes with no other draw outside its base, it isn't refused, and the
/// next reply of its session is no 10 (JSR 283, 10.11 Saving). The machine by itself lets a refusal
/// name the commit that it refuses; in a run in which each names another that isn't so.
pub fn what_clashes_with_nothing_is_not_refused()
    ensures refusal { (law : JcrLaw) (h : History) (r : Revision)
        → IsNodesRun (starts_of law) (says_of law) h → NameOthers h.past → IsUnclashing h.past r
        → refusal_of h.past r ≡ None }
    ensures reply { (law : JcrLaw) (h : History) (s : ℕ) (m : Command) (d : Draw) (text : List ℕ)
        (item : Item) (o : Revision) → IsNodesRun (starts_of law) (says_of law) h
        → NameOthers h.past → draw_since h.past s ≡ Some d
        → command_at law s (next_index h.past s) ≡ Some m → IsUnclashing h.past d.revision
        → SaysBy law h s (next_index h.past s) text → text ≢ no_text (clash_refusal item o) }
{}
