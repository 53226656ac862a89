//! Each commit obeys: in each run by a law that lets only plans start, the tree of all commits, in
//! the order in which they were made, meets the rules of node types; no commit changes what is
//! locked against its session or covered by a checked-in node; and references hold. Each edit is
//! checked on the tree of its own base alone.
#![tactic(auto)]

ghost use Rattle.std.specs.Prelude.{◌≡◌, ℕ, List, Some};
ghost use Rattle.jr_rev.specs.declared.revision.Revision.{Revision};
ghost use Rattle.jr_rev.specs.declared.vector.RevVec.{RevVec};
ghost use Rattle.jr_types.specs.declared.TypeDef.{TypeDef};
ghost use Rattle.jr_types.specs.Rules.{TypesOk};
ghost use Rattle.jcr_plan.specs.Plans.{IsFree, PlanOk};
ghost use Rattle.jr_tree.specs.declared.edit.Edit.{Edit};
ghost use Rattle.jr_tree.specs.Trees.{Nodes};
ghost use Rattle.oak_clash.specs.declared.mark.MarkAt.{MarkAt};
ghost use Rattle.jcr_ref.specs.References.{ReferencesOk};
ghost use Rattle.oak_machine.specs.declared.event.Draw.{Draw};
ghost use Rattle.oak_machine.specs.Commits.{draw_of, tree_at, IsClosed};
ghost use Rattle.oak_machine.specs.History.{History};
ghost use Rattle.oak_machine.specs.Runs.{MayCommit};
ghost use Rattle.oak_machine.specs.Sessions.{base_of};
ghost use Rattle.core_merge.specs.Independent.{MarkParents};
ghost use Rattle.core_merge.specs.Orders.{tree_by_commits};
ghost use Rattle.core_obeys.specs.Plans.{IsObeyingRun, Tokens, tokens_at_draw};
ghost use Rattle.core_obeys.specs.Tidy.{IsTidy};

mod answers;
mod product;

pub use answers::the_product_answers_throughout;
use oak_machine::Law;
pub use product::{
    the_product_obeys, the_product_obeys_throughout, what_clashes_with_nothing_is_not_refused,
};

/// After each commit the tree of all commits meets the rules of node types, at each node and item
/// (JSR 283, 3.7 Node Types). What a closed vector sees meets them too, and with it what a session
/// sees at its base.
pub fn commits_obey_types<L: Law>(law: &L)
    ensures order { (types : List TypeDef) (tokens : Tokens) (h : History)
        → IsObeyingRun types tokens (L.may_start law.now) (L.may_say law.now) h
        → TypesOk types (tree_by_commits h.begin h.past) }
    ensures closed { (types : List TypeDef) (tokens : Tokens) (h : History) (v : RevVec)
        → IsObeyingRun types tokens (L.may_start law.now) (L.may_say law.now) h
        → IsClosed h.past v → TypesOk types (tree_at h.begin h.past v) }
    ensures bases { (types : List TypeDef) (tokens : Tokens) (h : History) (s : ℕ) (v : RevVec)
        → IsObeyingRun types tokens (L.may_start law.now) (L.may_say law.now) h
        → base_of h.past s ≡ Some v → TypesOk types (tree_at h.begin h.past v) }
{}

/// When a commit is made, no node that it changes is locked against the tokens that its session
/// held when it was drawn, and none is covered by a checked-in node, in the tree of all commits
/// before it (JSR 283, 17 Locking and 15 Versioning).
pub fn commits_find_their_nodes_free<L: Law>(law: &L)
    ensures { (types : List TypeDef) (tokens : Tokens) (h : History) (r : Revision) (d : Draw)
        → IsObeyingRun types tokens (L.may_start law.now) (L.may_say law.now) h
        → draw_of h.past r ≡ Some d → MayCommit h.past r
        → IsFree types (tree_by_commits h.begin h.past) (tokens_at_draw tokens h r d.session)
        d.edit.writes }
{}

/// After each commit of a run that keeps identifiers apart, each reference of the tree of all
/// commits names a node, where each of what the run begins with does (JSR 283, 3.8 Referential
/// Integrity).
pub fn commits_keep_references<L: Law>(law: &L)
    ensures { (types : List TypeDef) (tokens : Tokens) (h : History)
        → IsObeyingRun types tokens (L.may_start law.now) (L.may_say law.now) h
        → IsTidy h.begin h.past → ReferencesOk (tree_by_commits h.begin h.past) }
{}

/// A plan marks the parent of each node that it adds or removes. Where a law lets only plans
/// start, it merges trees.
pub fn plans_mark_parents()
    ensures { (types : List TypeDef) (tokens : List (List ℕ)) (t : Nodes) (edit : Edit)
        (marks : List MarkAt) → PlanOk types t tokens edit.writes marks
        → MarkParents marks edit.writes }
{}
