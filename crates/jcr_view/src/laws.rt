// Laws of views.
ghost use Rattle.std.specs.Prelude.{◌≡◌, ◌≢◌, ◌∷◌, ◌+◌, ◌*◌, ◌≤◌, [], IsFalse, IsTrue, List, Option};
ghost use Rattle.std.specs.Prelude.{Some, is_some, length};
ghost use Rattle.std.specs.List.{All, AllPairs};
ghost use Rattle.jr_path.specs.declared.path.Path.{Path};
ghost use Rattle.jr_tree.specs.Edits.{IsProper};
ghost use Rattle.jr_tree.specs.Trees.{IsTree, Nodes, node_at};
ghost use Rattle.jr_tree.specs.declared.edit.Write.{Write};
ghost use Rattle.jr_tree.specs.declared.shared.Who.{Who};
ghost use Rattle.jr_tree.specs.declared.tree.Node.{Node};
ghost use Rattle.jr_part.specs.Parts.{AgreesWith, ChildNames, Knowledge, Lacks, LacksNothing, knows};
ghost use Rattle.jr_part.specs.Parts.{with_children, with_node};
ghost use Rattle.jr_part.specs.declared.need.Need.{Need};
ghost use Rattle.jr_part.specs.declared.need.Need.TheVariants as need;
ghost use Rattle.jr_overlay.specs.Drafts.{with_steps};
ghost use Rattle.jr_overlay.specs.Overlays.{AreOver, Changed, edit_of, known_view, view_of};
ghost use Rattle.jr_overlay.specs.Overlays.{whole_view};
ghost use Rattle.jr_items.specs.Names.{version_storage};
ghost use Rattle.jr_types.specs.declared.TypeDef.{TypeDef};
ghost use Rattle.jcr_trans.specs.declared.command.Command.{Command};
ghost use Rattle.jcr_view.specs.Needs.{needs_of, needs_to_rebase};
ghost use Rattle.jcr_read.specs.Reading.{reads_all};
ghost use Rattle.jcr_view.specs.Outcomes.{eval, outcome};
ghost use Rattle.jcr_view.specs.Parts.{IsPartOf};
ghost use Rattle.jcr_view.specs.Rebases.{rebased, tree_again};
ghost use Rattle.jcr_view.specs.Rounds.{AreLoads, AreLoadsOf, IsOfNone, is_of_one_node};

/// What a command asks for is enough: where nothing of it lacks, the command comes to the same on what is known as on
/// the whole view of each tree that the part agrees with.
pub fn needs_are_enough()
    ensures { (types : List TypeDef) (who : Who) (t : Nodes) (k : Knowledge) (c : Changed)
        (command : Command) → IsPartOf t k c → All (LacksNothing k) (needs_of who k c command)
        → outcome types who (known_view k c) k.nodes command
        ≡ outcome types who (whole_view (view_of t c)) t command }
{}

/// A command that goes over the whole tree asks for it, and for nothing else.
pub fn whole_trees_are_asked_for()
    ensures { (who : Who) (k : Knowledge) (c : Changed) (command : Command)
        → IsTrue (reads_all command) → needs_of who k c command ≡ need.All ∷ [] }
{}

/// Where nothing lacks of what a command asks for, its steps count as `eval` has it: what has changed is over the same
/// tree still, and the view is the one after the command, on each tree that the part agrees with.
pub fn steps_count()
    ensures over { (types : List TypeDef) (who : Who) (t : Nodes) (k : Knowledge) (c : Changed)
        (command : Command) → IsPartOf t k c → All (LacksNothing k) (needs_of who k c command)
        → AreOver t (with_steps k.nodes c
        (outcome types who (known_view k c) k.nodes command).steps) }
    ensures view { (types : List TypeDef) (who : Who) (t : Nodes) (k : Knowledge) (c : Changed)
        (command : Command) → IsPartOf t k c → All (LacksNothing k) (needs_of who k c command)
        → view_of t (with_steps k.nodes c
        (outcome types who (known_view k c) k.nodes command).steps)
        ≡ (eval types who t (view_of t c) command).view }
{}

/// A view that is a tree, with the version storage in it, stays one after each command, the version storage still in
/// it. So what is pending makes a proper edit after a command of which nothing lacks that it asks for.
pub fn commands_keep_trees()
    ensures tree { (types : List TypeDef) (who : Who) (t v : Nodes) (command : Command)
        → IsTree v → IsTrue (is_some (node_at v version_storage))
        → IsTree (eval types who t v command).view }
    ensures storage { (types : List TypeDef) (who : Who) (t v : Nodes) (command : Command)
        → IsTree v → IsTrue (is_some (node_at v version_storage))
        → IsTrue (is_some (node_at (eval types who t v command).view version_storage)) }
    ensures proper { (types : List TypeDef) (who : Who) (t : Nodes) (k : Knowledge) (c : Changed)
        (command : Command) → IsPartOf t k c → All (LacksNothing k) (needs_of who k c command)
        → IsTree (view_of t c) → IsTrue (is_some (node_at (view_of t c) version_storage))
        → IsProper t (edit_of (with_steps k.nodes c
        (outcome types who (known_view k c) k.nodes command).steps)) }
{}

/// Pending changes made again on the tree that they are over come to the view that they made of it.
pub fn rebasing_on_the_same_tree_changes_nothing()
    ensures { (t : Nodes) (k : Knowledge) (c : Changed) → IsPartOf t k c → IsTree (view_of t c)
        → All (LacksNothing k) (needs_to_rebase (edit_of c))
        → view_of t (rebased k (edit_of c)) ≡ view_of t c }
{}

/// Where nothing lacks of what writes ask for, they are made again on what is known as on the whole tree: the changes
/// are over it, and the view is the tree with the writes made again.
pub fn rebases_count()
    ensures over { (t : Nodes) (k : Knowledge) (ws : List Write) → IsPartOf t k []
        → All (LacksNothing k) (needs_to_rebase ws) → AreOver t (rebased k ws) }
    ensures view { (t : Nodes) (k : Knowledge) (ws : List Write) → IsPartOf t k []
        → All (LacksNothing k) (needs_to_rebase ws)
        → view_of t (rebased k ws) ≡ tree_again t ws }
{}

/// An edit that is proper on one tree leaves a tree when it is made again on another, so what it then comes to is
/// proper on that.
pub fn rebases_keep_trees()
    ensures tree { (from t : Nodes) (ws : List Write) → IsProper from ws → IsTree t
        → IsTree (tree_again t ws) }
    ensures proper { (from t : Nodes) (k : Knowledge) (ws : List Write) → IsProper from ws
        → IsPartOf t k [] → All (LacksNothing k) (needs_to_rebase ws)
        → IsProper t (edit_of (rebased k ws)) }
{}

/// Each round of loading names a node, or the children of one, that lacks. Once an answer is put it is known, and what
/// was known is known still. So however many rounds there are, each load is another one.
pub fn each_round_learns()
    ensures named { (k : Knowledge) (wanted lacking : Need) → Lacks k wanted (Some lacking)
        → IsTrue (is_of_one_node lacking) × IsFalse (knows k lacking) }
    ensures node { (k : Knowledge) (p : Path) (answer : Option Node)
        → IsTrue (knows (with_node k p answer) (need.Node p)) }
    ensures children { (k : Knowledge) (p : Path) (names : ChildNames)
        → IsTrue (knows (with_children k p names) (need.Children p)) }
    ensures kept_by_node { (k : Knowledge) (p : Path) (answer : Option Node) (other : Need)
        → IsTrue (knows k other) → IsTrue (knows (with_node k p answer) other) }
    ensures kept_by_children { (k : Knowledge) (p : Path) (names : ChildNames) (other : Need)
        → IsTrue (knows k other) → IsTrue (knows (with_children k p names) other) }
    ensures once { (t : Nodes) (k : Knowledge) (loads : List Need) → AreLoads t k loads
        → AllPairs (λ a b. a ≢ b) loads }
{}

/// Where the whole tree is known, all that a command may still lack is a node that isn't there.
pub fn whole_trees_lack_no_node()
    ensures { (who : Who) (t : Nodes) (k : Knowledge) (c : Changed) (command : Command) → IsTree t
        → AgreesWith t k → LacksNothing k need.All
        → All (λ wanted. (lacking : Need) → Lacks k wanted (Some lacking) → IsOfNone t lacking)
        (needs_of who k c command) }
{}

/// The rounds of loading for a command end, whatever is known at the start: there are at most two for each node of the
/// tree, and three more.
pub fn rounds_end()
    ensures { (who : Who) (t : Nodes) (k : Knowledge) (c : Changed) (command : Command)
        (loads : List Need) → AgreesWith t k → AreOver t c
        → AreLoadsOf (λ known. needs_of who known c command) t k loads
        → length loads ≤ 2 * length t + 3 }
{}
