// Views that are whole trees.
ghost use Rattle.std.specs.Prelude.{◌≡◌, ◌∷◌, ◌++◌, [], true, Ok, IfErr, IfOk, IsTrue, OnErr, OnOk, option_map};
ghost use Rattle.std.specs.BTreeMap.{is_at};
ghost use Rattle.std.specs.Map.{remove_entry};
ghost use Rattle.std.specs.Option.{option_copied};
ghost use Rattle.std.specs.String.{string_bytes};
ghost use Rattle.jr_items.specs.Refusals.{out_of_memory};
ghost use Rattle.jr_overlay.specs.Drafts.{stepped};
ghost use Rattle.jr_overlay.specs.Overlays.{dated_as, known_view, sighted, whole_view, with_node_at};
ghost use Rattle.jr_part.specs.Parts.{with_children};
ghost use Rattle.jr_path.specs.Names.{path_cmp};
ghost use Rattle.jr_tree.specs.Trees.{born_of, dated_children_of, node_at};
ghost use Rattle.jcr_fill.specs.Makings.{making};
ghost use Rattle.jcr_trans.specs.Answers.{Done};
ghost use Rattle.jcr_trans.specs.Texts.{answer_text};
ghost use Rattle.jcr_view.specs.Outcomes.{eval, is_viewed, is_writing, written_outcome};
ghost use Rattle.jcr_read.specs.Reading.{Replies, refused, shown};
ghost use Rattle.jcr_view.specs.Rebases.{moved_view};
ghost use Rattle.jcr_view.specs.Whole.{all_known, with_node_known};
ghost use Rattle.jcr_write.specs.Places.{IsDueRefusal};

use crate::commands::is_writing;
use crate::rebase::rebased;
use crate::writing::{Made, make};
use jcr_read::{identified, read_nodes, referring, versions};
use jcr_trans::{Command, done_reply};
use jr_overlay::{Overlay, Sight};
use jr_part::Part;
use jr_path::{DeepCopy, Keyed, List, Name, Path};
use jr_rev::Revision;
use jr_tree::{Edit, Node, Refusal, Tree, Who, Write, changes, is_child};
use jr_types::Registry;
use std::alloc::{AllocError, Global};

/// Makes a command that reads or writes a view that is a whole tree, over the tree at the base, and answers the text of
/// its reply (JSR 283, 5 Reading; 10 Writing). A command that is refused, and one for whose reply there is no memory,
/// changes nothing. It goes over the whole view for each of its nodes.
pub fn evaluate(
    alloc: Global,
    types: &Registry,
    who: &mut Who,
    base: &Tree,
    view: &mut Tree,
    command: &Command,
) -> Result<String, Refusal>
    requires { IsTrue (is_viewed command.now) }
    ensures text { IfOk result (λ text. string_bytes text ≡ answer_text
        (eval types.now who.old base.now view.old command.now).answer) }
    ensures view { OnOk result (view.new
        ≡ (eval types.now who.old base.now view.old command.now).view) }
    ensures ids { OnOk result (who.new ≡ record who.old {
      ids = (eval types.now who.old base.now view.old command.now).ids;
    }) }
    ensures refused { IfErr result (λ r. ¬ (r ≡ out_of_memory)
        → eval types.now who.old base.now view.old command.now
        ≡ record { answer = refused r; view = view.old; ids = who.old.ids }) }
    ensures kept { OnErr result (view.new ≡ view.old) }
    ensures same { OnErr result (who.new ≡ who.old) }
{
    if is_writing(command) {
        write(alloc, types, who, base, view, command)
    } else {
        read(alloc, types, base, view, command)
    }
}

/// The view after the base moved from one tree to another: the edits by which it differed from the old one are made again
/// on the new one (JSR 283, 10.11.4 Refresh). It goes over the whole new tree for each of its nodes.
pub fn move_view(alloc: Global, old: &Tree, new: &Tree, view: &Tree) -> Result<Tree, AllocError>
    ensures { IfOk result (λ moved. moved ≡ moved_view old.now new.now view.now) }
{
    let _ = new.len();
    let edit = changes(old, view)?;
    let part = all_known(alloc, new)?;
    let overlay = rebased(alloc, &part, edit.writes.as_slice())?;
    overlay.view(new)
}

// A writing command.
fn write(
    alloc: Global,
    types: &Registry,
    who: &mut Who,
    base: &Tree,
    view: &mut Tree,
    command: &Command,
) -> Result<String, Refusal>
    requires { is_writing command.now ≡ true }
    ensures text { IfOk result (λ text. string_bytes text ≡ answer_text
        (eval types.now who.old base.now view.old command.now).answer) }
    ensures view { OnOk result (view.new
        ≡ (eval types.now who.old base.now view.old command.now).view) }
    ensures ids { OnOk result (who.new ≡ record who.old {
      ids = (eval types.now who.old base.now view.old command.now).ids;
    }) }
    ensures refused { IfErr result (λ r. ¬ (r ≡ out_of_memory)
        → eval types.now who.old base.now view.old command.now
        ≡ record { answer = refused r; view = view.old; ids = who.old.ids }) }
    ensures kept { OnErr result (view.new ≡ view.old) }
    ensures same { OnErr result (who.new ≡ who.old) }
{
    match make_of(alloc, types, who, view, command) {
        Ok(made) => keep(alloc, who, base, view, made),
        Err(refusal) => Err(refusal),
    }
}

// What a writing command makes of a view.
fn make_of(
    alloc: Global,
    types: &Registry,
    who: &Who,
    view: &Tree,
    command: &Command,
) -> Result<Made, Refusal>
    requires { is_writing command.now ≡ true }
    ensures ok { IfOk result (λ made. written_outcome types.now who.now (whole_view view.now)
        command.now (making [] who.now.ids) ≡ Ok (making made.steps made.ids)) }
    ensures err { IfErr result (IsDueRefusal (written_outcome types.now who.now
        (whole_view view.now) command.now (making [] who.now.ids))) }
{
    match all_known(alloc, view) {
        Ok(part) => make(alloc, types, who, &part, &Overlay::new(alloc), command),
        Err(AllocError) => Err(Refusal::memory(alloc)),
    }
}

// What a command made counts. The reply comes first, so that nothing is made that isn't answered.
fn keep(
    alloc: Global,
    who: &mut Who,
    base: &Tree,
    view: &mut Tree,
    made: Made,
) -> Result<String, Refusal>
    ensures text { IfOk result (λ text. string_bytes text ≡ answer_text Done) }
    ensures view { OnOk result (view.new ≡ stepped base.now view.old made.steps) }
    ensures ids { OnOk result (who.new ≡ record who.old { ids = made.ids }) }
    ensures refused { IfErr result (λ r. r ≡ out_of_memory) }
    ensures kept { OnErr result (view.new ≡ view.old) }
    ensures same { OnErr result (who.new ≡ who.old) }
{
    match step_all(alloc, base, view, &made.steps) {
        Ok(text) => {
            who.ids = made.ids;
            Ok(text)
        }
        Err(AllocError) => Err(Refusal::memory(alloc)),
    }
}

// The steps of a command are made, once its reply is.
fn step_all(
    alloc: Global,
    base: &Tree,
    view: &mut Tree,
    steps: &Keyed<Path, Option<Node>>,
) -> Result<String, AllocError>
    ensures text { IfOk result (λ text. string_bytes text ≡ answer_text Done) }
    ensures view { OnOk result (view.new ≡ stepped base.now view.old steps.now) }
    ensures kept { OnErr result (view.new ≡ view.old) }
{
    let text = done_reply(alloc)?;
    *view = stepped(alloc, base, view, steps)?;
    Ok(text)
}

// A view with each step made, over the tree at its base.
fn stepped(
    alloc: Global,
    base: &Tree,
    view: &Tree,
    steps: &Keyed<Path, Option<Node>>,
) -> Result<Tree, AllocError>
    ensures { IfOk result (λ after. after ≡ stepped base.now view.now steps.now) }
{
    let mut after = view.copy()?;
    for (path, node) in steps.inner() {
        step(alloc, &mut after, base, path, node)?;
    }
    Ok(after)
}

// One step: this node at a path, or none there.
fn step(
    alloc: Global,
    view: &mut Tree,
    base: &Tree,
    path: &Path,
    node: &Option<Node>,
) -> Result<(), AllocError>
    ensures { OnOk result (view.new ≡ with_node_at view.old path.now
        (option_map (dated_as (node_at base.now path.now)) node.now)) }
{
    match node {
        Some(node) => view.insert(path.copy()?, dated(node, base.get(path))?),
        None => remove(alloc, view, path),
    }
}

// A copy of a node, dated as what stands at its path at the base.
fn dated(node: &Node, old: Option<&Node>) -> Result<Node, AllocError>
    ensures { IfOk result (λ copy. copy ≡ dated_as (option_copied old.entry) node.now) }
{
    Ok(Node {
        props: node.props.copy()?,
        born: born_of(old),
    })
}

// The revision that added a node, or none while its adding is pending.
fn born_of(node: Option<&Node>) -> Option<Revision>
    ensures { result ≡ born_of (option_copied node.entry) }
{
    match node {
        Some(node) => node.born,
        None => None,
    }
}

// Takes the node at a path away.
fn remove(alloc: Global, tree: &mut Tree, path: &Path) -> Result<(), AllocError>
    ensures { OnOk result (tree.new ≡ remove_entry (is_at (path_cmp path.now)) tree.old) }
{
    let mut writes = List::new(alloc);
    writes.push(Write::Gone(path.copy()?))?;
    tree.apply(&Edit { writes }, None)
}

// A command that changes nothing.
fn read(
    alloc: Global,
    types: &Registry,
    base: &Tree,
    view: &Tree,
    command: &Command,
) -> Result<String, Refusal>
    ensures { Replies (shown types.now (whole_view view.now) base.now command.now) result }
{
    match all_known(alloc, view) {
        Ok(part) => {
            let overlay = Overlay::new(alloc);
            show(
                alloc,
                types,
                &Sight::new(&part, &overlay),
                base,
                view,
                command,
            )
        }
        Err(AllocError) => Err(Refusal::memory(alloc)),
    }
}

// What a command that changes nothing answers, where all of the view is seen.
fn show(
    alloc: Global,
    types: &Registry,
    sight: &Sight<'_>,
    base: &Tree,
    view: &Tree,
    command: &Command,
) -> Result<String, Refusal>
    requires { sighted sight.now ≡ whole_view view.now }
    ensures { Replies (shown types.now (whole_view view.now) base.now command.now) result }
{
    match command {
        Command::ById(text) => identified(alloc, view, text.as_str()),
        Command::Refs(path) => referring(alloc, sight, view, path),
        Command::Versions(path) => versions(alloc, base, path),
        _ => read_nodes(alloc, types, sight, command),
    }
}

// A part with all that can be read of a tree.
fn all_known(alloc: Global, tree: &Tree) -> Result<Part, AllocError>
    ensures all { IfOk result (λ part. part ≡ all_known tree.now) }
    ensures nodes { IfOk result (λ part. part.nodes ≡ tree.now) }
    ensures seen { IfOk result (λ part. known_view part [] ≡ whole_view tree.now) }
{
    let _ = tree.len();
    let mut part = Part::new(alloc);
    for (path, node) in tree.iter() {
        put_known(alloc, &mut part, tree, path, node)?;
    }
    Ok(part)
}

// Puts a node of a tree, and the children of the node above it.
fn put_known(
    alloc: Global,
    part: &mut Part,
    tree: &Tree,
    path: &Path,
    node: &Node,
) -> Result<(), AllocError>
    ensures { OnOk result (part.new ≡ with_node_known tree.now part.old (path.now, node.now)) }
{
    part.put_node(path, Some(node.copy()?))?;
    match path.parent()? {
        Some(parent) => put_children(alloc, part, tree, &parent),
        None => Ok(()),
    }
}

// Puts the children of a node of a tree.
#[tactic(auto, using(jr_part::proofs::Children::children_sorted))]
fn put_children(alloc: Global, part: &mut Part, tree: &Tree, path: &Path) -> Result<(), AllocError>
    ensures { OnOk result (part.new
        ≡ with_children part.old path.now (dated_children_of tree.now path.now)) }
{
    let _ = tree.len();
    let names = dated_children(alloc, tree, path)?;
    part.put_children(path, names)
}

// The names of the children of a path, in ascending order, each with the revision that added the child. It goes over all
// nodes.
fn dated_children(
    alloc: Global,
    tree: &Tree,
    path: &Path,
) -> Result<List<(Name, Option<Revision>)>, AllocError>
    ensures { IfOk result (λ names. names ≡ dated_children_of tree.now path.now) }
{
    let mut names = List::new(alloc);
    for (at, node) in tree.iter() {
        push_child(&mut names, path, at, node)?;
    }
    Ok(names)
}

// The name of a node, where it is a child of the path.
fn push_child(
    names: &mut List<(Name, Option<Revision>)>,
    path: &Path,
    at: &Path,
    node: &Node,
) -> Result<(), AllocError>
    ensures { OnOk result (names.new
        ≡ names.old ++ dated_children_of ((at.now, node.now) ∷ []) path.now) }
{
    if !is_child(path, at) {
        return Ok(());
    }
    match at.last_name() {
        Some(name) => names.push((name.copy()?, node.born)),
        None => Ok(()),
    }
}
