// The history of a node that becomes versionable.
ghost use Rattle.std.specs.Prelude.{◌≡◌, ◌+◌, ◌++◌, ◌∷◌, [], IfErr, IfOk, IsTrue, None, Ok, OnOk, Some, is_some, option_and_then};
ghost use Rattle.std.specs.Option.{option_copied};
ghost use Rattle.jr_items.specs.Names.{uuid, version_storage};
ghost use Rattle.jr_tree.specs.Edits.{applied};
ghost use Rattle.jr_overlay.specs.Overlays.{sighted};
ghost use Rattle.jcr_ref.specs.Drawn.{too_many_ids};
ghost use Rattle.jcr_write.specs.Places.{IsDueRefusal, unless_refused};
ghost use Rattle.jcr_mixin.specs.Histories.{all_put, begun_among, begun_by, counting, due_history, history_by, limited_history, named_history, own_text, with_history, with_own_history, with_seen};
ghost use Rattle.jcr_fill.specs.Filled.{next_text};
ghost use Rattle.jcr_fill.specs.Makings.{making};

use jcr_fill::next_text;
use jcr_ref::{HistoryWrites, MAX_IDS, history_writes};
use jr_items::{OwnName, one_text, over_limit};
use jr_overlay::Draft;
use jr_path::{DeepCopy, List, Name, Path, PathFault};
use jr_tree::{Edit, Node, Refusal, Tree, Who, Write};
use std::alloc::{AllocError, Global};

/// With `mix:versionable` the history of a node begins, or is used where it is there; with another mixin nothing is
/// made.
pub(crate) fn begin_by(
    alloc: Global,
    who: &Who,
    draft: &mut Draft<'_>,
    ids: &mut u32,
    path: &Path,
    name: &Name,
) -> Result<(), Refusal>
    ensures sight { draft.new.sight ≡ draft.old.sight }
    ensures ok { OnOk result (begun_by name.now who.now (sighted draft.old.sight) path.now
        (making draft.old.steps ids.old) ≡ Ok (making draft.new.steps ids.new)) }
    ensures err { IfErr result (IsDueRefusal (begun_by name.now who.now
        (sighted draft.old.sight) path.now (making draft.old.steps ids.old))) }
{
    if !OwnName::Versionable.is(name) {
        return Ok(());
    }
    match counting(alloc, draft, path) {
        Ok(nodes) => begin_among(alloc, who, draft, ids, path, nodes),
        Err(AllocError) => Err(Refusal::memory(alloc)),
    }
}

// What counts for the history of a node that becomes versionable: the node, and the history by its identifier where
// that is there.
fn counting(alloc: Global, draft: &Draft<'_>, path: &Path) -> Result<Tree, AllocError>
    ensures { IfOk result (λ nodes. nodes ≡ counting (sighted draft.now.sight) draft.now.steps
        path.now) }
{
    let mut nodes = Tree::new(alloc);
    put_seen(&mut nodes, draft, path)?;
    put_own_history(&mut nodes, alloc, draft, path)?;
    Ok(nodes)
}

// Puts the node that is seen at a path, where there is one.
fn put_seen(nodes: &mut Tree, draft: &Draft<'_>, path: &Path) -> Result<(), AllocError>
    ensures { OnOk result (nodes.new
        ≡ with_seen (sighted draft.now.sight) draft.now.steps path.now nodes.old) }
{
    match draft.node(path) {
        Some(node) => nodes.insert(path.copy()?, node.copy()?),
        None => Ok(()),
    }
}

// Puts the history of the node at a path, where the node's identifier is a name.
fn put_own_history(
    nodes: &mut Tree,
    alloc: Global,
    draft: &Draft<'_>,
    path: &Path,
) -> Result<(), AllocError>
    ensures { OnOk result (nodes.new ≡ with_own_history (sighted draft.now.sight)
        draft.now.steps path.now nodes.old) }
{
    match named_history(alloc, nodes, path)? {
        Some(history) => put_history(nodes, alloc, draft, &history),
        None => Ok(()),
    }
}

// Puts a history and its root version, where they are there.
fn put_history(
    nodes: &mut Tree,
    alloc: Global,
    draft: &Draft<'_>,
    history: &Path,
) -> Result<(), AllocError>
    ensures { OnOk result (nodes.new ≡ with_history (sighted draft.now.sight) draft.now.steps
        nodes.old history.now) }
{
    let name = OwnName::RootVersion.name(alloc)?;
    let root = history.child(&name)?;
    put_seen(nodes, draft, history)?;
    put_seen(nodes, draft, &root)
}

// The place of the history of the node at a path, where the node's identifier is a name.
fn named_history(alloc: Global, nodes: &Tree, path: &Path) -> Result<Option<Path>, AllocError>
    ensures { IfOk result (λ found. found ≡ named_history nodes.now path.now) }
{
    let uuid = OwnName::Uuid.name(alloc)?;
    history_for(alloc, one_text(nodes.property(path, &uuid)))
}

/// The place of a history by an identifier, where there is one and it is a name.
pub(crate) fn history_for(alloc: Global, id: Option<&str>) -> Result<Option<Path>, AllocError>
    ensures { IfOk result (λ found. found ≡ option_and_then history_by (option_copied id.entry)) }
{
    match id {
        Some(id) => history_by(alloc, id),
        None => Ok(None),
    }
}

fn history_by(alloc: Global, id: &str) -> Result<Option<Path>, AllocError>
    ensures { IfOk result (λ found. found ≡ history_by id.now) }
{
    match Name::parse(alloc, id) {
        Ok(name) => history_named(alloc, &name),
        Err(PathFault::BadName(_)) => Ok(None),
        Err(_) => Err(AllocError),
    }
}

fn history_named(alloc: Global, id: &Name) -> Result<Option<Path>, AllocError>
    ensures { IfOk result (λ found. found ≡ Some (version_storage ++ id.now ∷ [])) }
{
    let storage = version_storage(alloc)?;
    Ok(Some(storage.child(id)?))
}

/// Where the history of a node stands that becomes versionable by a session: by the identifier that it has, or else by
/// the session's next one; nowhere, where that is no name.
pub fn due_history(
    alloc: Global,
    who: &Who,
    node: Option<&Node>,
) -> Result<Option<Path>, AllocError>
    ensures { IfOk result (λ found. found
        ≡ due_history who.now who.now.ids (option_copied node.entry)) }
{
    let key = OwnName::Uuid.name(alloc)?;
    match own_text(node, &key) {
        Some(text) => history_by(alloc, text),
        None => next_history(alloc, who),
    }
}

// The text of a node's identifier, where it has one.
fn own_text<'a>(node: Option<&'a Node>, key: &Name) -> Option<&'a str>
    requires { key.now ≡ uuid }
    ensures { option_copied result ≡ own_text (option_copied node.entry) }
{
    match node {
        Some(node) => one_text(node.props.get(key)),
        None => None,
    }
}

// The place of a history by the session's next identifier.
fn next_history(alloc: Global, who: &Who) -> Result<Option<Path>, AllocError>
    ensures { IfOk result (λ found. found ≡ history_by (next_text who.now who.now.ids)) }
{
    let text = next_text(alloc, who, who.ids)?;
    history_by(alloc, text.as_str())
}

/// The path of the node above all version histories.
pub fn version_storage(alloc: Global) -> Result<Path, AllocError>
    ensures { IfOk result (λ path. path ≡ version_storage) }
{
    let system = OwnName::System.name(alloc)?;
    let storage = OwnName::VersionStorage.name(alloc)?;
    Path::root(alloc).child(&system)?.child(&storage)
}

// The history of the node at a path begins among these nodes, where the node's identifier is a name.
fn begin_among(
    alloc: Global,
    who: &Who,
    draft: &mut Draft<'_>,
    ids: &mut u32,
    path: &Path,
    nodes: Tree,
) -> Result<(), Refusal>
    ensures sight { draft.new.sight ≡ draft.old.sight }
    ensures ok { OnOk result (begun_among nodes who.now path.now
        (making draft.old.steps ids.old) ≡ Ok (making draft.new.steps ids.new)) }
    ensures err { IfErr result (IsDueRefusal (begun_among nodes who.now path.now
        (making draft.old.steps ids.old))) }
{
    match named_history(alloc, &nodes, path) {
        Ok(Some(_)) => begin(alloc, who, draft, ids, path, nodes),
        Ok(None) => Ok(()),
        Err(AllocError) => Err(Refusal::memory(alloc)),
    }
}

fn begin(
    alloc: Global,
    who: &Who,
    draft: &mut Draft<'_>,
    ids: &mut u32,
    path: &Path,
    nodes: Tree,
) -> Result<(), Refusal>
    requires { IsTrue (is_some (named_history nodes path.now)) }
    ensures sight { draft.new.sight ≡ draft.old.sight }
    ensures ok { OnOk result (limited_history nodes who.now path.now
        (making draft.old.steps ids.old) ≡ Ok (making draft.new.steps ids.new)) }
    ensures err { IfErr result (IsDueRefusal (limited_history nodes who.now path.now
        (making draft.old.steps ids.old))) }
{
    let who = Who { ids: *ids, ..*who };
    match history_writes(alloc, &nodes, path, &who) {
        Ok(Some(made)) => put_made(alloc, draft, ids, nodes, made),
        Ok(None) => unreachable!(),
        Err(AllocError) => Err(Refusal::memory(alloc)),
    }
}

// Puts the nodes with what the writes make of them, where the session may draw as many identifiers.
fn put_made(
    alloc: Global,
    draft: &mut Draft<'_>,
    ids: &mut u32,
    nodes: Tree,
    made: HistoryWrites,
) -> Result<(), Refusal>
    ensures sight { draft.new.sight ≡ draft.old.sight }
    ensures ok { OnOk result (unless_refused (too_many_ids (ids.old + made.drawn))
        (Ok (making (all_put draft.old.steps (applied None nodes made.writes))
        (ids.old + made.drawn))) ≡ Ok (making draft.new.steps ids.new)) }
    ensures err { IfErr result (IsDueRefusal (unless_refused (too_many_ids (ids.old + made.drawn))
        (Ok (making (all_put draft.old.steps (applied None nodes made.writes))
        (ids.old + made.drawn))))) }
{
    let count = *ids as u64 + made.drawn as u64;
    if count > MAX_IDS as u64 {
        return Err(over_limit(alloc, "ids", 16_777_215));
    }
    *ids = count as u32;
    match put_applied(draft, nodes, made.writes) {
        Ok(()) => Ok(()),
        Err(AllocError) => Err(Refusal::memory(alloc)),
    }
}

fn put_applied(
    draft: &mut Draft<'_>,
    mut nodes: Tree,
    writes: List<Write>,
) -> Result<(), AllocError>
    ensures sight { draft.new.sight ≡ draft.old.sight }
    ensures ok { OnOk result (draft.new.steps
        ≡ all_put draft.old.steps (applied None nodes writes)) }
{
    let edit = Edit { writes };
    nodes.apply(&edit, None)?;
    put_all(draft, &nodes)
}

// Puts each of the nodes in its place.
fn put_all(draft: &mut Draft<'_>, nodes: &Tree) -> Result<(), AllocError>
    ensures sight { draft.new.sight ≡ draft.old.sight }
    ensures ok { OnOk result (draft.new.steps ≡ all_put draft.old.steps nodes.now) }
{
    for (path, node) in nodes.iter() {
        draft.put(path, Some(node.copy()?))?;
    }
    Ok(())
}
