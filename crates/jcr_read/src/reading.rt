// What reading commands answer of a view.
ghost use Rattle.std.specs.Prelude.{◌≡◌, [], None, Some, Ok, Err, IfErr, IfOk, IsFalse, OnErr, OnOk};
ghost use Rattle.std.specs.Option.{option_copied, option_map_or};
ghost use Rattle.std.specs.String.{string_bytes};
ghost use Rattle.jr_path.specs.Ids.{path_text};
ghost use Rattle.jr_items.specs.Refusals.{no_identifier as none_has, no_item as none_there, out_of_memory};
ghost use Rattle.jr_overlay.specs.Overlays.{known_view, sighted, view_of, whole_view};
ghost use Rattle.jr_part.specs.Parts.{LacksNothing};
ghost use Rattle.jr_part.specs.declared.need.Need.TheVariants as need;
ghost use Rattle.jr_tree.specs.Trees.{Nodes, subtree_of};
ghost use Rattle.jr_tree.specs.declared.tree.Node.{Node as TreeNode};
ghost use Rattle.jcr_ref.specs.References.{node_by_id, referrers};
ghost use Rattle.jcr_ref.specs.Histories.{version_history_of, version_names};
ghost use Rattle.jcr_trans.specs.Answers.{Answer, ShowsItems, ShowsNames, ShowsProperties, ShowsProperty, ShowsText};
ghost use Rattle.jcr_trans.specs.Texts.{answer_text};
ghost use Rattle.jcr_read.specs.Reading.{Replies, answer_at, by_id_answer, get_answer, id_answer, list_answer, node_identifier, property_named, props_answer, reads_all, refs_answer, refused, shown, shown_node, versions_answer};
ghost use Rattle.jr_order.specs.Order.{ordered};

use jcr_frozen::find_history;
use jcr_ref::{by_id, referrers, version_names};
use jcr_trans::{
    Command, done_reply, items_reply, names_reply, properties_reply, property_reply, text_reply,
};
use jr_items::{OwnName, check_limits, no_identifier, no_item, one_text};
use jr_order::ordered;
use jr_overlay::{Overlay, Sight};
use jr_part::Part;
use jr_path::{Item, Path};
use jr_tree::{Node, Refusal, Tree};
use jr_types::Registry;
use jr_value::Property;
use std::alloc::{AllocError, Global};

// The text of a reply, or want of memory.
fn replied(alloc: Global, text: Result<String, AllocError>) -> Result<String, Refusal>
    ensures { (a : Answer) → IfOk text (λ made. string_bytes made ≡ answer_text a)
        → Replies a result }
{
    match text {
        Ok(text) => Ok(text),
        Err(AllocError) => Err(Refusal::memory(alloc)),
    }
}

// The property that a path names (JSR 283, 5.1 Direct Access). Refused: 15 where the path is too deep or too long, 1
// where there is no such property.
fn get(alloc: Global, sight: &Sight<'_>, path: &Path) -> Result<String, Refusal>
    ensures { Replies (get_answer (sighted sight.now) path.now) result }
{
    match check_limits(alloc, path) {
        Ok(()) => property_shown(alloc, sight, path),
        Err(refusal) => Err(refusal),
    }
}

fn property_shown(alloc: Global, sight: &Sight<'_>, path: &Path) -> Result<String, Refusal>
    ensures { Replies (option_map_or ShowsProperty (property_named (sighted sight.now) path.now)
        (refused (none_there path.now))) result }
{
    match property_named(sight, path) {
        Ok(Some(property)) => replied(alloc, property_reply(alloc, property)),
        Ok(None) => Err(no_item(alloc, path)),
        Err(AllocError) => Err(Refusal::memory(alloc)),
    }
}

// The property that a path names in a view.
fn property_named<'a>(sight: &Sight<'a>, path: &Path) -> Result<Option<&'a Property>, AllocError>
    ensures { IfOk result (λ found. option_copied found
        ≡ property_named (sighted sight.now) path.now) }
{
    match (path.parent()?, path.last_name()) {
        (Some(parent), Some(name)) => match sight.node(&parent) {
            Some(node) => Ok(node.props.get(name)),
            None => Ok(None),
        },
        _ => Ok(None),
    }
}

// The node at a path that keeps the limits.
fn find_node<'a>(alloc: Global, sight: &Sight<'a>, path: &Path) -> Result<&'a Node, Refusal>
    ensures ok { IfOk result (λ node. (shows : TreeNode → Answer)
        → answer_at (sighted sight.now) path.now shows ≡ shows node.now) }
    ensures err { IfErr result (λ refusal. ¬ (refusal ≡ out_of_memory) → (shows : TreeNode → Answer)
        → answer_at (sighted sight.now) path.now shows ≡ refused refusal) }
{
    match check_limits(alloc, path) {
        Ok(()) => node_there(alloc, sight, path),
        Err(refusal) => Err(refusal),
    }
}

fn node_there<'a>(alloc: Global, sight: &Sight<'a>, path: &Path) -> Result<&'a Node, Refusal>
    ensures ok { IfOk result (λ node. (shows : TreeNode → Answer)
        → shown_node (sighted sight.now) path.now shows ≡ shows node.now) }
    ensures err { IfErr result (λ refusal. ¬ (refusal ≡ out_of_memory) → (shows : TreeNode → Answer)
        → shown_node (sighted sight.now) path.now shows ≡ refused refusal) }
{
    match sight.node(path) {
        Some(node) => Ok(node),
        None => Err(no_item(alloc, path)),
    }
}

// The names of the children of a node, in their order (JSR 283, 5.2 Traversal Access). Refused: 15 where the path is too
// deep or too long, 1 where there is no node.
fn list(alloc: Global, types: &Registry, sight: &Sight<'_>, path: &Path) -> Result<String, Refusal>
    ensures { Replies (list_answer types.now (sighted sight.now) path.now) result }
{
    match find_node(alloc, sight, path) {
        Ok(node) => replied(alloc, children_reply(alloc, types, sight, path, node)),
        Err(refusal) => Err(refusal),
    }
}

fn children_reply(
    alloc: Global,
    types: &Registry,
    sight: &Sight<'_>,
    path: &Path,
    node: &Node,
) -> Result<String, AllocError>
    ensures { IfOk result (λ text. string_bytes text ≡ answer_text
        (ShowsNames (ordered types.now node.now ((sighted sight.now).children path.now)))) }
{
    let rest = sight.children(path)?;
    let names = ordered(alloc, types, node, rest.as_slice())?;
    names_reply(alloc, names.as_slice())
}

// The properties of a node, by name (JSR 283, 5.2). Refused: 15 where the path is too deep or too long, 1 where there
// is no node.
fn props(alloc: Global, sight: &Sight<'_>, path: &Path) -> Result<String, Refusal>
    ensures { Replies (props_answer (sighted sight.now) path.now) result }
{
    match find_node(alloc, sight, path) {
        Ok(node) => replied(alloc, properties_reply(alloc, &node.props)),
        Err(refusal) => Err(refusal),
    }
}

// The identifier of a node (JSR 283, 3.3 Node Identifiers). Refused: 15 where the path is too deep or too long, 1 where
// there is no node.
fn id(alloc: Global, sight: &Sight<'_>, path: &Path) -> Result<String, Refusal>
    ensures { Replies (id_answer (sighted sight.now) path.now) result }
{
    match find_node(alloc, sight, path) {
        Ok(node) => replied(alloc, identifier_reply(alloc, node, path)),
        Err(refusal) => Err(refusal),
    }
}

fn identifier_reply(alloc: Global, node: &Node, path: &Path) -> Result<String, AllocError>
    ensures { IfOk result (λ text. string_bytes text
        ≡ answer_text (ShowsText (node_identifier node.now path.now))) }
{
    let id = node_identifier(alloc, node, path)?;
    text_reply(alloc, id.as_str())
}

// The identifier of the node at a path: its `jcr:uuid` where that is one text, and else its path.
fn node_identifier(alloc: Global, node: &Node, path: &Path) -> Result<String, AllocError>
    ensures { IfOk result (λ id. string_bytes id ≡ node_identifier node.now path.now) }
{
    let key = OwnName::Uuid.name(alloc)?;
    match one_text(node.props.get(&key)) {
        Some(id) => String::from_str(alloc, id),
        None => path.text(),
    }
}

/// What a command answers that reads single nodes of a view, or takes or drops a lock token.
pub fn read_nodes(
    alloc: Global,
    types: &Registry,
    sight: &Sight<'_>,
    command: &Command,
) -> Result<String, Refusal>
    requires { IsFalse (reads_all command.now) }
    ensures { (base : Nodes)
        → Replies (shown types.now (sighted sight.now) base command.now) result }
{
    match command {
        Command::Get(path) => get(alloc, sight, path),
        Command::List(path) => list(alloc, types, sight, path),
        Command::Props(path) => props(alloc, sight, path),
        Command::Id(path) => id(alloc, sight, path),
        _ => replied(alloc, done_reply(alloc)),
    }
}

/// The path of the first node with an identifier (JSR 283, 5.1.4 Getting a Node by Identifier). Refused: 6 where no
/// node has it.
pub fn by_identifier(
    alloc: Global,
    part: &Part,
    overlay: &Overlay,
    id: &str,
) -> Result<String, Refusal>
    requires { LacksNothing part.now need.All }
    ensures { Replies (by_id_answer (known_view part.now overlay.now) id.now) result }
{
    match overlay.view(part.whole()) {
        Ok(view) => identified(alloc, &view, id),
        Err(AllocError) => Err(Refusal::memory(alloc)),
    }
}

/// The path of the first node with an identifier, where the view is a whole tree. Refused: 6 where no node has it.
pub fn identified(alloc: Global, view: &Tree, id: &str) -> Result<String, Refusal>
    ensures { Replies (by_id_answer (whole_view view.now) id.now) result }
{
    match find_identified(alloc, view, id) {
        Ok(Some(path)) => replied(alloc, path_reply(alloc, &path)),
        Ok(None) => Err(no_identifier(alloc, id)),
        Err(AllocError) => Err(Refusal::memory(alloc)),
    }
}

// The first node of a view with an identifier.
fn find_identified(alloc: Global, view: &Tree, id: &str) -> Result<Option<Path>, AllocError>
    ensures { IfOk result (λ found. found ≡ node_by_id (subtree_of view.now []) id.now) }
{
    is_all_below(view);
    by_id(alloc, view, id)
}

// All nodes of a tree are at or below the root. It changes nothing: callers learn the fact.
fn is_all_below(tree: &Tree)
    ensures { subtree_of tree.now [] ≡ tree.now }
{
    let _ = tree;
}

fn path_reply(alloc: Global, path: &Path) -> Result<String, AllocError>
    ensures { IfOk result (λ text. string_bytes text
        ≡ answer_text (ShowsText (path_text path.now))) }
{
    let text = path.text()?;
    text_reply(alloc, text.as_str())
}

/// The properties that refer to a node (JSR 283, 3.8.2 Referential Integrity). Refused: 15 where the path is too deep or
/// too long, 1 where there is no node.
pub fn refs(alloc: Global, part: &Part, overlay: &Overlay, path: &Path) -> Result<String, Refusal>
    requires { LacksNothing part.now need.All }
    ensures { Replies (refs_answer (known_view part.now overlay.now) path.now) result }
{
    match find_node(alloc, &Sight::new(part, overlay), path) {
        Ok(node) => replied(alloc, referrers_reply(alloc, part, overlay, path, node)),
        Err(refusal) => Err(refusal),
    }
}

fn referrers_reply(
    alloc: Global,
    part: &Part,
    overlay: &Overlay,
    path: &Path,
    node: &Node,
) -> Result<String, AllocError>
    requires { LacksNothing part.now need.All }
    ensures { IfOk result (λ text. string_bytes text ≡ answer_text (ShowsItems (referrers
        (subtree_of (view_of part.now.nodes overlay.now) [])
        (node_identifier node.now path.now)))) }
{
    let view = overlay.view(part.whole())?;
    referring_reply(alloc, &view, path, node)
}

/// The properties that refer to a node, where the view is a whole tree. Refused: 15 where the path is too deep or too
/// long, 1 where there is no node.
pub fn referring(
    alloc: Global,
    sight: &Sight<'_>,
    view: &Tree,
    path: &Path,
) -> Result<String, Refusal>
    requires { sighted sight.now ≡ whole_view view.now }
    ensures { Replies (refs_answer (whole_view view.now) path.now) result }
{
    match find_node(alloc, sight, path) {
        Ok(node) => replied(alloc, referring_reply(alloc, view, path, node)),
        Err(refusal) => Err(refusal),
    }
}

fn referring_reply(
    alloc: Global,
    view: &Tree,
    path: &Path,
    node: &Node,
) -> Result<String, AllocError>
    ensures { IfOk result (λ text. string_bytes text ≡ answer_text (ShowsItems (referrers
        (subtree_of view.now []) (node_identifier node.now path.now)))) }
{
    is_all_below(view);
    let items = referrers_of(alloc, view, path, node)?;
    items_reply(alloc, items.as_slice())
}

fn referrers_of(
    alloc: Global,
    view: &Tree,
    path: &Path,
    node: &Node,
) -> Result<Vec<Item>, AllocError>
    ensures { IfOk result (λ items. items.items
        ≡ referrers view.now (node_identifier node.now path.now)) }
{
    let id = node_identifier(alloc, node, path)?;
    referrers(alloc, view, id.as_str())
}

/// The names of the versions of a node in the order of making, whatever is pending (JSR 283, 15.1 Versions). Refused,
/// in this order: 15 where the path is too deep or too long, 4 where it is the repository's own, 1 where there is no
/// node, 12 where it isn't versionable or has no history.
pub fn versions(alloc: Global, base: &Tree, path: &Path) -> Result<String, Refusal>
    ensures { Replies (versions_answer base.now path.now) result }
{
    match find_history(alloc, "versions", base, path) {
        Ok(history) => replied(alloc, versions_reply(alloc, base, &history)),
        Err(refusal) => Err(refusal),
    }
}

fn versions_reply(alloc: Global, base: &Tree, history: &Path) -> Result<String, AllocError>
    ensures { IfOk result (λ text. string_bytes text
        ≡ answer_text (ShowsNames (version_names base.now history.now))) }
{
    let names = version_names(alloc, base, history)?;
    names_reply(alloc, names.as_slice())
}
