// The nodes that references name.
ghost use Rattle.std.specs.Prelude.{◌≡◌, ◌++◌, [], Some, IfOk, OnOk};
ghost use Rattle.std.specs.List.{cons_option, filter_map};
ghost use Rattle.std.specs.Option.{option_copied};
ghost use Rattle.jcr_ref.specs.References.{target_of};
ghost use Rattle.jcr_ref.specs.Targets.{FindsTargets, node_by_text, with_first};

use crate::identifiers::uuid_text;
use jr_items::{OwnName, one_text};
use jr_path::{DeepCopy, Keyed, Path, Text};
use jr_tree::Tree;
use std::alloc::{AllocError, Global};

/// The nodes that these references name, in their order: of each the first in path order that has it as its `jcr:uuid`
/// (JSR 283, 3.8.2 Referential Integrity); one that names no node is passed over. It goes once over the tree, with an
/// index of the identifiers, and not at all where there are no references.
pub fn targets_of(alloc: Global, tree: &Tree, ids: &[u128]) -> Result<Vec<Path>, AllocError>
    ensures { IfOk result (λ paths. paths.items ≡ filter_map (target_of tree.now) ids.now) }
{
    if ids.is_empty() {
        return Ok(Vec::new(alloc));
    }
    let index = first_nodes(alloc, tree)?;
    nodes_in(alloc, &index, ids)
}

// The nodes that an index has for these references.
fn nodes_in(alloc: Global, index: &Keyed<Text, Path>, ids: &[u128]) -> Result<Vec<Path>, AllocError>
    ensures { IfOk result (λ paths. paths.items ≡ filter_map (node_by_text index.now) ids.now) }
{
    let mut paths = Vec::new(alloc);
    for id in ids {
        push_node(&mut paths, alloc, index, *id)?;
    }
    Ok(paths)
}

fn push_node(
    paths: &mut Vec<Path>,
    alloc: Global,
    index: &Keyed<Text, Path>,
    id: u128,
) -> Result<(), AllocError>
    ensures { OnOk result (paths.new.items ≡ paths.old.items ++ cons_option (node_by_text index.now id) []) }
{
    match node_in(alloc, index, id)? {
        Some(path) => {
            paths.push(path.copy()?)?;
            Ok(())
        }
        None => Ok(()),
    }
}

fn node_in(alloc: Global, index: &Keyed<Text, Path>, id: u128) -> Result<Option<&Path>, AllocError>
    ensures { IfOk result (λ found. option_copied found ≡ node_by_text index.now id) }
{
    let text = Text::of(uuid_text(alloc, id)?);
    Ok(index.get(&text))
}

// For the text of each identifier the first node that has it.
fn first_nodes(alloc: Global, tree: &Tree) -> Result<Keyed<Text, Path>, AllocError>
    ensures { IfOk result (FindsTargets tree.now) }
{
    let uuid = OwnName::Uuid.name(alloc)?;
    let mut index = Keyed::new(alloc);
    for (at, _) in tree.iter() {
        note_first(&mut index, alloc, one_text(tree.property(at, &uuid)), at)?;
    }
    Ok(index)
}

// Notes the node of an identifier, if there is one that has none yet.
fn note_first(
    index: &mut Keyed<Text, Path>,
    alloc: Global,
    id: Option<&str>,
    at: &Path,
) -> Result<(), AllocError>
    ensures { OnOk result (index.new ≡ with_first index.old (option_copied id.entry) at.now) }
{
    match id {
        Some(id) => note_new(index, Text::copy_of(alloc, id)?, at),
        None => Ok(()),
    }
}

fn note_new(index: &mut Keyed<Text, Path>, id: Text, at: &Path) -> Result<(), AllocError>
    ensures { OnOk result (index.new ≡ with_first index.old (Some id) at.now) }
{
    if index.contains(&id) {
        return Ok(());
    }
    index.put(id, at.copy()?)
}
