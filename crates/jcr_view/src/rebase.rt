// Pending changes made again on another tree.
ghost use Rattle.std.specs.Prelude.{◌≡◌, [], IfOk, OnOk, fold, map, option_map};
ghost use Rattle.std.specs.Map.Iter.{deref_pair};
ghost use Rattle.jr_overlay.specs.Drafts.{in_draft};
ghost use Rattle.jr_overlay.specs.Overlays.{known_view, sighted};
ghost use Rattle.jr_tree.specs.declared.edit.Write.TheVariants.{Here, Gone, Put, Unset};
ghost use Rattle.jcr_view.specs.Rebases.{again, rebased, steps_again};
ghost use Rattle.jcr_write.specs.Places.{with_property, without_property};
ghost use Rattle.jr_overlay.specs.Views.{all_gone};

use jcr_write::{above, with_property, without_property};
use jr_overlay::{Draft, Overlay, Sight};
use jr_part::Part;
use jr_path::{DeepCopy, Keyed, Name, Path};
use jr_tree::{Node, Write};
use jr_value::Property;
use std::alloc::{AllocError, Global};

/// The changes that writes make of another tree, of which so much is known.
pub(crate) fn rebased(alloc: Global, part: &Part, writes: &[Write]) -> Result<Overlay, AllocError>
    ensures { IfOk result (λ overlay. overlay ≡ rebased part.now writes.now) }
{
    let steps = steps_again(alloc, part, writes)?;
    let mut overlay = Overlay::new(alloc);
    overlay.commit(part, steps)?;
    Ok(overlay)
}

// The steps that writes make of a tree in which nothing is pending.
fn steps_again(
    alloc: Global,
    part: &Part,
    writes: &[Write],
) -> Result<Keyed<Path, Option<Node>>, AllocError>
    ensures { IfOk result (λ steps. steps ≡ steps_again (known_view part.now []) writes.now) }
{
    let overlay = Overlay::new(alloc);
    let mut draft = Draft::new(alloc, Sight::new(part, &overlay));
    make_again(alloc, &mut draft, writes)?;
    Ok(draft.into_steps())
}

// Writes made again, one after the other.
fn make_again(alloc: Global, draft: &mut Draft<'_>, writes: &[Write]) -> Result<(), AllocError>
    ensures sight { draft.new.sight ≡ draft.old.sight }
    ensures steps { OnOk result (draft.new.steps
        ≡ fold (again (sighted draft.old.sight)) draft.old.steps writes.now) }
{
    for write in writes {
        write_again(alloc, draft, write)?;
    }
    Ok(())
}

// One write made again.
fn write_again(alloc: Global, draft: &mut Draft<'_>, write: &Write) -> Result<(), AllocError>
    ensures sight { draft.new.sight ≡ draft.old.sight }
    ensures steps { OnOk result (draft.new.steps
        ≡ again (sighted draft.old.sight) draft.old.steps write.now) }
{
    match write {
        Write::Here(path) => come(alloc, draft, path),
        Write::Gone(path) => go(draft, path),
        Write::Put(path, name, property) => put(draft, path, name, property),
        Write::Unset(path, name) => unset(draft, path, name),
    }
}

// A node comes where the node above stands and none is there.
fn come(alloc: Global, draft: &mut Draft<'_>, path: &Path) -> Result<(), AllocError>
    ensures sight { draft.new.sight ≡ draft.old.sight }
    ensures steps { OnOk result (draft.new.steps
        ≡ again (sighted draft.old.sight) draft.old.steps (Here path.now)) }
{
    let above = above(alloc, path)?;
    if draft.node(&above).is_some() && draft.node(path).is_none() {
        draft.put(path, Some(Node::new(alloc)))
    } else {
        Ok(())
    }
}

// A node goes with all beneath it.
fn go(draft: &mut Draft<'_>, path: &Path) -> Result<(), AllocError>
    ensures sight { draft.new.sight ≡ draft.old.sight }
    ensures steps { OnOk result (draft.new.steps
        ≡ again (sighted draft.old.sight) draft.old.steps (Gone path.now)) }
{
    let nodes = draft.sight().below(path)?;
    put_all_gone(draft, &nodes)
}

// Each of these nodes goes.
fn put_all_gone(draft: &mut Draft<'_>, nodes: &[(&Path, &Node)]) -> Result<(), AllocError>
    ensures sight { draft.new.sight ≡ draft.old.sight }
    ensures ok { OnOk result (draft.new.steps
        ≡ all_gone draft.old.steps (map deref_pair nodes.now)) }
{
    for (at, _) in nodes {
        draft.put(at, None)?;
    }
    Ok(())
}

// A property is put where its node stands.
fn put(
    draft: &mut Draft<'_>,
    path: &Path,
    name: &Name,
    property: &Property,
) -> Result<(), AllocError>
    ensures sight { draft.new.sight ≡ draft.old.sight }
    ensures steps { OnOk result (draft.new.steps
        ≡ again (sighted draft.old.sight) draft.old.steps (Put path.now name.now property.now)) }
{
    match node_put(draft, path, name, property)? {
        Some(node) => draft.put(path, Some(node)),
        None => Ok(()),
    }
}

// The node at a path with one property put.
fn node_put(
    draft: &Draft<'_>,
    path: &Path,
    name: &Name,
    property: &Property,
) -> Result<Option<Node>, AllocError>
    ensures { IfOk result (λ node. node ≡ option_map
        (λ old. with_property old name.now property.now) (in_draft draft.now path.now)) }
{
    match draft.node(path) {
        Some(node) => Ok(Some(with_property(node, name, property.copy()?)?)),
        None => Ok(None),
    }
}

// A property is unset where its node stands.
fn unset(draft: &mut Draft<'_>, path: &Path, name: &Name) -> Result<(), AllocError>
    ensures sight { draft.new.sight ≡ draft.old.sight }
    ensures steps { OnOk result (draft.new.steps
        ≡ again (sighted draft.old.sight) draft.old.steps (Unset path.now name.now)) }
{
    match node_unset(draft, path, name)? {
        Some(node) => draft.put(path, Some(node)),
        None => Ok(()),
    }
}

// The node at a path with one property unset.
fn node_unset(draft: &Draft<'_>, path: &Path, name: &Name) -> Result<Option<Node>, AllocError>
    ensures { IfOk result (λ node. node ≡ option_map (λ old. without_property old name.now)
        (in_draft draft.now path.now)) }
{
    match draft.node(path) {
        Some(node) => Ok(Some(without_property(node, name)?)),
        None => Ok(None),
    }
}
