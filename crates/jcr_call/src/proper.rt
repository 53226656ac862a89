// Whether writes are proper on a tree.
ghost use Rattle.std.specs.Prelude.{◌≡◌, ◌∷◌, ◌++◌, [], IfOk, IsTrue, List, None, OnOk, false};
ghost use Rattle.std.specs.List.{list_all};
ghost use Rattle.std.specs.Option.{option_copied, option_map_or};
ghost use Rattle.jr_value.specs.Values.{same_property};
ghost use Rattle.jr_tree.specs.Edits.{applied, is_change, is_emptied, is_once};
ghost use Rattle.jr_tree.specs.declared.edit.Write.{Write};
ghost use Rattle.jr_tree.specs.Trees.{IsTree};
ghost use Rattle.jcr_law.specs.Proper.{is_proper};
ghost use Rattle.jcr_call.specs.Unset.{AreUnset, has_property};

use crate::rooted::leaves_tree;
use jr_edited::Edited;
use jr_path::{DeepCopy, Item, Keyed, Name, Path};
use jr_tree::{Edit, Tree, Write};
use jr_value::Property;
use std::alloc::{AllocError, Global};
use std::collections::BTreeSet;

/// Whether an edit is proper on a tree: the tree after it, which the caller lends, is one, it
/// writes each item once and changes it, and it unsets each property of a node that goes (JSR 283,
/// 10.11 Saving). Where the tree before is known to be one, it looks only at what is written.
pub fn is_proper(
    alloc: Global,
    known: bool,
    tree: &Tree,
    after: &Edited<'_>,
    edit: &Edit,
) -> Result<bool, AllocError>
    requires { after.now ≡ applied None tree.now edit.now.writes }
    ensures { (IsTrue known → IsTree tree.now)
        → IfOk result (λ b. b ≡ is_proper tree.now edit.now.writes) }
{
    let writes = edit.writes.as_slice();
    if !leaves_tree(alloc, known, after, writes)? {
        return Ok(false);
    }
    if !is_once(alloc, writes)? {
        return Ok(false);
    }
    if !all_change(tree, after, writes) {
        return Ok(false);
    }
    all_emptied(alloc, tree, writes)
}

// Whether each item is written once.
fn is_once(alloc: Global, writes: &[Write]) -> Result<bool, AllocError>
    ensures { IfOk result (λ b. b ≡ is_once writes.now) }
{
    let mut seen = BTreeSet::new(alloc);
    for at in (0..writes.len()).rev() {
        if !seen.insert(writes[at].item()?)? {
            return Ok(false);
        }
    }
    Ok(true)
}

// Whether each write changes its item from one tree to another.
fn all_change(old: &Tree, new: &Edited<'_>, writes: &[Write]) -> bool
    ensures { result ≡ list_all (is_change old.now new.now) writes.now }
{
    writes.iter().all(|write| is_change(old, new, write))
}

fn is_change(old: &Tree, new: &Edited<'_>, write: &Write) -> bool
    ensures { result ≡ is_change old.now new.now write.now }
{
    match write {
        Write::Here(path) => !old.has(path) && new.has(path),
        Write::Gone(path) => old.has(path) && !new.has(path),
        Write::Put(path, name, property) => {
            !is_same(old.property(path, name), property)
                && is_same(new.property(path, name), property)
        }
        Write::Unset(path, name) => {
            old.property(path, name).is_some() && new.property(path, name).is_none()
        }
    }
}

// Whether the property is there, and the same as this one.
fn is_same(found: Option<&Property>, property: &Property) -> bool
    ensures { result
        ≡ option_map_or (same_property property.now) (option_copied found.entry) false }
{
    match found {
        Some(found) => property == found,
        None => false,
    }
}

// Whether each property of each node that goes is unset.
fn all_emptied(alloc: Global, tree: &Tree, writes: &[Write]) -> Result<bool, AllocError>
    ensures { IfOk result (λ b. b ≡ list_all (is_emptied tree.now writes.now) writes.now) }
{
    let unset = unset_items(alloc, writes)?;
    for write in writes {
        if !is_emptied(tree, &unset, write)? {
            return Ok(false);
        }
    }
    Ok(true)
}

// The properties that writes unset, as items.
fn unset_items(alloc: Global, writes: &[Write]) -> Result<BTreeSet<Item>, AllocError>
    ensures { IfOk result (AreUnset writes.now) }
{
    let mut unset = BTreeSet::new(alloc);
    for write in writes {
        note_unset(&mut unset, write)?;
    }
    Ok(unset)
}

// Notes the property that a write unsets, if it does.
fn note_unset(unset: &mut BTreeSet<Item>, write: &Write) -> Result<(), AllocError>
    ensures { OnOk result ((ws : List Write) → AreUnset ws unset.old
        → AreUnset (ws ++ write.now ∷ []) unset.new) }
{
    if let Write::Unset(..) = write {
        unset.insert(write.item()?)?;
    }
    Ok(())
}

// Whether each property of the node is unset, if the node goes.
fn is_emptied(tree: &Tree, unset: &BTreeSet<Item>, write: &Write) -> Result<bool, AllocError>
    ensures { (ws : List Write) → AreUnset ws unset.now
        → IfOk result (λ b. b ≡ is_emptied tree.now ws write.now) }
{
    let Write::Gone(path) = write else {
        return Ok(true);
    };
    match tree.get(path) {
        Some(node) => are_unset(unset, path, &node.props),
        None => Ok(true),
    }
}

// Whether each of the properties of the node at a path is unset.
fn are_unset(
    unset: &BTreeSet<Item>,
    path: &Path,
    props: &Keyed<Name, Property>,
) -> Result<bool, AllocError>
    ensures { IfOk result (λ b. b
        ≡ list_all (λ e. has_property unset.now path.now e.0) props.now) }
{
    for (name, _) in props.iter() {
        if !has_property(unset, path, name)? {
            return Ok(false);
        }
    }
    Ok(true)
}

// Whether the property of that name of the node at a path is among the items.
fn has_property(items: &BTreeSet<Item>, path: &Path, name: &Name) -> Result<bool, AllocError>
    ensures { IfOk result (λ b. b ≡ has_property items.now path.now name.now) }
{
    let item = Item {
        path: path.copy()?,
        name: Some(name.copy()?),
    };
    Ok(items.contains(&item))
}
