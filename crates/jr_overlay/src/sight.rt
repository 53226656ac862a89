// What is seen of a view, where a part of the tree at its base is known.
ghost use Rattle.std.specs.Prelude.{◌≡◌, [], IfOk, IsTrue, OnOk, map};
ghost use Rattle.std.specs.FinMap.{is_sorted};
ghost use Rattle.std.specs.Option.{option_copied, unwrap_or};
ghost use Rattle.std.specs.Map.Iter.{deref_pair};
ghost use Rattle.jr_path.specs.Names.{name_cmp};
ghost use Rattle.jr_part.specs.Parts.{list_at};
ghost use Rattle.jr_overlay.specs.Merging.{with_child_name};
ghost use Rattle.jr_overlay.specs.Overlays.{sighted, with_child};

use crate::{Change, Overlay};
use jr_part::Part;
use jr_path::{DeepCopy, Keyed, List, Name, Path};
use jr_rev::Revision;
use jr_tree::{Node, is_child};
use std::alloc::{AllocError, Global};
use std::marker::Model;

type Names = Keyed<Name, Option<Revision>>;

/// A view over a part of the tree at its base.
#[derive(Drop)]
pub struct Sight<'a> {
    part: &'a Part,
    overlay: &'a Overlay,
}

impl<'a> Model for Sight<'a> {
    ghost use Rattle.jr_overlay.specs.Overlays.{Sighted};

    ghost Value = { Sighted };

    ghost view = { λ s. record { known = s.part.now; changed = s.overlay.now } };
}

impl<'a> Sight<'a> {
    /// The view of this part of the tree with these touched nodes. It takes no memory.
    pub fn new(part: &'a Part, overlay: &'a Overlay) -> Sight<'a>
        ensures known { result.known ≡ part.now }
        ensures changed { result.changed ≡ overlay.now }
    {
        Sight { part, overlay }
    }

    /// The node at a path (JSR 283, 5.1 Direct Access).
    pub fn node(&self, path: &Path) -> Option<&'a Node>
        ensures { option_copied result ≡ (sighted self.now).node path.now }
    {
        let overlay = self.overlay;
        match overlay.changes.get(path) {
            Some(change) => change.new.as_ref(),
            None => self.part.node(path).flatten(),
        }
    }

    /// The nodes at or below a path, lent, with their paths from the root, in path order. It looks only at what is
    /// known and touched there.
    pub fn below(&self, path: &Path) -> Result<Vec<(&'a Path, &'a Node)>, AllocError>
        ensures { IfOk result (λ found. map deref_pair found.items
            ≡ (sighted self.now).below path.now) }
    {
        let part = self.part;
        part.in_order();
        self.overlay.below(&part.under(path)?, path)
    }

    /// The names of the children of the node at a path, in ascending order, each with the revision that added the
    /// child, or none where it is pending (JSR 283, 5.2 Traversal Access).
    pub fn children(&self, path: &Path) -> Result<List<(Name, Option<Revision>)>, AllocError>
        ensures { IfOk result (λ names. names ≡ (sighted self.now).children path.now) }
    {
        let overlay = self.overlay;
        let mut names = known_names(overlay.alloc, self.part, path)?;
        for (at, change) in &overlay.under(path)? {
            put_child(&mut names, path, at, change)?;
        }
        listed(overlay.alloc, names)
    }
}

// The names of the children that are known, or none.
fn known_names(alloc: Global, part: &Part, path: &Path) -> Result<Names, AllocError>
    ensures { IfOk result (λ names. names ≡ unwrap_or (list_at part.now path.now) []) }
{
    part.in_order();
    match part.children(path) {
        Some(names) => keyed(alloc, names),
        None => Ok(Keyed::new(alloc)),
    }
}

fn keyed(alloc: Global, names: &[(Name, Option<Revision>)]) -> Result<Names, AllocError>
    requires { IsTrue (is_sorted name_cmp names.now) }
    ensures { IfOk result (λ map. map ≡ names.now) }
{
    let mut map = Keyed::new(alloc);
    for (name, born) in names {
        map.put(name.copy()?, *born)?;
    }
    Ok(map)
}

// Puts, dates or takes away the name of a touched node, where this is a child of the path.
fn put_child(names: &mut Names, path: &Path, at: &Path, change: &Change) -> Result<(), AllocError>
    ensures { OnOk result (names.new ≡ with_child path.now names.old (at.now, change.now)) }
{
    if !is_child(path, at) {
        return Ok(());
    }
    match at.last_name() {
        Some(name) => put_name(names, name, &change.new),
        None => Ok(()),
    }
}

fn put_name(names: &mut Names, name: &Name, node: &Option<Node>) -> Result<(), AllocError>
    ensures { OnOk result (names.new ≡ with_child_name names.old name.now node.now) }
{
    match node {
        Some(node) => names.put(name.copy()?, node.born),
        None => {
            names.remove(name);
            Ok(())
        }
    }
}

fn listed(alloc: Global, names: Names) -> Result<List<(Name, Option<Revision>)>, AllocError>
    ensures { IfOk result (λ list. list ≡ names) }
{
    let mut list = Vec::new(alloc);
    for entry in names.into_inner() {
        list.push(entry)?;
    }
    Ok(List::of(list))
}
