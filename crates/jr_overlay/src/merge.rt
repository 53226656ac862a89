// A tree's nodes with touched nodes in their places, all lent.
ghost use Rattle.std.specs.Prelude.{◌≡◌, ◌≤◌, ◌++◌, IfOk, IsTrue, OnOk, drop, length, map};
ghost use Rattle.std.specs.FinMap.{is_sorted};
ghost use Rattle.std.specs.Map.Iter.{deref_pair};
ghost use Rattle.jr_path.specs.Names.{path_cmp};
ghost use Rattle.jr_overlay.specs.Overlays.{view_of};
ghost use Rattle.jr_overlay.specs.Merging.{before, behind, node_there};

use crate::Change;
use jr_path::Path;
use jr_tree::Node;
use std::alloc::{AllocError, Global};
use std::cmp::Ordering;

// A node, lent, with its path from the root.
type Found<'a> = (&'a Path, &'a Node);

// The nodes with each touched one in its place, in path order.
pub(crate) fn merged<'a>(
    alloc: Global,
    known: &[Found<'a>],
    touched: &[(&'a Path, &'a Change)],
) -> Result<Vec<Found<'a>>, AllocError>
    requires known { IsTrue (is_sorted path_cmp (map deref_pair known.now)) }
    requires touched { IsTrue (is_sorted path_cmp (map deref_pair touched.now)) }
    ensures { IfOk result (λ found. map deref_pair found.items
        ≡ view_of (map deref_pair known.now) (map deref_pair touched.now)) }
{
    let mut found = Vec::new(alloc);
    let mut from = 0;
    for (path, change) in touched {
        let passed = lend_before(&mut found, &known[from..], path)?;
        from += passed;
        lend_new(&mut found, path, change)?;
    }
    lend_all(&mut found, &known[from..])?;
    Ok(found)
}

// Lends the nodes before a path. The answer is how many stand before those behind it.
fn lend_before<'a>(
    found: &mut Vec<Found<'a>>,
    known: &[Found<'a>],
    path: &Path,
) -> Result<usize, AllocError>
    requires { IsTrue (is_sorted path_cmp (map deref_pair known.now)) }
    ensures lent { OnOk result (map deref_pair found.new.items
        ≡ map deref_pair found.old.items ++ before path.now (map deref_pair known.now)) }
    ensures within { IfOk result (λ n. n ≤ length known.now) }
    ensures rest { IfOk result (λ n. map deref_pair (drop n known.now)
        ≡ behind path.now (map deref_pair known.now)) }
{
    for at in 0..known.len() {
        let entry = known[at];
        match entry.0.cmp(path) {
            Ordering::Less => found.push(entry)?,
            Ordering::Equal => return Ok(at + 1),
            Ordering::Greater => return Ok(at),
        }
    }
    Ok(known.len())
}

fn lend_new<'a>(
    found: &mut Vec<Found<'a>>,
    path: &'a Path,
    change: &'a Change,
) -> Result<(), AllocError>
    ensures { OnOk result (map deref_pair found.new.items
        ≡ map deref_pair found.old.items ++ node_there path.now change.now.new) }
{
    if let Some(node) = &change.new {
        found.push((path, node))?;
    }
    Ok(())
}

fn lend_all<'a>(found: &mut Vec<Found<'a>>, known: &[Found<'a>]) -> Result<(), AllocError>
    ensures { OnOk result (map deref_pair found.new.items
        ≡ map deref_pair found.old.items ++ map deref_pair known.now) }
{
    found.extend_from_slice(known)
}
