// The nodes of an earlier tree that are gone leave it by one edit, which copies no other node.
ghost use Rattle.std.specs.Prelude.{◌≡◌, IfOk, OnOk};
ghost use Rattle.jr_tree.specs.Trees.{IsTree, Nodes};
ghost use Rattle.jr_part.specs.declared.need.Need.TheVariants as need;
ghost use Rattle.jr_part.specs.Parts.{AgreesWith, LacksNothing};
ghost use Rattle.jr_known.specs.Earlier.{AreKnown, IsEarlierThan};
ghost use Rattle.jr_known.specs.Gone.{gone_nodes, is_gone, with_gone};

use jr_part::Part;
use jr_path::{DeepCopy, Path};
use jr_tree::{Tree, changes};
use std::alloc::{AllocError, Global};

// Of the whole earlier tree what is gone at told paths goes. The new tree still is what is left,
// but at told paths.
pub(crate) fn leave_gone(
    part: &mut Part,
    alloc: Global,
    told: &[Path],
    fresh: &Part,
) -> Result<(), AllocError>
    requires whole { LacksNothing part.old need.All }
    requires known { AreKnown fresh.now told.now }
    ensures whole { OnOk result (LacksNothing part.new need.All) }
    ensures earlier { (t : Nodes) → IsTree t → AgreesWith t fresh.now
        → IsEarlierThan t (record { part = part.old; told = told.now })
        → OnOk result (IsEarlierThan t (record { part = part.new; told = told.now })) }
{
    part.in_order();
    let gone = gone_nodes(part, alloc, told, fresh)?;
    let edit = changes(&gone, &Tree::new(alloc))?;
    part.apply(&edit, None)?;
    Ok(())
}

// Copies of the nodes that were at told paths and are gone.
fn gone_nodes(part: &Part, alloc: Global, told: &[Path], fresh: &Part) -> Result<Tree, AllocError>
    ensures { IfOk result (λ gone. gone ≡ gone_nodes part.now fresh.now told.now) }
{
    let mut gone = Tree::new(alloc);
    for path in told {
        note_gone(&mut gone, part, path, fresh)?;
    }
    Ok(gone)
}

fn note_gone(gone: &mut Tree, part: &Part, path: &Path, fresh: &Part) -> Result<(), AllocError>
    ensures { OnOk result (gone.new ≡ with_gone part.now fresh.now gone.old path.now) }
{
    if !is_gone(fresh, path) {
        return Ok(());
    }
    match part.node(path) {
        Some(Some(node)) => gone.insert(path.copy()?, node.copy()?),
        Some(None) | None => Ok(()),
    }
}

fn is_gone(fresh: &Part, path: &Path) -> bool
    ensures { result ≡ is_gone fresh.now path.now }
{
    match fresh.node(path) {
        Some(None) => true,
        Some(Some(_)) | None => false,
    }
}
