// The whole tree at an earlier base, while what changed since is read.
ghost use Rattle.std.specs.Prelude.{◌≡◌, IfOk, IfSome, None, is_some, Contains, Some, slice_get};
ghost use Rattle.jr_tree.specs.Trees.{IsTree, Nodes};
ghost use Rattle.jr_part.specs.declared.need.Need.TheVariants as need;
ghost use Rattle.jr_part.specs.Parts.{AgreesWith, LacksNothing, known_at};
ghost use Rattle.jr_known.specs.Earlier.{AreKnown, IsEarlierThan};

use crate::gone::leave_gone;
use crate::renewal::{begin_lists, renew_all};
use jr_part::Part;
use jr_path::{DeepCopy, List, Path};
use std::alloc::AllocError;
use std::marker::Model;

/// The whole tree at an earlier base, and the paths that were told to have changed since. It notes
/// how many of these were found to be read, so that none is looked up again for each of the others.
pub struct EarlierTree {
    part: Part,
    told: List<Path>,
    read: usize,
}

// By hand, so that its parts are let go in one call.
impl Drop for EarlierTree {
    fn drop(self) {
        let EarlierTree {
            part,
            told,
            read: _,
        } = self;
        drop(part);
        drop(told);
    }
}

impl Model for EarlierTree {
    ghost use Rattle.jr_part.specs.declared.need.Need.TheVariants as need;
    ghost use Rattle.jr_part.specs.Parts.{LacksNothing};
    ghost use Rattle.jr_known.specs.Earlier.{Earlier};

    ghost Value = { Earlier };

    ghost view = { λ e. record { part = e.part; told = e.told } };

    ghost invariant = { λ e. LacksNothing e.part need.All };
}

impl EarlierTree {
    // The whole tree, and paths that were told to have changed since. It takes no memory.
    pub(crate) fn of(part: Part, told: List<Path>) -> EarlierTree
        requires { LacksNothing part need.All }
        ensures { result ≡ record { part = part; told = told } }
    {
        EarlierTree {
            part,
            told,
            read: 0,
        }
    }

    /// A told path of which it isn't known what is there; None where that is known of all.
    pub fn next_unread(&mut self, fresh: &Part) -> Result<Option<Path>, AllocError>
        ensures same { self.new ≡ self.old }
        ensures told { IfOk result (λ next. IfSome next (λ p. Contains self.old.told p)) }
        ensures unread { IfOk result (λ next. IfSome next (λ p. known_at fresh.now p ≡ None)) }
        ensures read { IfOk result (λ next. next ≡ None → AreKnown fresh.now self.old.told) }
    {
        self.read = next_place(self.told.as_slice(), self.read, fresh);
        path_at(self.told.as_slice(), self.read)
    }

    /// The new tree, once each told path is read: the node there is in the place of the earlier
    /// one, and in the list of the children of the node above. Nothing of it lacks.
    pub fn renew(self, fresh: &Part) -> Result<Part, AllocError>
        requires { AreKnown fresh.now self.told }
        ensures agrees { (t : Nodes) → IsTree t → IsEarlierThan t self → AgreesWith t fresh.now
            → IfOk result (AgreesWith t) }
        ensures whole { (t : Nodes) → IsTree t → IsEarlierThan t self → AgreesWith t fresh.now
            → IfOk result (λ part. LacksNothing part need.All) }
    {
        let EarlierTree {
            mut part,
            told,
            read: _,
        } = self;
        let alloc = *told.inner().allocator();
        leave_gone(&mut part, alloc, told.as_slice(), fresh)?;
        part.in_order();
        begin_lists(&mut part, alloc, told.as_slice())?;
        renew_all(&mut part, alloc, told.as_slice(), fresh)?;
        part.in_order();
        Ok(part)
    }
}

// A copy of the path at a place.
fn path_at(told: &[Path], at: usize) -> Result<Option<Path>, AllocError>
    ensures { IfOk result (λ path. path ≡ slice_get told.now at) }
{
    match told.get(at) {
        Some(path) => Ok(Some(path.copy()?)),
        None => Ok(None),
    }
}

// The place of a told path of which it isn't known what is there, found from one on, and else from
// the first; the end where there is none.
fn next_place(told: &[Path], from: usize, fresh: &Part) -> usize
    ensures unread { (p : _) → slice_get told.now result ≡ Some p → known_at fresh.now p ≡ None }
    ensures read { slice_get told.now result ≡ None → AreKnown fresh.now told.now }
{
    let at = first_unread(told, from, fresh);
    if at < told.len() {
        return at;
    }
    first_unread(told, 0, fresh)
}

// The place, from one on, of the first told path of which it isn't known what is there; the end
// where there is none.
fn first_unread(told: &[Path], from: usize, fresh: &Part) -> usize
    ensures unread { (p : _) → slice_get told.now result ≡ Some p → known_at fresh.now p ≡ None }
    ensures read { from ≡ 0 → slice_get told.now result ≡ None → AreKnown fresh.now told.now }
{
    for at in from..told.len() {
        if fresh.node(&told[at]).is_none() {
            return at;
        }
    }
    told.len()
}
