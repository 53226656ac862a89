// Marks, and which of them clash.
ghost use Rattle.std.specs.Prelude.{◌≡◌};
ghost use Rattle.std.specs.Ordering.{is_lt};
ghost use Rattle.oak_clash.specs.Clashes.{clash, is_earlier};

use jr_path::{DeepCopy, Name, Path};
use std::alloc::AllocError;

/// What a commit does at a node, as far as other commits have to know it (Oak, DocumentNodeStore:
/// conflicts). Ordered Exists, Guard, Touch, then Prop by name.
#[derive(PartialEq, Eq, PartialOrd, Ord)]
pub enum Mark {
    /// The node is added or removed.
    Exists,
    /// The node stays, and its types, or the lock or checked-in node that covers it, change.
    Guard,
    /// A child is added or removed or changes its types, or a new reference points to the node.
    Touch,
    /// The property of this name is written.
    Prop(Name),
}

// By hand, so that its parts are let go in one call.
impl Drop for Mark {
    fn drop(self) {
        match self {
            Mark::Exists => {}
            Mark::Guard => {}
            Mark::Touch => {}
            Mark::Prop(name) => drop(name),
        }
    }
}

/// A mark with the path of its node, in path order, and at one path in the order of marks.
#[derive(PartialEq, Eq, PartialOrd, Ord)]
pub struct MarkAt {
    pub path: Path,
    pub mark: Mark,
}

// By hand, so that its parts are let go in one call.
impl Drop for MarkAt {
    fn drop(self) {
        let MarkAt { path, mark } = self;
        drop(path);
        drop(mark);
    }
}

impl DeepCopy for Mark {
    fn copy(&self) -> Result<Mark, AllocError> {
        match self {
            Mark::Exists => Ok(Mark::Exists),
            Mark::Guard => Ok(Mark::Guard),
            Mark::Touch => Ok(Mark::Touch),
            Mark::Prop(name) => Ok(Mark::Prop(name.copy()?)),
        }
    }
}

impl DeepCopy for MarkAt {
    fn copy(&self) -> Result<MarkAt, AllocError> {
        Ok(MarkAt {
            path: self.path.copy()?,
            mark: self.mark.copy()?,
        })
    }
}

/// Whether two marks at one path clash: Exists and Guard with every mark, Prop with Prop of its name, and
/// no other pair.
pub fn clashes(a: &Mark, b: &Mark) -> bool
    ensures { result ≡ clash a.now b.now }
{
    match (a, b) {
        (Mark::Exists | Mark::Guard, _) | (_, Mark::Exists | Mark::Guard) => true,
        (Mark::Prop(m), Mark::Prop(n)) => m == n,
        _ => false,
    }
}

/// Which of two marks is asked makes no difference.
pub fn symmetry_of_clashes()
    ensures { (a b : _) → clash a b ≡ clash b a }
{}

/// Marks are ordered Exists, Guard, Touch, then Prop by name.
pub fn order_of_marks()
    ensures { (a b : _) → is_lt (⟦<Mark as Ord>⟧.cmp a b) ≡ is_earlier a b }
{}
