// What becomes of the nodes below a node that is brought to a frozen node.
ghost use Rattle.std.specs.Prelude.{◌≡◌, IfOk};
ghost use Rattle.jcr_restore.specs.Restored.{fate_below, is_brought, is_kept_back, is_staying, is_there};

use jcr_frozen::is_frozen_along;
use jr_path::{Name, Path};
use jr_tree::Tree;
use jr_types::Registry;
use std::alloc::{AllocError, Global};

/// What becomes of a node.
#[derive(Clone, Copy, PartialEq, Eq)]
pub(crate) enum Fate {
    /// It stays as it is.
    Stays,
    /// It goes, with all below it that doesn't stay.
    Goes,
    /// It is brought to its frozen node.
    Brought,
}

impl Fate {
    pub(crate) fn is_staying(self) -> bool
        ensures { result ≡ is_staying self }
    {
        matches!(self, Fate::Stays)
    }

    pub(crate) fn is_brought(self) -> bool
        ensures { result ≡ is_brought self }
    {
        matches!(self, Fate::Brought)
    }
}

/// The fate of the node by these names below one that is brought to a frozen node.
#[tactic(auto, using(crate::proofs::Ways::stays, crate::proofs::Ways::goes, crate::proofs::Ways::further))]
pub(crate) fn fate_below(
    alloc: Global,
    types: &Registry,
    tree: &Tree,
    here: &Path,
    there: &Path,
    names: &[Name],
) -> Result<Fate, AllocError>
    ensures { IfOk result (λ fate. fate ≡ fate_below types.now tree.now here.now there.now names.now) }
{
    match names {
        [] => Ok(Fate::Brought),
        [first, rest @ ..] => {
            let below = here.child(first)?;
            let frozen = there.child(first)?;
            if is_kept_back(alloc, types, tree, &below)? {
                Ok(Fate::Stays)
            } else if is_there(tree, &frozen) {
                fate_below(alloc, types, tree, &below, &frozen, rest)
            } else {
                Ok(Fate::Goes)
            }
        }
    }
}

// Whether there is a node at the path.
#[tactic(auto, unfolding(crate::specs::Restored::is_there))]
fn is_there(tree: &Tree, path: &Path) -> bool
    ensures { result ≡ is_there tree.now path.now }
{
    tree.has(path)
}

// Whether the node is there and isn't frozen with the node above.
#[tactic(auto, unfolding(crate::specs::Restored::is_kept_back))]
fn is_kept_back(
    alloc: Global,
    types: &Registry,
    tree: &Tree,
    path: &Path,
) -> Result<bool, AllocError>
    ensures { IfOk result (λ answer. answer ≡ is_kept_back types.now tree.now path.now) }
{
    if !tree.has(path) {
        return Ok(false);
    }
    Ok(!is_frozen_along(alloc, types, tree, path)?)
}
