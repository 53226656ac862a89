// What is asked of a tree.
use jr_path::{DeepCopy, Path};
use std::alloc::AllocError;

/// What is asked of a tree: the node at a path, or that none is there; the names of the children of
/// a node; all that is at or below a path; or the whole tree.
#[derive(Drop)]
pub enum Need {
    Node(Path),
    Children(Path),
    Subtree(Path),
    All,
}

impl DeepCopy for Need {
    fn copy(&self) -> Result<Need, AllocError> {
        match self {
            Need::Node(path) => Ok(Need::Node(path.copy()?)),
            Need::Children(path) => Ok(Need::Children(path.copy()?)),
            Need::Subtree(path) => Ok(Need::Subtree(path.copy()?)),
            Need::All => Ok(Need::All),
        }
    }
}
