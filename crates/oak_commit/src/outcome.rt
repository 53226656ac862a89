// How a commit ends.
use jr_path::Item;
use jr_rev::Revision;

/// How a commit ends.
#[derive(Drop)]
pub enum CommitEnd {
    Committed(Revision),
    /// It was refused for another commit that it clashes with in its item.
    Clash { item: Item, other: Revision },
    /// Memory was refused before the commit point.
    Memory,
}
