// Edits: lists of writes of items.
ghost use Rattle.std.specs.Prelude.{◌≡◌, IfOk, map};
ghost use Rattle.std.specs.Map.Iter.{deref};
ghost use Rattle.jr_tree.specs.declared.edit.Write.TheVariants as write;
ghost use Rattle.jr_tree.specs.Edits.{item_of, last_writes};

use jr_path::{DeepCopy, Item, List, Name, Path};
use jr_value::Property;
use std::alloc::AllocError;
use std::collections::BTreeSet;

/// A write of one item (JSR 283, 3.1 Items): a node comes or goes, a property of a node is put or unset.
pub enum Write {
    Here(Path),
    Gone(Path),
    Put(Path, Name, Property),
    Unset(Path, Name),
}

// By hand, so that its parts are let go in one call.
impl Drop for Write {
    fn drop(self) {
        match self {
            Write::Here(path) => drop(path),
            Write::Gone(path) => drop(path),
            Write::Put(path, name, property) => {
                drop(path);
                drop(name);
                drop(property);
            }
            Write::Unset(path, name) => {
                drop(path);
                drop(name);
            }
        }
    }
}

/// Writes of items. The last write of an item counts, and those of nodes come before those of properties.
pub struct Edit {
    pub writes: List<Write>,
}

// By hand, so that its parts are let go in one call.
impl Drop for Edit {
    fn drop(self) {
        let Edit { writes } = self;
        drop(writes);
    }
}

impl Write {
    /// The item that it writes.
    pub fn item(&self) -> Result<Item, AllocError>
        ensures { IfOk result (λ item. item ≡ item_of self.now) }
    {
        match self {
            Write::Here(path) | Write::Gone(path) => Ok(Item {
                path: path.copy()?,
                name: None,
            }),
            Write::Put(path, name, _) | Write::Unset(path, name) => Ok(Item {
                path: path.copy()?,
                name: Some(name.copy()?),
            }),
        }
    }

    /// The path of the node that it writes, or whose property it writes.
    pub fn path(&self) -> &Path
        ensures { result.now ≡ (item_of self.now).path }
    {
        match self {
            Write::Here(path) | Write::Gone(path) => path,
            Write::Put(path, _, _) | Write::Unset(path, _) => path,
        }
    }
}

impl Edit {
    // The last write of each item, in their order.
    pub(crate) fn last_writes(&self) -> Result<Vec<&Write>, AllocError>
        ensures { IfOk result (λ last. map deref last.items ≡ last_writes self.now.writes) }
    {
        let writes = self.writes.inner();
        let mut seen = BTreeSet::new(*writes.allocator());
        let mut last = Vec::new(*writes.allocator());
        for at in (0..writes.len()).rev() {
            let write = &writes[at];
            if seen.insert(write.item()?)? {
                last.push(write)?;
            }
        }
        last.reverse();
        Ok(last)
    }
}

// The write of a property that is put.
pub(crate) fn put(path: &Path, name: &Name, property: &Property) -> Result<Write, AllocError>
    ensures { IfOk result (λ made. made ≡ write.Put path.now name.now property.now) }
{
    Ok(Write::Put(path.copy()?, name.copy()?, property.copy()?))
}

// The write of a property that is unset.
pub(crate) fn unset(path: &Path, name: &Name) -> Result<Write, AllocError>
    ensures { IfOk result (λ made. made ≡ write.Unset path.now name.now) }
{
    Ok(Write::Unset(path.copy()?, name.copy()?))
}

impl DeepCopy for Write {
    fn copy(&self) -> Result<Write, AllocError> {
        match self {
            Write::Here(path) => Ok(Write::Here(path.copy()?)),
            Write::Gone(path) => Ok(Write::Gone(path.copy()?)),
            Write::Put(path, name, property) => put(path, name, property),
            Write::Unset(path, name) => unset(path, name),
        }
    }
}

impl DeepCopy for Edit {
    fn copy(&self) -> Result<Edit, AllocError> {
        Ok(Edit {
            writes: self.writes.copy()?,
        })
    }
}
