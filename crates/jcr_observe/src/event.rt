// Events and filters.
use jr_path::{DeepCopy, Item, Path};
use std::alloc::AllocError;

/// A node was added (JSR 283, 12.3.1 Event Types).
pub const NODE_ADDED: u32 = 1;

/// A node was removed.
pub const NODE_REMOVED: u32 = 2;

/// A property was added.
pub const PROPERTY_ADDED: u32 = 4;

/// A property was removed.
pub const PROPERTY_REMOVED: u32 = 8;

/// A property was given another value.
pub const PROPERTY_CHANGED: u32 = 16;

/// The events of a commit end here (JSR 283, 12.3.3 Event Bundling).
pub const PERSIST: u32 = 64;

/// What a session observes (JSR 283, 12.5 Asynchronous Observation): the items whose node above is at a path, or for
/// deep at or below it, and the sum of the codes that it asks for, 0 to 127. The path needs no node.
pub struct Filter {
    pub path: Path,
    pub deep: bool,
    pub mask: u32,
}

// By hand, so that its parts are let go in one call.
impl Drop for Filter {
    fn drop(self) {
        let Filter {
            path,
            deep: _,
            mask: _,
        } = self;
        drop(path);
    }
}

/// An event: its code and its item, or `PERSIST`, which has none (JSR 283, 12.3 Events).
pub struct JcrEvent {
    pub code: u32,
    pub item: Option<Item>,
}

// By hand, so that its parts are let go in one call.
impl Drop for JcrEvent {
    fn drop(self) {
        let JcrEvent { code: _, item } = self;
        drop(item);
    }
}

impl DeepCopy for Filter {
    fn copy(&self) -> Result<Filter, AllocError> {
        Ok(Filter {
            path: self.path.copy()?,
            deep: self.deep,
            mask: self.mask,
        })
    }
}

impl DeepCopy for JcrEvent {
    fn copy(&self) -> Result<JcrEvent, AllocError> {
        Ok(JcrEvent {
            code: self.code,
            item: self.item.copy()?,
        })
    }
}
