// What a text of type definitions says.
use jr_path::{List, Text};
use jr_types::TypeDef;

/// A prefix that a text declares, of ASCII letters, digits, `_`, `-` and `.`, and its namespace (JSR 283, 3.2.5 Namespace
/// Mapping). In this profile a prefix is part of a name, so a declaration changes no name.
pub struct Prefix {
    pub prefix: Text,
    pub uri: Text,
}

// By hand, so that its parts are let go in one call.
impl Drop for Prefix {
    fn drop(self) {
        let Prefix { prefix, uri } = self;
        drop(prefix);
        drop(uri);
    }
}

/// The prefixes and the node types of a text, each in its order.
pub struct Cnd {
    pub prefixes: List<Prefix>,
    pub definitions: List<TypeDef>,
}

// By hand, so that its parts are let go in one call.
impl Drop for Cnd {
    fn drop(self) {
        let Cnd {
            prefixes,
            definitions,
        } = self;
        drop(prefixes);
        drop(definitions);
    }
}
