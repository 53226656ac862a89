// Paths, texts and the items of a tree, as the rules of content speak of them.
ghost use Rattle.std.specs.Prelude.{◌≡◌, false, IfOk};
ghost use Rattle.std.specs.Option.{option_copied, option_map_or};
ghost use Rattle.std.specs.List.{filter_map, list_any};
ghost use Rattle.jr_value.specs.Values.{same_bytes};
ghost use Rattle.jr_items.specs.Names.{mixin_types};
ghost use Rattle.jr_items.specs.Items.{has_mixin, is_flag, name_in, one_text, same_name, upward};

use jr_path::{Name, Path};
use jr_tree::Tree;
use jr_value::{Property, Value};
use std::alloc::{AllocError, Global};

/// A path and those above it, from it up to the root.
pub fn upward(alloc: Global, path: &Path) -> Result<Vec<Path>, AllocError>
    ensures { IfOk result (λ paths. paths.items ≡ upward path.now) }
{
    let depth = path.depth();
    let mut paths = Vec::new(alloc);
    for above in 0..=depth {
        paths.push(path.prefix(depth - above)?)?;
    }
    Ok(paths)
}

/// The text, where the property is one STRING.
pub fn one_text(property: Option<&Property>) -> Option<&str>
    ensures { option_copied result ≡ one_text (option_copied property.entry) }
{
    match property {
        Some(Property::Single(Value::Str(text))) => Some(text.as_str()),
        _ => None,
    }
}

/// Whether the property is one BOOLEAN, and this one.
pub fn is_flag(flag: bool, property: Option<&Property>) -> bool
    ensures { result ≡ is_flag flag (option_copied property.entry) }
{
    match property {
        Some(Property::Single(Value::Boolean(truth))) => *truth == flag,
        _ => false,
    }
}

/// Whether a name stands among the mixins of the node at a path (JSR 283, 3.7.10 Mixin Node Types). The name under which
/// they stand, `jcr:mixinTypes`, is lent by the caller.
pub fn has_mixin(tree: &Tree, types: &Name, mixin: &Name, path: &Path) -> bool
    requires { types.now ≡ mixin_types }
    ensures { result ≡ has_mixin tree.now mixin.now path.now }
{
    match tree.property(path, types) {
        Some(Property::Many(_, values)) => is_among(mixin, values.as_slice()),
        _ => false,
    }
}

// Whether the NAME is one of the values.
fn is_among(name: &Name, values: &[Value]) -> bool
    ensures { result ≡ list_any (same_name name.now) (filter_map name_in values.now) }
{
    for value in values {
        if is_named(name, value) {
            return true;
        }
    }
    false
}

// Whether the value is the NAME.
fn is_named(name: &Name, value: &Value) -> bool
    ensures { result ≡ option_map_or (same_name name.now) (name_in value.now) false }
{
    match value {
        Value::Name(other) => name == other,
        _ => false,
    }
}

/// Whether two texts are the same. It takes no memory.
pub fn is_same_text(text: &str, other: &str) -> bool
    ensures { result ≡ same_bytes text.now other.now }
{
    text.cmp(other).is_eq()
}
