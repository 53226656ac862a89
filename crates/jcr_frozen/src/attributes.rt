// What definitions say of a node's items, as a check-in asks it.
ghost use Rattle.std.specs.Prelude.{◌≡◌, IfOk, Some};
ghost use Rattle.std.specs.Option.{option_copied};
ghost use Rattle.jcr_frozen.specs.Attributes.{child_has, has_asked, node_has, property_has};

use jr_path::{Name, Path};
use jr_tree::{Node, Tree};
use jr_types::{OnParentVersion, Registry};
use jr_value::Property;
use std::alloc::AllocError;

/// What is asked of the attribute of an item (JSR 283, 3.7.2.5 On-Parent-Version).
#[derive(Clone, Copy, PartialEq, Eq)]
pub enum Asked {
    /// A version of the node above keeps the item: COPY or VERSION.
    Kept,
    /// The item forbids the check-in: ABORT.
    Aborts,
}

/// Whether a property of a node has what is asked; one without a definition has nothing.
pub(crate) fn property_has(
    asked: Asked,
    types: &Registry,
    node: &Node,
    name: &Name,
    property: &Property,
) -> Result<bool, AllocError>
    ensures { IfOk result (λ answer. answer ≡ property_has asked types.now node.now name.now property.now) }
{
    match types.prop_def(node, name, property)? {
        Some(definition) => Ok(has_asked(asked, definition.opv)),
        None => Ok(false),
    }
}

/// Whether the node at a path has what is asked, as a child of the node above.
pub(crate) fn node_has(
    asked: Asked,
    types: &Registry,
    tree: &Tree,
    path: &Path,
) -> Result<bool, AllocError>
    ensures { IfOk result (λ answer. answer ≡ node_has asked types.now tree.now path.now) }
{
    match path.parent()? {
        Some(above) => child_has(
            asked,
            types,
            tree.get(&above),
            path.last_name(),
            tree.get(path),
        ),
        None => Ok(false),
    }
}

// Whether a child has what is asked, by the types of the node above.
fn child_has(
    asked: Asked,
    types: &Registry,
    above: Option<&Node>,
    name: Option<&Name>,
    child: Option<&Node>,
) -> Result<bool, AllocError>
    ensures { IfOk result (λ answer. answer ≡ child_has asked types.now (option_copied above.entry) (option_copied name.entry) (option_copied child.entry)) }
{
    match (above, name, child) {
        (Some(above), Some(name), Some(child)) => child_of(asked, types, above, name, child),
        _ => Ok(false),
    }
}

fn child_of(
    asked: Asked,
    types: &Registry,
    above: &Node,
    name: &Name,
    child: &Node,
) -> Result<bool, AllocError>
    ensures { IfOk result (λ answer. answer ≡ child_has asked types.now (Some above.now) (Some name.now) (Some child.now)) }
{
    match types.child_def(above, name, child)? {
        Some(definition) => Ok(has_asked(asked, definition.opv)),
        None => Ok(false),
    }
}

fn has_asked(asked: Asked, attribute: OnParentVersion) -> bool
    ensures { result ≡ has_asked asked attribute }
{
    match asked {
        Asked::Kept => matches!(attribute, OnParentVersion::Copy | OnParentVersion::Version),
        Asked::Aborts => matches!(attribute, OnParentVersion::Abort),
    }
}
