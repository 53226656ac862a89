// The properties of a node that is brought to a frozen node.
ghost use Rattle.std.specs.Prelude.{◌≡◌, IfOk, OnOk};
ghost use Rattle.std.specs.List.{fold};
ghost use Rattle.std.specs.Option.{option_copied};
ghost use Rattle.jcr_restore.specs.Restored.{brought_props, left_props, with_frozen, with_frozen_identifier, with_types};

use jcr_frozen::{Share, is_frozen_name, put_told, share_of};
use jr_items::OwnName;
use jr_path::{DeepCopy, Keyed, Name};
use jr_tree::Node;
use jr_types::Registry;
use jr_value::Property;
use std::alloc::{AllocError, Global};

/// The properties of a node, if it is there, brought to a frozen node.
pub(crate) fn brought_props(
    alloc: Global,
    types: &Registry,
    old: Option<&Node>,
    frozen: &Node,
) -> Result<Keyed<Name, Property>, AllocError>
    ensures { IfOk result (λ props. props ≡ brought_props types.now (option_copied old.entry) frozen.now) }
{
    let mut props = left_props(alloc, types, old)?;
    put_frozen(&mut props, frozen)?;
    put_types(&mut props, alloc, frozen)?;
    put_identifier(&mut props, alloc, frozen, old)?;
    Ok(props)
}

// The properties that a restore leaves to a node.
fn left_props(
    alloc: Global,
    types: &Registry,
    old: Option<&Node>,
) -> Result<Keyed<Name, Property>, AllocError>
    ensures { IfOk result (λ props. props ≡ left_props types.now (option_copied old.entry)) }
{
    match old {
        Some(node) => share_of(alloc, Share::Left, types, node),
        None => Ok(Keyed::new(alloc)),
    }
}

// The properties of the frozen node, but for those that it has for itself.
fn put_frozen(props: &mut Keyed<Name, Property>, frozen: &Node) -> Result<(), AllocError>
    ensures { OnOk result (props.new ≡ fold with_frozen props.old frozen.now.props) }
{
    for (name, property) in frozen.props.iter() {
        if !is_frozen_name(name) {
            props.put(name.copy()?, property.copy()?)?;
        }
    }
    Ok(())
}

// The type and the mixins that the frozen node tells of.
fn put_types(
    props: &mut Keyed<Name, Property>,
    alloc: Global,
    frozen: &Node,
) -> Result<(), AllocError>
    ensures { OnOk result (props.new ≡ with_types frozen.now props.old) }
{
    put_told(
        props,
        alloc,
        frozen,
        OwnName::FrozenPrimaryType,
        OwnName::PrimaryType,
    )?;
    put_told(
        props,
        alloc,
        frozen,
        OwnName::FrozenMixinTypes,
        OwnName::MixinTypes,
    )
}

// A node that is made has the identifier that the frozen node tells of.
fn put_identifier(
    props: &mut Keyed<Name, Property>,
    alloc: Global,
    frozen: &Node,
    old: Option<&Node>,
) -> Result<(), AllocError>
    ensures { OnOk result (props.new ≡ with_frozen_identifier frozen.now (option_copied old.entry) props.old) }
{
    match old {
        Some(_) => Ok(()),
        None => put_told(props, alloc, frozen, OwnName::FrozenUuid, OwnName::Uuid),
    }
}
