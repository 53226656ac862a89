// Which of the definitions count for an item.
ghost use Rattle.std.specs.Prelude.{◌≡◌, ◌∷◌, ◌++◌, [], IfOk, OnOk, if◌then◌else◌, is_none, map};
ghost use Rattle.std.specs.List.{filter, flat_map};
ghost use Rattle.jr_types.specs.Said.{counting_children, counting_props};
ghost use Rattle.jr_types.specs.Types.{fits, is_named};

use crate::{ChildDef, PropDef, TypeDef};
use jr_path::Name;
use jr_value::Property;
use std::alloc::{AllocError, Global};

/// The definitions that count for a property: those of its name, or else those of no name.
pub fn counting_props<'a>(
    alloc: Global,
    props: &[&'a PropDef],
    name: &Name,
) -> Result<Vec<&'a PropDef>, AllocError>
    ensures { IfOk result (λ counting. map (λ d. d.now) counting.items
        ≡ counting_props (map (λ d. d.now) props.now) name.now) }
{
    let named = props_named(alloc, props, name)?;
    if named.is_empty() {
        return residual_props(alloc, props);
    }
    Ok(named)
}

// The definitions of that name.
fn props_named<'a>(
    alloc: Global,
    props: &[&'a PropDef],
    name: &Name,
) -> Result<Vec<&'a PropDef>, AllocError>
    ensures { IfOk result (λ named. map (λ d. d.now) named.items
        ≡ filter (λ d. is_named name.now d.name) (map (λ d. d.now) props.now)) }
{
    let mut named = Vec::new(alloc);
    for def in props {
        add_if(&mut named, *def, is_of(&def.name, name))?;
    }
    Ok(named)
}

// The definitions of no name.
fn residual_props<'a>(alloc: Global, props: &[&'a PropDef]) -> Result<Vec<&'a PropDef>, AllocError>
    ensures { IfOk result (λ residual. map (λ d. d.now) residual.items
        ≡ filter (λ d. is_none d.name) (map (λ d. d.now) props.now)) }
{
    let mut residual = Vec::new(alloc);
    for def in props {
        add_if(&mut residual, *def, def.name.is_none())?;
    }
    Ok(residual)
}

/// The definitions that count for a child: those of its name, or else those of no name.
pub fn counting_children<'a>(
    alloc: Global,
    children: &[&'a ChildDef],
    name: &Name,
) -> Result<Vec<&'a ChildDef>, AllocError>
    ensures { IfOk result (λ counting. map (λ d. d.now) counting.items
        ≡ counting_children (map (λ d. d.now) children.now) name.now) }
{
    let named = children_named(alloc, children, name)?;
    if named.is_empty() {
        return residual_children(alloc, children);
    }
    Ok(named)
}

// The definitions of that name.
fn children_named<'a>(
    alloc: Global,
    children: &[&'a ChildDef],
    name: &Name,
) -> Result<Vec<&'a ChildDef>, AllocError>
    ensures { IfOk result (λ named. map (λ d. d.now) named.items
        ≡ filter (λ d. is_named name.now d.name) (map (λ d. d.now) children.now)) }
{
    let mut named = Vec::new(alloc);
    for def in children {
        add_if(&mut named, *def, is_of(&def.name, name))?;
    }
    Ok(named)
}

// The definitions of no name.
fn residual_children<'a>(
    alloc: Global,
    children: &[&'a ChildDef],
) -> Result<Vec<&'a ChildDef>, AllocError>
    ensures { IfOk result (λ residual. map (λ d. d.now) residual.items
        ≡ filter (λ d. is_none d.name) (map (λ d. d.now) children.now)) }
{
    let mut residual = Vec::new(alloc);
    for def in children {
        add_if(&mut residual, *def, def.name.is_none())?;
    }
    Ok(residual)
}

/// Whether a definition with that name, or with none, is of the name.
pub fn is_of(own: &Option<Name>, name: &Name) -> bool
    ensures { result ≡ is_named name.now own.now }
{
    match own {
        Some(own) => name == own,
        None => false,
    }
}

/// What the types say of children, one type after the other (JSR 283, 3.7.4 Child Node Definitions).
pub fn children_of<'a>(
    alloc: Global,
    types: &[&'a TypeDef],
) -> Result<Vec<&'a ChildDef>, AllocError>
    ensures { IfOk result (λ children. map (λ d. d.now) children.items
        ≡ flat_map (λ d. d.children) (map (λ d. d.now) types.now)) }
{
    let mut children = Vec::new(alloc);
    for definition in types {
        add_children(&mut children, definition.children.as_slice())?;
    }
    Ok(children)
}

// Puts a definition behind others, where it is wanted.
pub(crate) fn add_if<'a, T>(
    list: &mut Vec<&'a T>,
    def: &'a T,
    is_wanted: bool,
) -> Result<(), AllocError>
    ensures { OnOk result (map (λ d. d.now) list.new.items
        ≡ map (λ d. d.now) list.old.items ++ (if is_wanted then def.now ∷ [] else [])) }
{
    if is_wanted {
        return add_one(list, def);
    }
    Ok(())
}

fn add_one<'a, T>(list: &mut Vec<&'a T>, def: &'a T) -> Result<(), AllocError>
    ensures { OnOk result (map (λ d. d.now) list.new.items
        ≡ map (λ d. d.now) list.old.items ++ def.now ∷ []) }
{
    list.push(def)?;
    Ok(())
}

// Puts definitions behind others.
fn add_children<'a>(
    list: &mut Vec<&'a ChildDef>,
    children: &'a [ChildDef],
) -> Result<(), AllocError>
    ensures { OnOk result (map (λ d. d.now) list.new.items
        ≡ map (λ d. d.now) list.old.items ++ children.now) }
{
    for child in children {
        add_one(list, child)?;
    }
    Ok(())
}

// Puts definitions behind others.
pub(crate) fn add_props<'a>(
    list: &mut Vec<&'a PropDef>,
    props: &'a [PropDef],
) -> Result<(), AllocError>
    ensures { OnOk result (map (λ d. d.now) list.new.items
        ≡ map (λ d. d.now) list.old.items ++ props.now) }
{
    for prop in props {
        add_one(list, prop)?;
    }
    Ok(())
}

/// Those of the definitions that the property fits.
pub fn fitting_props<'a>(
    alloc: Global,
    counting: &[&'a PropDef],
    property: &Property,
) -> Result<Vec<&'a PropDef>, AllocError>
    ensures { IfOk result (λ fitting. map (λ d. d.now) fitting.items
        ≡ filter (λ d. fits d property.now) (map (λ d. d.now) counting.now)) }
{
    let mut fitting = Vec::new(alloc);
    for def in counting {
        add_if(&mut fitting, *def, def.fits(property))?;
    }
    Ok(fitting)
}
