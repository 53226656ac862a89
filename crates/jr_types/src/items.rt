// What types say of the items of a node, for the commands that make, write and keep them.
ghost use Rattle.std.specs.Prelude.{◌≡◌, IfOk, is_some, map, option_and_then};
ghost use Rattle.std.specs.List.{filter, list_any};
ghost use Rattle.std.specs.Option.{option_copied};
ghost use Rattle.jr_items.specs.Names.{primary_type};
ghost use Rattle.jr_items.specs.Items.{first_of, property_of};
ghost use Rattle.jr_types.specs.Attributes.{are_ordered, default_type};
ghost use Rattle.jr_types.specs.Registered.{IsAlike};
ghost use Rattle.jr_types.specs.Said.{types_said};
ghost use Rattle.jr_types.specs.Types.{child_def, child_defs, fits_child, prop_def, prop_defs, types_of};

use crate::counting::{add_if, children_of, counting_children, counting_props, fitting_props};
use crate::{ChildDef, PropDef, Registry, TypeDef};
use jr_path::Name;
use jr_tree::Node;
use jr_value::Property;
use std::alloc::{AllocError, Global};

impl Registry {
    /// The definition that a property of a node goes by: the first that it fits of those that count
    /// for it, or else the first (JSR 283, 3.7.3 Property Definitions).
    pub fn prop_def(
        &self,
        node: &Node,
        name: &Name,
        property: &Property,
    ) -> Result<Option<&PropDef>, AllocError>
        ensures { IfOk result (λ def. option_copied def
            ≡ prop_def (types_of self.now (types_said node.now)) name.now property.now) }
    {
        let counting = self.counting_of(node, name)?;
        let fitting = fitting_props(self.alloc, &counting, property)?;
        Ok(first_def(&fitting).or(first_def(&counting)))
    }

    /// The definition that a child of a node goes by: the first that it fits of those that count
    /// for it, or else the first (JSR 283, 3.7.4 Child Node Definitions).
    pub fn child_def(
        &self,
        node: &Node,
        name: &Name,
        child: &Node,
    ) -> Result<Option<&ChildDef>, AllocError>
        ensures { IfOk result (λ def. option_copied def
            ≡ child_def self.now (types_of self.now (types_said node.now)) name.now
            (property_of child.now primary_type)) }
    {
        let counting = self.counting_below(node, name)?;
        let fitting = self.fitting_children(&counting, self.primary_of(child))?;
        Ok(first_def(&fitting).or(first_def(&counting)))
    }

    /// The type of a new child of that name that is added without a type: the first that a
    /// definition gives that counts for it.
    pub fn default_type(&self, node: &Node, name: &Name) -> Result<Option<&Name>, AllocError>
        ensures { IfOk result (λ type. option_copied type
            ≡ default_type (types_of self.now (types_said node.now)) name.now) }
    {
        let counting = self.counting_below(node, name)?;
        let telling = telling_children(self.alloc, &counting)?;
        Ok(default_of(first_def(&telling)))
    }

    /// Whether the children of a node keep the order that they are put in (JSR 283, 23 Orderable
    /// Child Nodes).
    pub fn are_ordered(&self, node: &Node) -> Result<bool, AllocError>
        ensures { IfOk result (λ ordered. ordered
            ≡ are_ordered (types_of self.now (types_said node.now))) }
    {
        Ok(is_one_ordered(&self.types_of(node)?))
    }
}

impl Registry {
    // The definitions that count for a property of a node.
    fn counting_of(&self, node: &Node, name: &Name) -> Result<Vec<&PropDef>, AllocError>
        ensures { IfOk result (λ counting. IsAlike (map (λ d. d.now) counting.items)
            (prop_defs (types_of self.now (types_said node.now)) name.now)) }
    {
        let types = self.types_of(node)?;
        let props = self.props_of(&types)?;
        counting_props(self.alloc, &props, name)
    }

    // The definitions that count for a child of a node.
    fn counting_below(&self, node: &Node, name: &Name) -> Result<Vec<&ChildDef>, AllocError>
        ensures { IfOk result (λ counting. IsAlike (map (λ d. d.now) counting.items)
            (child_defs (types_of self.now (types_said node.now)) name.now)) }
    {
        let types = self.types_of(node)?;
        let children = children_of(self.alloc, &types)?;
        counting_children(self.alloc, &children, name)
    }

    // Those of the definitions of whose required types a child of that primary type is each.
    fn fitting_children<'a>(
        &self,
        counting: &[&'a ChildDef],
        primary: Option<&Property>,
    ) -> Result<Vec<&'a ChildDef>, AllocError>
        ensures { IfOk result (λ fitting. map (λ d. d.now) fitting.items
            ≡ filter (λ d. fits_child self.now d (option_copied primary.entry))
            (map (λ d. d.now) counting.now)) }
    {
        let mut fitting = Vec::new(self.alloc);
        for def in counting {
            if self.fits_child(def, primary) {
                fitting.push(*def)?;
            }
        }
        Ok(fitting)
    }
}

// Those of the definitions that give a default type.
fn telling_children<'a>(
    alloc: Global,
    counting: &[&'a ChildDef],
) -> Result<Vec<&'a ChildDef>, AllocError>
    ensures { IfOk result (λ telling. map (λ d. d.now) telling.items
        ≡ filter (λ d. is_some d.default_type) (map (λ d. d.now) counting.now)) }
{
    let mut telling = Vec::new(alloc);
    for def in counting {
        add_if(&mut telling, *def, def.default_type.is_some())?;
    }
    Ok(telling)
}

// The default type that a definition gives.
fn default_of(def: Option<&ChildDef>) -> Option<&Name>
    ensures { option_copied result ≡ option_and_then (λ d. d.default_type)
        (option_copied def.entry) }
{
    match def {
        Some(def) => def.default_type.as_ref(),
        None => None,
    }
}

// The first of the definitions.
fn first_def<'a, T>(defs: &[&'a T]) -> Option<&'a T>
    ensures { option_copied result ≡ first_of (map (λ d. d.now) defs.now) }
{
    defs.first().copied()
}

// Whether one of the types is orderable.
fn is_one_ordered(types: &[&TypeDef]) -> bool
    ensures { result ≡ list_any (λ d. d.now.orderable) types.now }
{
    types.iter().any(|definition| definition.orderable)
}
