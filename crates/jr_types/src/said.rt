// What the types say of a node: which types it has, and what they say of properties.
ghost use Rattle.std.specs.Prelude.{◌≡◌, ◌++◌, ◌∷◌, [], IfOk, OnOk, map};
ghost use Rattle.std.specs.List.{filter_map, flat_map, list_all, list_any};
ghost use Rattle.std.specs.Option.{option_copied};
ghost use Rattle.jr_constraint.specs.Constraints.{meets};
ghost use Rattle.jr_items.specs.Names.{mixin_types, primary_type};
ghost use Rattle.jr_items.specs.Items.{many_names, name_in, one_name, property_of};
ghost use Rattle.jr_types.specs.Registered.{IsAlike, IsFurther, types_at};
ghost use Rattle.jr_types.specs.Said.{types_said};
ghost use Rattle.jr_types.specs.Types.{admits, fits, fits_child, is_a, props_of, types_of};

use crate::counting::add_props;
use crate::{ChildDef, PropDef, Registry, TypeDef};
use jr_constraint::meets_one;
use jr_path::{Name, Text};
use jr_tree::Node;
use jr_value::{Property, Value};
use std::alloc::AllocError;

impl Registry {
    /// The types of a node: its primary type, its mixins and all their supertypes, in this order, some of
    /// them maybe once where several types have them (JSR 283, 3.7.6 Node Type Inheritance).
    pub fn types_of<'a>(&'a self, node: &Node) -> Result<Vec<&'a TypeDef>, AllocError>
        ensures { IfOk result (λ types.
            IsAlike (map (λ d. d.now) types.items) (types_of self.now (types_said node.now))) }
    {
        let mut types = Vec::new(self.alloc);
        if let Some(name) = one_name(self.primary_of(node)) {
            self.add_line(&mut types, name)?;
        }
        self.add_lines(&mut types, values_of(self.mixins_of(node)))?;
        Ok(types)
    }

    // Puts types and all their supertypes behind others, where the values name types.
    fn add_lines<'a>(
        &'a self,
        types: &mut Vec<&'a TypeDef>,
        values: &[Value],
    ) -> Result<(), AllocError>
        ensures { OnOk result (IsFurther self.now (map (λ d. d.now) types.old.items)
            (filter_map name_in values.now) (map (λ d. d.now) types.new.items)) }
    {
        for value in values {
            if let Some(name) = name_in(value) {
                self.add_line(types, name)?;
            }
        }
        Ok(())
    }

    // Puts a type and all its supertypes behind others.
    fn add_line<'a>(&'a self, types: &mut Vec<&'a TypeDef>, name: &Name) -> Result<(), AllocError>
        ensures { OnOk result (IsFurther self.now (map (λ d. d.now) types.old.items) (name.now ∷ [])
            (map (λ d. d.now) types.new.items)) }
    {
        self.add_at(types, self.line(name))
    }

    // Puts the types at these places behind others.
    fn add_at<'a>(
        &'a self,
        types: &mut Vec<&'a TypeDef>,
        places: &[usize],
    ) -> Result<(), AllocError>
        ensures { OnOk result (map (λ d. d.now) types.new.items
            ≡ map (λ d. d.now) types.old.items ++ types_at self.now places.now) }
    {
        for place in places {
            if let Some(definition) = self.at(*place) {
                types.push(definition)?;
            }
        }
        Ok(())
    }

    // The node's `jcr:primaryType`.
    pub(crate) fn primary_of<'a>(&self, node: &'a Node) -> Option<&'a Property>
        ensures { option_copied result ≡ property_of node.now primary_type }
    {
        node.props.get(&self.primary_type)
    }

    // The node's `jcr:mixinTypes`.
    pub(crate) fn mixins_of<'a>(&self, node: &'a Node) -> Option<&'a Property>
        ensures { option_copied result ≡ property_of node.now mixin_types }
    {
        node.props.get(&self.mixin_types)
    }

    /// What the types say of properties, one type after the other, first the order of children of each
    /// orderable one (JSR 283, 3.7.3 Property Definitions).
    pub fn props_of<'a>(&'a self, types: &[&'a TypeDef]) -> Result<Vec<&'a PropDef>, AllocError>
        ensures { IfOk result (λ props. map (λ d. d.now) props.items
            ≡ flat_map props_of (map (λ d. d.now) types.now)) }
    {
        let mut props = Vec::new(self.alloc);
        for definition in types {
            self.add_props_of(&mut props, definition)?;
        }
        Ok(props)
    }

    // Puts what a type says of properties behind what others say.
    fn add_props_of<'a>(
        &'a self,
        props: &mut Vec<&'a PropDef>,
        definition: &'a TypeDef,
    ) -> Result<(), AllocError>
        ensures { OnOk result (map (λ d. d.now) props.new.items
            ≡ map (λ d. d.now) props.old.items ++ props_of definition.now) }
    {
        if definition.orderable {
            props.push(&self.order)?;
        }
        add_props(props, definition.props.as_slice())
    }

    /// Whether a child of that primary type is of each of the definition's required types.
    pub fn fits_child(&self, def: &ChildDef, primary: Option<&Property>) -> bool
        ensures { result ≡ fits_child self.now def.now (option_copied primary.entry) }
    {
        match one_name(primary) {
            Some(name) => self.is_each_of(name, def.types.as_slice()),
            None => false,
        }
    }

    // Whether a type is each of these or below it.
    fn is_each_of(&self, name: &Name, required: &[Name]) -> bool
        ensures { result ≡ list_all (is_a self.now name.now) required.now }
    {
        required.iter().all(|of| self.is_a(name, of))
    }
}

impl PropDef {
    /// Whether a property has the definition's kind, where it requires one, and is single or
    /// multiple as it requires.
    pub fn fits(&self, property: &Property) -> bool
        ensures { result ≡ fits self.now property.now }
    {
        let (kind, multiple) = match property {
            Property::Single(value) => (value.kind(), false),
            Property::Many(kind, _) => (*kind, true),
        };
        self.multiple == multiple && self.kind.is_none_or(|required| required == kind)
    }

    /// Whether the definition has no constraints, or each value of the property meets one of them
    /// (JSR 283, 3.7.3.6 Value Constraints).
    pub fn admits(&self, property: &Property) -> bool
        ensures { result ≡ admits self.now property.now }
    {
        if self.constraints.is_empty() {
            return true;
        }
        match property {
            Property::Single(value) => meets_one(value, self.constraints.as_slice()),
            Property::Many(_, values) => each_meets_one(
                values.as_slice(),
                self.constraints.as_slice(),
            ),
        }
    }
}

// Whether each value meets one of the constraints.
fn each_meets_one(values: &[Value], constraints: &[Text]) -> bool
    ensures { result ≡ list_all (λ v. list_any (meets v) constraints.now) values.now }
{
    values.iter().all(|value| meets_one(value, constraints))
}

/// The name, where the property is one NAME.
pub fn one_name(property: Option<&Property>) -> Option<&Name>
    ensures { option_copied result ≡ one_name (option_copied property.entry) }
{
    match property {
        Some(Property::Single(Value::Name(name))) => Some(name),
        _ => None,
    }
}

/// The name that a value is.
pub fn name_in(value: &Value) -> Option<&Name>
    ensures { option_copied result ≡ name_in value.now }
{
    match value {
        Value::Name(name) => Some(name),
        _ => None,
    }
}

// The values, where the property is a list.
fn values_of(property: Option<&Property>) -> &[Value]
    ensures { filter_map name_in result.now ≡ many_names (option_copied property.entry) }
{
    match property {
        Some(Property::Many(_, values)) => values.as_slice(),
        _ => &[],
    }
}
