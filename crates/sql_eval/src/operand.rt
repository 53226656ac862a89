// What operands are in a tuple.
ghost use Rattle.std.specs.Prelude.{◌≡◌, IfOk};
ghost use Rattle.std.specs.Map.Iter.{deref_pair};
ghost use Rattle.std.specs.Option.{option_copied, option_map};
ghost use Rattle.jr_value.specs.declared.value.Value.TheVariants as value;
ghost use Rattle.jr_value.specs.declared.value.Property.TheVariants.{Single};
ghost use Rattle.sql_eval.specs.Conditions.{node_name, operand_of};
ghost use Rattle.sql_values.specs.Texts.{cased, in_case, lengths_of, local_part};
ghost use Rattle.sql_values.specs.Values.{values_in};

use crate::order::{Ordered, lists_cmp};
use crate::tuple::{Spot, Tuple};
use jr_path::{Path, Text};
use jr_value::{Property, Value};
use sql_query::Operand;
use sql_values::{Case, in_case, lengths_of, local_part, values_in, values_of};
use std::alloc::{AllocError, Global};
use std::cmp::Ordering;
use std::marker::Model;

/// What an operand is in a tuple (JSR 283, 6.7.25 DynamicOperand): a property, or nothing. Ordered as rows are: a
/// missing one first, the others by their values as lists, values of two kinds by their kinds.
#[derive(Drop)]
pub(crate) struct Operated<'a> {
    shown: Shown<'a>,
}

#[derive(Drop)]
enum Shown<'a> {
    Missing,
    Kept(&'a Property),
    Made(Property),
}

impl<'a> Model for Operated<'a> {
    ghost use Rattle.std.specs.Prelude.{Option};
    ghost use Rattle.jr_value.specs.declared.value.Property.{Property};
    ghost use Rattle.sql_eval.specs.Shown.{shown_property};

    ghost Value = { Option Property };

    ghost view = { λ o. shown_property o.shown };
}

impl<'a> Operated<'a> {
    pub fn kept(property: Option<&'a Property>) -> Operated<'a>
        ensures { result ≡ option_copied property.entry }
    {
        match property {
            Some(property) => Operated {
                shown: Shown::Kept(property),
            },
            None => Operated {
                shown: Shown::Missing,
            },
        }
    }

    fn made(property: Option<Property>) -> Operated<'a>
        ensures { result ≡ property }
    {
        match property {
            Some(property) => Operated {
                shown: Shown::Made(property),
            },
            None => Operated {
                shown: Shown::Missing,
            },
        }
    }

    fn property(&self) -> Option<&Property>
        ensures { option_copied result ≡ self.now }
    {
        match &self.shown {
            Shown::Missing => None,
            Shown::Kept(property) => Some(*property),
            Shown::Made(property) => Some(property),
        }
    }

    /// Its values; a missing property has none.
    pub fn values(&self) -> &[Value]
        ensures { result.now ≡ values_in self.now }
    {
        values_in(self.property())
    }

    // With the letters of ASCII in one case.
    fn in_case(&self, alloc: Global, case: Case) -> Result<Operated<'a>, AllocError>
        ensures { IfOk result (λ changed. changed ≡ option_map (in_case (cased case)) self.now) }
    {
        match self.property() {
            Some(property) => Ok(Operated::made(Some(in_case(alloc, case, property)?))),
            None => Ok(Operated::made(None)),
        }
    }
}

// The lengths of the values of a property, where there is one.
fn lengths<'a>(alloc: Global, property: Option<&Property>) -> Result<Operated<'a>, AllocError>
    ensures { IfOk result (λ lengths. lengths ≡ option_map lengths_of (option_copied property.entry)) }
{
    match property {
        Some(property) => Ok(Operated::made(Some(lengths_of(alloc, property)?))),
        None => Ok(Operated::made(None)),
    }
}

// With the letters of ASCII in one case.
fn turned<'a>(alloc: Global, operated: Operated<'a>, case: Case) -> Result<Operated<'a>, AllocError>
    ensures { IfOk result (λ turned. turned ≡ option_map (in_case (cased case)) operated.entry) }
{
    operated.in_case(alloc, case)
}

/// What an operand is in a tuple (JSR 283, 6.7.26 to 6.7.33).
pub(crate) fn operand_of<'a>(
    alloc: Global,
    tuple: &Tuple<'a>,
    operand: &Operand,
) -> Result<Operated<'a>, AllocError>
    ensures { IfOk result (λ operated. operated ≡ operand_of tuple.now operand.now) }
{
    match operand {
        Operand::Property(property) => Ok(Operated::kept(tuple.property(property))),
        Operand::Length(property) => lengths(alloc, tuple.property(property)),
        Operand::Name(selector) => named(alloc, tuple.spot(*selector)),
        Operand::LocalName(selector) => locally_named(alloc, tuple.spot(*selector)),
        Operand::Lower(inner) => turned(alloc, operand_of(alloc, tuple, inner)?, Case::Lower),
        Operand::Upper(inner) => turned(alloc, operand_of(alloc, tuple, inner)?, Case::Upper),
    }
}

// The name of a node, where there is one.
fn named<'a>(alloc: Global, spot: Option<Spot<'_>>) -> Result<Operated<'a>, AllocError>
    ensures { IfOk result (λ named. named ≡ option_map (λ e. Single (value.Str (node_name e.0))) (option_map deref_pair spot.entry)) }
{
    match spot {
        Some((path, _)) => Ok(Operated::made(Some(text(alloc, name_of(path))?))),
        None => Ok(Operated::made(None)),
    }
}

// The local part of the name of a node, where there is one.
fn locally_named<'a>(alloc: Global, spot: Option<Spot<'_>>) -> Result<Operated<'a>, AllocError>
    ensures { IfOk result (λ named. named ≡ option_map (λ e. Single (value.Str (local_part (node_name e.0)))) (option_map deref_pair spot.entry)) }
{
    match spot {
        Some((path, _)) => Ok(Operated::made(Some(text(alloc, local_part(name_of(path)))?))),
        None => Ok(Operated::made(None)),
    }
}

// The name of a node, which is empty for the root.
fn name_of(path: &Path) -> &str
    ensures { result.now ≡ node_name path.now }
{
    match path.last_name() {
        Some(name) => name.as_str(),
        None => "",
    }
}

// A STRING.
fn text(alloc: Global, text: &str) -> Result<Property, AllocError>
    ensures { IfOk result (λ property. property ≡ Single (value.Str text.now)) }
{
    let text = Text::of(String::from_str(alloc, text)?);
    Ok(Property::Single(Value::Str(text)))
}

impl<'a> Ordered for Operated<'a> {
    ghost use Rattle.sql_values.specs.Values.{missing_first};

    ghost by = { missing_first };

    fn order(&self, other: &Operated<'a>) -> Ordering {
        match (self.property(), other.property()) {
            (None, None) => Ordering::Equal,
            (None, Some(_)) => Ordering::Less,
            (Some(_), None) => Ordering::Greater,
            (Some(own), Some(property)) => lists_cmp(values_of(own), values_of(property)),
        }
    }
}
