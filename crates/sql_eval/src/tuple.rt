// Tuples of nodes: for each selector of a query, by its place, a node with its path, or none.
ghost use Rattle.std.specs.Prelude.{◌≡◌, ◌∷◌, ◌++◌, [], None, Some, IfOk, length, map};
ghost use Rattle.std.specs.List.{repeat};
ghost use Rattle.std.specs.Map.Iter.{deref_pair};
ghost use Rattle.std.specs.Option.{option_copied, option_map};
ghost use Rattle.sql_eval.specs.Conditions.{property_in, tuple_property, spot_of};
ghost use Rattle.sql_eval.specs.Rows.{by_paths};

use crate::lists::push;
use crate::order::{Ordered, lists_cmp};
use jr_path::{Name, Path};
use jr_tree::Node;
use jr_value::Property;
use sql_query::PropertyOf;
use std::alloc::{AllocError, Global};
use std::cmp::Ordering;
use std::marker::Model;

/// A node of a tree with its path.
pub type Spot<'a> = (&'a Path, &'a Node);

/// For each selector its node, or none where an outer join has none.
#[derive(Drop)]
pub struct Tuple<'a> {
    spots: Vec<Option<Spot<'a>>>,
}

impl<'a> Model for Tuple<'a> {
    ghost use Rattle.std.specs.Prelude.{map};
    ghost use Rattle.std.specs.Map.Iter.{deref_pair};
    ghost use Rattle.std.specs.Option.{option_map};
    ghost use Rattle.sql_eval.specs.Conditions.{Tuple as Spots};

    ghost Value = { Spots };

    ghost view = { λ t. map (option_map deref_pair) t.spots.items };
}

impl<'a> Tuple<'a> {
    /// The tuple with no selectors. It takes no memory.
    pub fn new(alloc: Global) -> Tuple<'a>
        ensures { result ≡ [] }
    {
        Tuple {
            spots: Vec::new(alloc),
        }
    }

    /// How many selectors it has.
    pub fn len(&self) -> usize
        ensures { result ≡ length self.now }
    {
        self.spots.len()
    }

    /// The node of a selector.
    pub fn spot(&self, selector: u32) -> Option<Spot<'a>>
        ensures { option_map deref_pair result ≡ spot_of self.now selector }
    {
        match self.spots.get(selector as usize) {
            Some(spot) => *spot,
            None => None,
        }
    }

    /// A property of the node of a selector.
    pub fn property(&self, property: &PropertyOf) -> Option<&'a Property>
        ensures { option_copied result ≡ tuple_property self.now property.now }
    {
        property_in(self.spot(property.selector), &property.name)
    }

    /// The tuple with one more selector.
    pub fn with(&self, alloc: Global, spot: Option<Spot<'a>>) -> Result<Tuple<'a>, AllocError>
        ensures { IfOk result (λ tuple. tuple ≡ self.now ++ option_map deref_pair spot.entry ∷ []) }
    {
        let mut spots = Vec::from_slice(alloc, &self.spots)?;
        push(&mut spots, spot)?;
        Ok(Tuple { spots })
    }

    /// A node behind so many missing ones.
    pub fn behind(alloc: Global, missing: usize, spot: Spot<'a>) -> Result<Tuple<'a>, AllocError>
        ensures { IfOk result (λ tuple. tuple ≡ repeat missing (None ∷ []) ++ Some (deref_pair spot.entry) ∷ []) }
    {
        let mut spots: Vec<Option<Spot<'a>>> = Vec::new(alloc);
        for _ in 0..missing {
            push(&mut spots, None)?;
        }
        push(&mut spots, Some(spot))?;
        Ok(Tuple { spots })
    }
}

/// The property of that name, where there is a node that has it.
pub fn property_in<'a>(spot: Option<Spot<'a>>, name: &Name) -> Option<&'a Property>
    ensures { option_copied result ≡ property_in (option_map deref_pair spot.entry) name.now }
{
    match spot {
        Some((_, node)) => node.props.get(name),
        None => None,
    }
}

impl<'a> Ordered for Option<Spot<'a>> {
    ghost use Rattle.std.specs.Map.Iter.{deref_pair};
    ghost use Rattle.std.specs.Ordering.{on};
    ghost use Rattle.std.specs.Option.{option_cmp, option_map};
    ghost use Rattle.jr_path.specs.Names.{path_cmp};

    ghost by = { on (option_map deref_pair) (option_cmp (on (λ e. e.0) path_cmp)) };

    fn order(&self, other: &Option<Spot<'a>>) -> Ordering {
        match (self, other) {
            (None, None) => Ordering::Equal,
            (None, Some(_)) => Ordering::Less,
            (Some(_), None) => Ordering::Greater,
            (Some((path, _)), Some((other, _))) => path.cmp(other),
        }
    }
}

/// The order of two tuples by the paths of their nodes in the order of the selectors, a missing node first.
pub(crate) fn paths_cmp(tuple: &Tuple<'_>, other: &Tuple<'_>) -> Ordering
    ensures { result ≡ by_paths tuple.now other.now }
{
    lists_cmp(&tuple.spots, &other.spots)
}
