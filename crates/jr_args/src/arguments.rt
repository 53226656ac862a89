// The arguments of a command, by their number from 0 on; one that is left out is as null.
ghost use Rattle.std.specs.Prelude.{◌≡◌, ◌≤◌};
ghost use Rattle.std.specs.Option.{option_map_or};
ghost use Rattle.serde_json.specs.Data.{null};
ghost use Rattle.serde_json.specs.Find.{as_str};
ghost use Rattle.serde_json.specs.View.{view, items_view};
ghost use Rattle.jr_args.specs.Commands.{argument, mask_at, name_argument, name_if_any, name_if_any_at, number_argument, path_at, property_argument, text_argument, tree_argument, truth_at, variables_at};
ghost use Rattle.jr_args.specs.Outcomes.{Answers};

use crate::fault::Fault;
use crate::word::mask;
use crate::{tree, values};
use jcr_trans::TreeNode;
use jr_path::{Keyed, List, Name, Path};
use jr_value::{Property, Value};
use serde_json::Value as Json;
use std::alloc::Global;

fn argument(arguments: &[Json], index: usize) -> Option<&Json>
    ensures { option_map_or (λ d. view d.now) result null ≡ argument index (items_view arguments.now) }
{
    arguments.get(index)
}

pub fn text_at(arguments: &[Json], index: usize) -> &str
    ensures { result.now ≡ text_argument index (items_view arguments.now) }
{
    match argument(arguments, index) {
        Some(json) => tree::text_in(json),
        None => "",
    }
}

pub fn truth_at(arguments: &[Json], index: usize) -> bool
    ensures { result ≡ truth_at index (items_view arguments.now) }
{
    match argument(arguments, index) {
        Some(json) => json.as_bool().unwrap_or(false),
        None => false,
    }
}

// A whole number of 64 bits, if it is one.
pub fn number_at(arguments: &[Json], index: usize) -> Option<u64>
    ensures { result ≡ number_argument index (items_view arguments.now) }
{
    match argument(arguments, index) {
        Some(json) => json.as_u64(),
        None => None,
    }
}

pub fn mask_at(arguments: &[Json], index: usize) -> u32
    ensures { result ≡ mask_at index (items_view arguments.now) }
{
    match argument(arguments, index) {
        Some(json) => mask(json).unwrap_or(0),
        None => 0,
    }
}

pub fn path_at(alloc: Global, arguments: &[Json], index: usize) -> Result<Path, Fault>
    requires { index ≤ 3 }
    ensures { Answers (path_at index (items_view arguments.now)) result }
{
    match values::path(alloc, text_at(arguments, index)) {
        Ok(path) => Ok(path),
        Err(fault) => Err(fault.in_item(index + 1)),
    }
}

pub fn name_at(alloc: Global, arguments: &[Json], index: usize) -> Result<Name, Fault>
    requires { index ≤ 3 }
    ensures { Answers (name_argument index (items_view arguments.now)) result }
{
    match values::name(alloc, text_at(arguments, index)) {
        Ok(name) => Ok(name),
        Err(fault) => Err(fault.in_item(index + 1)),
    }
}

fn name_if_any(alloc: Global, json: &Json) -> Result<Option<Name>, Fault>
    ensures { Answers (name_if_any (as_str (view json.now))) result }
{
    match json.as_str() {
        Some(text) => tree::some_name(alloc, text),
        None => Ok(None),
    }
}

pub fn name_if_any_at(
    alloc: Global,
    arguments: &[Json],
    index: usize,
) -> Result<Option<Name>, Fault>
    requires { index ≤ 3 }
    ensures { Answers (name_if_any_at index (items_view arguments.now)) result }
{
    let Some(json) = argument(arguments, index) else {
        return Ok(None);
    };
    match name_if_any(alloc, json) {
        Ok(name) => Ok(name),
        Err(fault) => Err(fault.in_item(index + 1)),
    }
}

pub fn property_at(alloc: Global, arguments: &[Json], index: usize) -> Result<Property, Fault>
    requires { index ≤ 3 }
    ensures { Answers (property_argument index (items_view arguments.now)) result }
{
    let read = match argument(arguments, index) {
        Some(json) => values::property(alloc, json),
        None => values::property(alloc, &Json::Null),
    };
    match read {
        Ok(property) => Ok(property),
        Err(fault) => Err(fault.in_item(index + 1)),
    }
}

pub fn tree_at(alloc: Global, arguments: &[Json], index: usize) -> Result<List<TreeNode>, Fault>
    requires { index ≤ 3 }
    ensures { Answers (tree_argument index (items_view arguments.now)) result }
{
    let root = Path::root(alloc);
    let mut nodes = List::new(alloc);
    let Some(json) = argument(arguments, index) else {
        return Ok(nodes);
    };
    match tree::tree(alloc, &root, json, &mut nodes) {
        Ok(()) => Ok(nodes),
        Err(fault) => Err(fault.in_item(index + 1)),
    }
}

pub fn variables_at(
    alloc: Global,
    arguments: &[Json],
    index: usize,
) -> Result<Keyed<Name, Value>, Fault>
    requires { index ≤ 3 }
    ensures { Answers (variables_at index (items_view arguments.now)) result }
{
    let Some(json) = argument(arguments, index) else {
        return Ok(Keyed::new(alloc));
    };
    match tree::variables(alloc, json) {
        Ok(variables) => Ok(variables),
        Err(fault) => Err(fault.in_item(index + 1)),
    }
}
