// Names, paths and values, as arguments of commands.
ghost use Rattle.std.specs.Prelude.{◌≡◌};
ghost use Rattle.serde_json.specs.View.{view};
ghost use Rattle.jr_args.specs.Outcomes.{Answers};
ghost use Rattle.jr_args.specs.Values.{name_of, path_of, property_read, refused, value_of};

use crate::fault::Fault;
use jr_json::{ValueFault, read_property};
use jr_path::{Name, Path, PathFault};
use jr_value::{Property, Value};
use serde_json::Value as Json;
use std::alloc::Global;

// The rule on paths and names, and the one on values.
const GRAMMAR: u8 = 6;

const VALUE: u8 = 7;

pub fn name(alloc: Global, text: &str) -> Result<Name, Fault>
    ensures { Answers (name_of text.now) result }
{
    match Name::parse(alloc, text) {
        Ok(name) => Ok(name),
        Err(fault) => Err(refused(alloc, fault)),
    }
}

// A path of any depth and length.
pub fn path(alloc: Global, text: &str) -> Result<Path, Fault>
    ensures { Answers (path_of text.now) result }
{
    match Path::parse_unlimited(alloc, text) {
        Ok(path) => Ok(path),
        Err(fault) => Err(refused(alloc, fault)),
    }
}

// Why a text isn't read as a name or path.
fn refused(alloc: Global, fault: PathFault) -> Fault
    ensures { result ≡ refused fault }
{
    match fault {
        PathFault::Memory => Fault::Memory,
        PathFault::BadName(_) => Fault::here(alloc, GRAMMAR),
        PathFault::BadPath(_) => Fault::here(alloc, GRAMMAR),
        PathFault::TooDeep(_) => Fault::here(alloc, GRAMMAR),
        PathFault::TooLong(_) => Fault::here(alloc, GRAMMAR),
    }
}

pub fn property(alloc: Global, json: &Json) -> Result<Property, Fault>
    ensures { Answers (property_read (view json.now)) result }
{
    match read_property(alloc, json) {
        Ok(property) => Ok(property),
        Err(ValueFault::Memory) => Err(Fault::Memory),
        Err(_) => Err(Fault::here(alloc, VALUE)),
    }
}

// One value.
pub fn value(alloc: Global, json: &Json) -> Result<Value, Fault>
    ensures { Answers (value_of (view json.now)) result }
{
    match property(alloc, json)? {
        Property::Single(value) => Ok(value),
        Property::Many(_, _) => Err(Fault::here(alloc, VALUE)),
    }
}
