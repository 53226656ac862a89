// The node types of a script: the built-in ones, and those of a list or a text.
ghost use Rattle.std.specs.Prelude.{◌≡◌, ◌++◌, ◌∷◌, [], None, Ok, OnOk};
ghost use Rattle.serde_json.specs.View.{view, items_view};
ghost use Rattle.jr_builtin.specs.Builtin.{builtin};
ghost use Rattle.jr_defs.specs.Reading.{IsTypeJson};
ghost use Rattle.jr_types.specs.Rules.{type_fault};
ghost use Rattle.cnd_print.specs.Printable.{KeepRules};
ghost use Rattle.jr_args.specs.Outcomes.{Answers, Means, is, judged};
ghost use Rattle.jr_script.specs.Types.{GivesTypes, added, listed_of, types_read, with_type, written_of};

use crate::script::TextFault;
use cnd_print::meanings_can_be_printed;
use jr_args::Fault;
use jr_builtin::builtin;
use jr_cnd::{Cnd, NoCnd, read_cnd};
use jr_defs::{NoType, read_type};
use jr_path::DeepCopy;
use jr_types::{Registry, TypeDef, TypeFault};
use serde_json::Value as Json;
use std::alloc::{AllocError, Global};

// The rule on types.
const TYPES: u8 = 9;

// Types, or why their text has none.
pub type Types = Result<Registry, TextFault>;

pub fn types(alloc: Global, json: &Json) -> Result<Types, Fault>
    ensures { Answers (types_read (view json.now)) result }
{
    match json {
        Json::Array(items) => listed(alloc, items),
        Json::String(text) => written(alloc, text.as_str()),
        _ => Err(Fault::here(alloc, TYPES)),
    }
}

// ---- a list

// The built-in types and those of a list of definitions.
fn listed(alloc: Global, items: &[Json]) -> Result<Types, Fault>
    ensures { Answers (listed_of (items_view items.now)) result }
{
    let mut registry = builtin(alloc)?;
    match add_listed(alloc, &mut registry, items) {
        Ok(()) => Ok(Ok(registry)),
        Err(fault) => {
            drop(registry);
            Err(fault)
        }
    }
}

fn add_listed(alloc: Global, registry: &mut Registry, items: &[Json]) -> Result<(), Fault>
    ensures { GivesTypes (added registry.old 0 (items_view items.now)) registry.new result }
{
    for (index, item) in items.iter().enumerate() {
        match add_json(alloc, registry, item) {
            Ok(()) => {}
            Err(fault) => return Err(fault.in_item(index)),
        }
    }
    Ok(())
}

fn add_json(alloc: Global, registry: &mut Registry, json: &Json) -> Result<(), Fault>
    ensures { GivesTypes (with_type registry.old (view json.now)) registry.new result }
{
    let definition = definition(alloc, json)?;
    match registry.add(definition) {
        Ok(()) => Ok(()),
        Err(TypeFault::BadType(_)) => Err(Fault::here(alloc, TYPES)),
        Err(TypeFault::Memory) => Err(Fault::Memory),
    }
}

fn definition(alloc: Global, json: &Json) -> Result<TypeDef, Fault>
    ensures { Answers (judged (IsTypeJson (view json.now)) 9) result }
{
    match read_type(alloc, json) {
        Ok(definition) => Ok(definition),
        Err(NoType::NoDefinition) => Err(Fault::here(alloc, TYPES)),
        Err(NoType::Memory) => Err(Fault::Memory),
    }
}

// ---- a text

// The built-in types and those of a text, or the offset at which it fails.
fn written(alloc: Global, text: &str) -> Result<Types, Fault>
    ensures { Answers (written_of text.now) result }
{
    meanings_can_be_printed();
    match read_cnd(alloc, text) {
        Ok(cnd) => defined(alloc, &cnd),
        Err(NoCnd::Syntax(offset)) => Ok(Err(TextFault { offset })),
        Err(NoCnd::BadDef(offset)) => Ok(Err(TextFault { offset })),
        Err(NoCnd::Memory) => Err(Fault::Memory),
    }
}

// The built-in types and those that a text defines.
fn defined(alloc: Global, cnd: &Cnd) -> Result<Types, Fault>
    requires { KeepRules builtin cnd.now.definitions }
    ensures { Answers (is (Means (Ok (builtin ++ cnd.now.definitions)))) result }
{
    let mut registry = builtin(alloc)?;
    match add_kept(&mut registry, cnd.definitions.as_slice()) {
        Ok(()) => Ok(Ok(registry)),
        Err(_) => {
            drop(registry);
            Err(Fault::Memory)
        }
    }
}

// Adds definitions that keep the rules.
fn add_kept(registry: &mut Registry, definitions: &[TypeDef]) -> Result<(), AllocError>
    requires { KeepRules registry.old definitions.now }
    ensures { OnOk result (registry.new ≡ registry.old ++ definitions.now) }
{
    let mut rest = definitions;
    while let [first, more @ ..] = rest {
        add_lawful(registry, first)?;
        rest = more;
    }
    Ok(())
}

fn add_lawful(registry: &mut Registry, definition: &TypeDef) -> Result<(), AllocError>
    requires { type_fault registry.old definition.now ≡ None }
    ensures { OnOk result (registry.new ≡ registry.old ++ definition.now ∷ []) }
{
    match registry.add(definition.copy()?) {
        Ok(()) => Ok(()),
        Err(TypeFault::Memory) => Err(AllocError),
        // The definition keeps the rules.
        Err(TypeFault::BadType(_)) => unreachable!(),
    }
}
