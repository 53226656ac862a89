// The commands of a script.
ghost use Rattle.serde_json.specs.View.{view, items_view};
ghost use Rattle.jr_args.specs.Commands.{command_named, called_of, command_of, command_listed, named_of};
ghost use Rattle.std.specs.Prelude.{Some};
ghost use Rattle.serde_json.specs.Find.{as_str};
ghost use Rattle.jr_args.specs.declared.word.Word.TheVariants as the_word;
ghost use Rattle.jr_args.specs.Outcomes.{Answers};

use crate::arguments::{
    mask_at, name_at, name_if_any_at, number_at, path_at, property_at, text_at, tree_at, truth_at,
    variables_at,
};
use crate::fault::Fault;
use crate::word::{OnName, OnPath, Word, fits, word_named};
use jcr_trans::Command;
use jr_path::Text;
use serde_json::Value as Json;
use std::alloc::Global;

// The rule on the form of a command.
const FORM: u8 = 5;

/// Reads a command from JSON: a list of its name and its arguments. `Bad` has the first of these rules that is broken, and
/// the place from the command on.
///
/// 5. It is a list of the name of a command and its arguments, each of its JSON kind.
/// 6. Paths and names are in the grammar (JSR 283, 3.2 Names and 3.4 Paths). A path may be too deep or too long.
/// 7. Values are those that `read_property` of `jr_json` reads; a query's variable has one value.
pub fn command(alloc: Global, json: &Json) -> Result<Command, Fault>
    ensures { Answers (command_of (view json.now)) result }
{
    match json {
        Json::Array(items) => listed(alloc, items),
        _ => Err(Fault::here(alloc, FORM)),
    }
}

// The command that a list is: its name, and then its arguments.
fn listed(alloc: Global, items: &[Json]) -> Result<Command, Fault>
    ensures { Answers (command_listed (items_view items.now)) result }
{
    match items {
        [] => Err(Fault::here(alloc, FORM)),
        [word, arguments @ ..] => named(alloc, word, arguments),
    }
}

fn named(alloc: Global, word: &Json, arguments: &[Json]) -> Result<Command, Fault>
    ensures { Answers (called_of (as_str (view word.now)) (items_view arguments.now)) result }
{
    match word.as_str() {
        Some(text) => match word_named(text) {
            Some(word) => fitting(alloc, word, arguments),
            None => Err(Fault::here(alloc, FORM)),
        },
        None => Err(Fault::here(alloc, FORM)),
    }
}

fn fitting(alloc: Global, word: Word, arguments: &[Json]) -> Result<Command, Fault>
    ensures { Answers (named_of (Some word) (items_view arguments.now)) result }
{
    if fits(word.kinds(), arguments) {
        call(alloc, word, arguments)
    } else {
        Err(Fault::here(alloc, FORM))
    }
}

// The command of this name with arguments that fit.
fn call(alloc: Global, word: Word, arguments: &[Json]) -> Result<Command, Fault>
    ensures { Answers (command_named word (items_view arguments.now)) result }
{
    match word {
        Word::Bare(word) => Ok(word.command()),
        Word::OnPath(word) => on_path(alloc, word, arguments),
        Word::OnText(word) => {
            let text = Text::copy_of(alloc, text_at(arguments, 0))?;
            Ok(word.command(text))
        }
        Word::OnName(word) => on_name(alloc, word, arguments),
        Word::OnNode(word) => Ok(word.command(number_at(arguments, 0))),
        Word::Add => add(alloc, arguments),
        Word::Tree => tree(alloc, arguments),
        Word::Set => set(alloc, arguments),
        Word::Move => move_to(alloc, arguments),
        Word::Refresh => Ok(Command::Refresh(truth_at(arguments, 0))),
        Word::Lock => lock(alloc, arguments),
        Word::Restore => restore(alloc, arguments),
        Word::Label => label(alloc, arguments),
        Word::Observe => observe(alloc, arguments),
        Word::Query => query(alloc, arguments),
        Word::OrderBefore => order_before(alloc, arguments),
    }
}

fn on_path(alloc: Global, word: OnPath, arguments: &[Json]) -> Result<Command, Fault>
    ensures { Answers (command_named (the_word.OnPath word) (items_view arguments.now)) result }
{
    let path = path_at(alloc, arguments, 0)?;
    Ok(word.command(path))
}

fn on_name(alloc: Global, word: OnName, arguments: &[Json]) -> Result<Command, Fault>
    ensures { Answers (command_named (the_word.OnName word) (items_view arguments.now)) result }
{
    let path = path_at(alloc, arguments, 0)?;
    let name = name_at(alloc, arguments, 1)?;
    Ok(word.command(path, name))
}

fn add(alloc: Global, arguments: &[Json]) -> Result<Command, Fault>
    ensures { Answers (command_named the_word.Add (items_view arguments.now)) result }
{
    let path = path_at(alloc, arguments, 0)?;
    let node_type = name_if_any_at(alloc, arguments, 1)?;
    Ok(Command::Add(path, node_type))
}

fn tree(alloc: Global, arguments: &[Json]) -> Result<Command, Fault>
    ensures { Answers (command_named the_word.Tree (items_view arguments.now)) result }
{
    let path = path_at(alloc, arguments, 0)?;
    let nodes = tree_at(alloc, arguments, 1)?;
    Ok(Command::Tree(path, nodes))
}

fn set(alloc: Global, arguments: &[Json]) -> Result<Command, Fault>
    ensures { Answers (command_named the_word.Set (items_view arguments.now)) result }
{
    let path = path_at(alloc, arguments, 0)?;
    let name = name_at(alloc, arguments, 1)?;
    let property = property_at(alloc, arguments, 2)?;
    Ok(Command::Set(path, name, property))
}

fn move_to(alloc: Global, arguments: &[Json]) -> Result<Command, Fault>
    ensures { Answers (command_named the_word.Move (items_view arguments.now)) result }
{
    let path = path_at(alloc, arguments, 0)?;
    let target = path_at(alloc, arguments, 1)?;
    Ok(Command::Move(path, target))
}

fn lock(alloc: Global, arguments: &[Json]) -> Result<Command, Fault>
    ensures { Answers (command_named the_word.Lock (items_view arguments.now)) result }
{
    let path = path_at(alloc, arguments, 0)?;
    Ok(Command::Lock(path, truth_at(arguments, 1)))
}

fn restore(alloc: Global, arguments: &[Json]) -> Result<Command, Fault>
    ensures { Answers (command_named the_word.Restore (items_view arguments.now)) result }
{
    let path = path_at(alloc, arguments, 0)?;
    let version = Text::copy_of(alloc, text_at(arguments, 1))?;
    Ok(Command::Restore(path, version))
}

fn label(alloc: Global, arguments: &[Json]) -> Result<Command, Fault>
    ensures { Answers (command_named the_word.Label (items_view arguments.now)) result }
{
    let path = path_at(alloc, arguments, 0)?;
    let label = name_at(alloc, arguments, 2)?;
    let version = Text::copy_of(alloc, text_at(arguments, 1))?;
    Ok(Command::Label(path, version, label, truth_at(arguments, 3)))
}

fn observe(alloc: Global, arguments: &[Json]) -> Result<Command, Fault>
    ensures { Answers (command_named the_word.Observe (items_view arguments.now)) result }
{
    let path = path_at(alloc, arguments, 0)?;
    Ok(Command::Observe(path, truth_at(arguments, 1), mask_at(arguments, 2)))
}

fn query(alloc: Global, arguments: &[Json]) -> Result<Command, Fault>
    ensures { Answers (command_named the_word.Query (items_view arguments.now)) result }
{
    let variables = variables_at(alloc, arguments, 1)?;
    let text = Text::copy_of(alloc, text_at(arguments, 0))?;
    Ok(Command::Query(text, variables))
}

fn order_before(alloc: Global, arguments: &[Json]) -> Result<Command, Fault>
    ensures { Answers (command_named the_word.OrderBefore (items_view arguments.now)) result }
{
    let path = path_at(alloc, arguments, 0)?;
    let name = name_if_any_at(alloc, arguments, 1)?;
    Ok(Command::OrderBefore(path, name))
}
