// Commands as JSON.
ghost use Rattle.std.specs.Prelude.{◌≡◌, ◌++◌, ◌∷◌, [], IfOk, OnOk, codes, map};
ghost use Rattle.serde_json.specs.Data.{string};
ghost use Rattle.serde_json.specs.View.{view};
ghost use Rattle.jr_gen.specs.Scripts.{session_beginning, command, round_command, ending, property_path};
ghost use Rattle.jr_gen.specs.declared.rounds.Round.TheVariants.{Set};

use crate::rounds::Round;
use serde_json::{Value as Json, json};
use std::alloc::{AllocError, Global};

// The command of a round of a session.
pub(crate) fn round_json(alloc: Global, session: u32, round: Round) -> Result<Json, AllocError>
    ensures { IfOk result (λ json. view json ≡ round_command session round) }
{
    match round {
        Round::Set(property, value) => set_json(alloc, session, property, value),
        Round::Save => word_json(alloc, "save"),
        Round::Get(other, property) => get_json(alloc, other, property),
        Round::Refresh => json!(in alloc; ["refresh", false]),
    }
}

fn set_json(alloc: Global, session: u32, property: u64, value: u64) -> Result<Json, AllocError>
    ensures { IfOk result (λ json. view json ≡ round_command session (Set property value)) }
{
    let path = format!(in alloc; "/g{session}")?;
    let name = format!(in alloc; "p{property}")?;
    json!(in alloc; ["set", path.as_str(), name.as_str(), value])
}

fn get_json(alloc: Global, session: u64, property: u64) -> Result<Json, AllocError>
    ensures { IfOk result (λ json.
        view json ≡ command (codes "get") (string (property_path session property) ∷ [])) }
{
    let path = format!(in alloc; "/g{session}/p{property}")?;
    json!(in alloc; ["get", path.as_str()])
}

// A command with no arguments.
fn word_json(alloc: Global, word: &str) -> Result<Json, AllocError>
    ensures { IfOk result (λ json. view json ≡ command word.now []) }
{
    json!(in alloc; [word])
}

// Puts the commands with which a session begins: it adds its node and saves it.
pub(crate) fn push_beginning(
    alloc: Global,
    commands: &mut Vec<Json>,
    session: u32,
) -> Result<(), AllocError>
    ensures { OnOk result
        (map view commands.new.items ≡ map view commands.old.items ++ session_beginning session) }
{
    let path = format!(in alloc; "/g{session}")?;
    commands.push(json!(in alloc; ["add", path.as_str()])?)?;
    commands.push(word_json(alloc, "save")?)?;
    Ok(())
}

// Puts the commands with which a session ends: the background work of its cluster node.
pub(crate) fn push_end(alloc: Global, commands: &mut Vec<Json>) -> Result<(), AllocError>
    ensures { OnOk result (map view commands.new.items ≡ map view commands.old.items ++ ending) }
{
    commands.push(word_json(alloc, "backWrite")?)?;
    commands.push(word_json(alloc, "backRead")?)?;
    Ok(())
}
