// The script: its sessions, and their schedule.
ghost use Rattle.std.specs.Prelude.{◌≡◌, ◌<◌, ◌*◌, ◌++◌, IfOk, OnOk, map, string_bytes};
ghost use Rattle.serde_json.specs.View.{view};
ghost use Rattle.jr_gen.specs.Rounds.{after_rounds};
ghost use Rattle.jr_gen.specs.Scripts.{commands_data, json_list, rounds_data, script_data, script_text, session_data, sessions_data, turns_data};

use crate::commands::{push_beginning, push_end, round_json};
use crate::draws::Draws;
use crate::rounds::next_round;
use serde_json::{Value as Json, json};
use std::alloc::{AllocError, Global};

// How many rounds a session has, and how many turns of the schedule there are for each session.
const ROUNDS: u32 = 100;

/// The text of the script that is made from a seed, for that many sessions: compact JSON and a line end. There are two clusters,
/// one for a single session, and the sessions are on them in turn. Session s adds the node `/g<s>` and saves it; in each of a
/// hundred rounds it sets a property of that node, saves, gets a property of some session's node, or refreshes; it ends with
/// `backWrite` and `backRead`. The schedule has a hundred turns for each session, each of a session that is drawn.
#[tactic(auto, using(crate::proofs::Plain::script_plain))]
pub fn generate(alloc: Global, seed: u64, sessions: u32) -> Result<String, AllocError>
    requires { 0 < sessions }
    ensures { IfOk result (λ text. string_bytes text ≡ script_text seed sessions) }
{
    let script = script_json(alloc, seed, sessions)?;
    let text = script.to_string(alloc);
    drop(script);
    let mut text = text?;
    text.push_str("\n")?;
    Ok(text)
}

fn script_json(alloc: Global, seed: u64, sessions: u32) -> Result<Json, AllocError>
    requires { 0 < sessions }
    ensures { IfOk result (λ json. view json ≡ script_data seed sessions) }
{
    let mut draws = Draws::from(seed);
    let listed = sessions_json(alloc, &mut draws, sessions)?;
    let Ok(schedule) = schedule_json(alloc, &mut draws, sessions) else {
        drop(listed);
        return Err(AllocError);
    };
    json!(in alloc; {"clusters": sessions.min(2), "schedule": schedule, "sessions": listed})
}

fn sessions_json(alloc: Global, draws: &mut Draws, sessions: u32) -> Result<Json, AllocError>
    requires { 0 < sessions }
    ensures json { IfOk result (λ json.
        view json ≡ json_list (sessions_data sessions 0 sessions draws.old.state)) }
    ensures state { OnOk result (draws.new.state ≡ after_rounds (100 * sessions) draws.old.state) }
{
    let mut items = Vec::new(alloc);
    for session in 0..sessions {
        items.push(session_json(alloc, draws, session, sessions)?)?;
    }
    Ok(Json::Array(items))
}

fn session_json(
    alloc: Global,
    draws: &mut Draws,
    session: u32,
    sessions: u32,
) -> Result<Json, AllocError>
    requires { 0 < sessions }
    ensures json { IfOk result (λ json. view json ≡ session_data session sessions draws.old.state) }
    ensures state { OnOk result (draws.new.state ≡ after_rounds 100 draws.old.state) }
{
    let commands = commands_json(alloc, draws, session, sessions)?;
    json!(in alloc; {"cluster": 1 + session % 2, "commands": commands})
}

fn commands_json(
    alloc: Global,
    draws: &mut Draws,
    session: u32,
    sessions: u32,
) -> Result<Json, AllocError>
    requires { 0 < sessions }
    ensures json { IfOk result (λ json.
        view json ≡ json_list (commands_data session sessions draws.old.state)) }
    ensures state { OnOk result (draws.new.state ≡ after_rounds 100 draws.old.state) }
{
    let mut commands = Vec::new(alloc);
    push_beginning(alloc, &mut commands, session)?;
    push_rounds(alloc, &mut commands, draws, session, sessions)?;
    push_end(alloc, &mut commands)?;
    Ok(Json::Array(commands))
}

fn push_rounds(
    alloc: Global,
    commands: &mut Vec<Json>,
    draws: &mut Draws,
    session: u32,
    sessions: u32,
) -> Result<(), AllocError>
    requires { 0 < sessions }
    ensures commands { OnOk result (map view commands.new.items
        ≡ map view commands.old.items ++ rounds_data 100 session sessions draws.old.state) }
    ensures state { OnOk result (draws.new.state ≡ after_rounds 100 draws.old.state) }
{
    for _ in 0..ROUNDS {
        let round = next_round(draws, sessions as u64);
        commands.push(round_json(alloc, session, round)?)?;
    }
    Ok(())
}

fn schedule_json(alloc: Global, draws: &mut Draws, sessions: u32) -> Result<Json, AllocError>
    requires { 0 < sessions }
    ensures { IfOk result (λ json.
        view json ≡ json_list (turns_data (100 * sessions) sessions draws.old.state)) }
{
    let most = sessions as u64;
    let mut turns = Vec::new(alloc);
    for _ in 0..ROUNDS as u64 * most {
        turns.push(Json::from(draws.below(most)))?;
    }
    Ok(Json::Array(turns))
}
