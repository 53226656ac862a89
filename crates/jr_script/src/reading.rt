// Scripts from the bytes of their JSON.
ghost use Rattle.std.specs.Prelude.{◌≡◌, ◌≤◌, [], IfErr, IfOk, Ok, Some, bytes_eq, codes, length, map};
ghost use Rattle.std.specs.List.{list_any};
ghost use Rattle.serde_json.specs.Data.{Data};
ghost use Rattle.serde_json.specs.Find.{get};
ghost use Rattle.serde_json.specs.View.{view, items_view, members_view};
ghost use Rattle.jr_args.specs.Commands.{command_of};
ghost use Rattle.jr_args.specs.Outcomes.{Answers};
ghost use Rattle.jr_args.specs.Trees.{list_of, optional_of};
ghost use Rattle.jr_builtin.specs.Builtin.{builtin};
ghost use Rattle.jr_script.specs.declared.script.ScriptFault.TheVariants.{Bad};
ghost use Rattle.jr_script.specs.Types.{types_read};
ghost use Rattle.jr_script.specs.Scripts.{are_keys, cluster_of, clusters_of, read_commands, counted_of, member_of, schedule_of, script_in, script_of, script_over, turns_in, session_in, session_of, sessions_of, IsFault, IsJson, IsScript};

use crate::numbers::whole;
use crate::schedule::schedule;
use crate::script::{Entry, Script, ScriptFault, TextFault};
use crate::types::{Types, types};
use jcr_trans::{Command, SessionScript};
use jr_args::{Fault, command, pointer};
use jr_builtin::builtin;
use jr_path::{List, Text};
use jr_types::Registry;
use serde_json::{Map, Value as Json};
use std::alloc::{AllocError, Global};

/// The most commands of a session.
pub const MAX_COMMANDS: usize = 10000;

/// The most sessions of a script.
pub const MAX_SESSIONS: usize = 64;

/// The most cluster nodes of a script.
pub const MAX_CLUSTERS: u32 = 8;

// The rules: the bytes, the keys of the whole, the cluster nodes, the sessions, and a text of types.
const JSON: u8 = 1;

const KEYS: u8 = 2;

const CLUSTERS: u8 = 3;

const SESSIONS: u8 = 4;

const TEXT: u8 = 10;

/// Reads a script from JSON (RFC 8259). `Bad` has the first rule that is broken, in the order of the bytes, the keys of the
/// whole, the cluster nodes, the types, the sessions, their commands, the arguments of each and the entries, and the JSON
/// Pointer (RFC 6901) of the value that breaks it, or of its container where it is missing. Of a list that is too long it is
/// the list's. The offset is `None`, but for rule 10.
///
/// 1. The bytes are JSON that serde_json reads; else the pointer is empty. Where a key comes twice the last one counts.
/// 2. The top is an object with the key `sessions`, and with no other keys than `clusters`, `types` and `schedule`.
/// 3. `clusters`, the number of cluster nodes, is a whole number from 1 to 8; 1 where it is left out.
/// 4. `sessions` is a list of at most 64 objects with the key `commands`, a list of at most 10,000, and no other key than
///    `cluster`, the number of one of the cluster nodes; 1 where it is left out.
/// 5. A command is a list of the name of one and its arguments, each of its JSON kind.
/// 6. Paths and names are in the grammar (JSR 283, 3.2 Names and 3.4 Paths). A path may be too deep or too long.
/// 7. Values are those that `read_property` of `jr_json` reads; a query's variable has one value.
/// 8. `schedule` is a list of at most 1,000,000 entries: `s`, `[s,"say",n]`, `[s,"draw"]`, `[s,"write",n]`, `[s,"last"]` or
///    `[s,"read"]`, where s is the number of a session and n a whole number from 1 to 1,000,000; empty where it is left out.
/// 9. `types` is a list of definitions of node types, or a text; empty where it is left out. `read_type` reads each, and
///    `Registry::add` takes it over the built-in types and those before it.
/// 10. A text of types is in the notation of `read_cnd` (JSR 283, 25.2 Compact Node Type Definition Notation), and its
///    definitions are taken so too. The offset is `read_cnd`'s, of either fault.
pub fn read_script(alloc: Global, bytes: &[u8]) -> Result<Script, ScriptFault>
    ensures ok { IfOk result (λ s. (d : Data) × IsJson bytes.now d × IsScript d s) }
    ensures err { IfErr result (IsFault bytes.now) }
{
    let json = match Json::from_slice(alloc, bytes) {
        Ok(json) => json,
        Err(error) => {
            let is_memory = error.is_memory();
            drop(error);
            return Err(if is_memory {
                ScriptFault::Memory
            } else {
                ScriptFault::Bad {
                    rule: JSON,
                    pointer: Text::new(alloc),
                    offset: None,
                }
            });
        }
    };
    let read = script(alloc, &json);
    drop(json);
    match read {
        Ok(Ok(script)) => Ok(script),
        Ok(Err(fault)) => Err(bad_text(alloc, fault)?),
        Err(Fault::Bad { rule, steps }) => Err(ScriptFault::Bad {
            rule,
            pointer: pointer(alloc, &steps)?,
            offset: None,
        }),
        Err(Fault::Memory) => Err(ScriptFault::Memory),
    }
}

// The fault of a text of types.
fn bad_text(alloc: Global, fault: TextFault) -> Result<ScriptFault, AllocError>
    ensures { IfOk result (λ bad. bad ≡ Bad 10 (codes "/types") (Some fault.offset)) }
{
    Ok(ScriptFault::Bad {
        rule: TEXT,
        pointer: Text::copy_of(alloc, "/types")?,
        offset: Some(fault.offset),
    })
}

// A script, or why the text of its types has none.
type Whole = Result<Script, TextFault>;

fn script(alloc: Global, json: &Json) -> Result<Whole, Fault>
    ensures { Answers (script_of (view json.now)) result }
{
    let Json::Object(members) = json else {
        return Err(Fault::here(alloc, KEYS));
    };
    if !are_keys(&["clusters", "types", "sessions", "schedule"], members) {
        return Err(Fault::here(alloc, KEYS));
    }
    if json.get("sessions").is_none() {
        return Err(Fault::here(alloc, KEYS));
    }
    script_in(alloc, json)
}

fn script_in(alloc: Global, json: &Json) -> Result<Whole, Fault>
    ensures { Answers (script_in (view json.now)) result }
{
    let clusters = clusters_in(alloc, json)?;
    match types_in(alloc, json)? {
        Ok(types) => script_over(alloc, json, clusters, types),
        Err(fault) => Ok(Err(fault)),
    }
}

// A script on so many cluster nodes, of these types.
fn script_over(alloc: Global, json: &Json, clusters: u32, types: Registry) -> Result<Whole, Fault>
    ensures { Answers (script_over (view json.now) clusters types) result }
{
    match turns_in(alloc, json, clusters) {
        Ok(Turns { sessions, schedule }) => Ok(Ok(Script {
            clusters,
            types,
            sessions,
            schedule,
        })),
        Err(fault) => {
            drop(types);
            Err(fault)
        }
    }
}

// The sessions, and whose turn it is when.
#[derive(Drop)]
pub struct Turns {
    sessions: List<SessionScript>,
    schedule: List<Entry>,
}

fn turns_in(alloc: Global, json: &Json, clusters: u32) -> Result<Turns, Fault>
    ensures { Answers (turns_in clusters (view json.now)) result }
{
    let sessions = sessions_in(alloc, json, clusters)?;
    let schedule = schedule_in(alloc, json, sessions.inner().len())?;
    Ok(Turns { sessions, schedule })
}

// ---- the members of the whole

fn clusters_in(alloc: Global, json: &Json) -> Result<u32, Fault>
    ensures { Answers (optional_of (codes "clusters") 1 clusters_of (get (codes "clusters") (view json.now))) result }
{
    match json.get("clusters") {
        None => Ok(1),
        Some(number) => match clusters(alloc, number) {
            Ok(clusters) => Ok(clusters),
            Err(fault) => Err(fault.in_member(alloc, "clusters")),
        },
    }
}

fn clusters(alloc: Global, json: &Json) -> Result<u32, Fault>
    ensures { Answers (clusters_of (view json.now)) result }
{
    match whole(json, 1, MAX_CLUSTERS) {
        Some(clusters) => Ok(clusters),
        None => Err(Fault::here(alloc, CLUSTERS)),
    }
}

fn types_in(alloc: Global, json: &Json) -> Result<Types, Fault>
    ensures { Answers (optional_of (codes "types") (Ok builtin) types_read
        (get (codes "types") (view json.now))) result }
{
    match json.get("types") {
        None => Ok(Ok(builtin(alloc)?)),
        Some(given) => match types(alloc, given) {
            Ok(types) => Ok(types),
            Err(fault) => Err(fault.in_member(alloc, "types")),
        },
    }
}

fn sessions_in(alloc: Global, json: &Json, clusters: u32) -> Result<List<SessionScript>, Fault>
    ensures { Answers (member_of (codes "sessions") 2 (sessions_of clusters) (get (codes "sessions") (view json.now))) result }
{
    match json.get("sessions") {
        None => Err(Fault::here(alloc, KEYS)),
        Some(list) => match sessions(alloc, list, clusters) {
            Ok(sessions) => Ok(sessions),
            Err(fault) => Err(fault.in_member(alloc, "sessions")),
        },
    }
}

fn schedule_in(alloc: Global, json: &Json, sessions: usize) -> Result<List<Entry>, Fault>
    requires { sessions ≤ 64 }
    ensures { Answers (optional_of (codes "schedule") [] (schedule_of sessions) (get (codes "schedule") (view json.now))) result }
{
    match json.get("schedule") {
        None => Ok(List::new(alloc)),
        Some(list) => match schedule(alloc, list, sessions) {
            Ok(entries) => Ok(entries),
            Err(fault) => Err(fault.in_member(alloc, "schedule")),
        },
    }
}

// ---- keys

// Whether each key is one of these.
fn are_keys(keys: &[&str], members: &Map<String, Json>) -> bool
    ensures { result ≡ are_keys (map (λ k. k.now) keys.now) (members_view members.now.entries) }
{
    for (key, _member) in members.iter() {
        if !is_one_of(keys, key.as_str()) {
            return false;
        }
    }
    true
}

fn is_one_of(keys: &[&str], key: &str) -> bool
    ensures { result ≡ list_any (λ k. bytes_eq key.now k) (map (λ k. k.now) keys.now) }
{
    match keys {
        [] => false,
        [first, rest @ ..] => key == *first || is_one_of(rest, key),
    }
}

// ---- sessions

fn sessions(alloc: Global, json: &Json, clusters: u32) -> Result<List<SessionScript>, Fault>
    ensures { Answers (sessions_of clusters (view json.now)) result }
{
    match json {
        Json::Array(items) => counted_sessions(alloc, items, clusters),
        _ => Err(Fault::here(alloc, SESSIONS)),
    }
}

fn counted_sessions(
    alloc: Global,
    items: &[Json],
    clusters: u32,
) -> Result<List<SessionScript>, Fault>
    ensures { Answers (counted_of 64 4 (session_of clusters) (items_view items.now)) result }
{
    if items.len() > MAX_SESSIONS {
        return Err(Fault::here(alloc, SESSIONS));
    }
    session_list(alloc, items, clusters)
}

fn session_list(alloc: Global, items: &[Json], clusters: u32) -> Result<List<SessionScript>, Fault>
    ensures { Answers (list_of (session_of clusters) 0 (items_view items.now)) result }
{
    let mut sessions = Vec::new(alloc);
    for (index, item) in items.iter().enumerate() {
        match session(alloc, item, clusters) {
            Ok(session) => sessions.push(session)?,
            Err(fault) => return Err(fault.in_item(index)),
        }
    }
    Ok(List::of(sessions))
}

fn session(alloc: Global, json: &Json, clusters: u32) -> Result<SessionScript, Fault>
    ensures { Answers (session_of clusters (view json.now)) result }
{
    let Json::Object(members) = json else {
        return Err(Fault::here(alloc, SESSIONS));
    };
    if !are_keys(&["cluster", "commands"], members) {
        return Err(Fault::here(alloc, SESSIONS));
    }
    session_in(alloc, json, clusters)
}

fn session_in(alloc: Global, json: &Json, clusters: u32) -> Result<SessionScript, Fault>
    ensures { Answers (session_in clusters (view json.now)) result }
{
    let cluster = cluster_in(alloc, json, clusters)?;
    let commands = commands_in(alloc, json)?;
    Ok(SessionScript { cluster, commands })
}

fn cluster_in(alloc: Global, json: &Json, clusters: u32) -> Result<u32, Fault>
    ensures { Answers (optional_of (codes "cluster") 1 (cluster_of clusters) (get (codes "cluster") (view json.now))) result }
{
    match json.get("cluster") {
        None => Ok(1),
        Some(number) => match cluster(alloc, number, clusters) {
            Ok(cluster) => Ok(cluster),
            Err(fault) => Err(fault.in_member(alloc, "cluster")),
        },
    }
}

fn cluster(alloc: Global, json: &Json, clusters: u32) -> Result<u32, Fault>
    ensures { Answers (cluster_of clusters (view json.now)) result }
{
    match whole(json, 1, clusters) {
        Some(cluster) => Ok(cluster),
        None => Err(Fault::here(alloc, SESSIONS)),
    }
}

fn commands_in(alloc: Global, json: &Json) -> Result<List<Command>, Fault>
    ensures { Answers (member_of (codes "commands") 4 read_commands (get (codes "commands") (view json.now))) result }
{
    match json.get("commands") {
        None => Err(Fault::here(alloc, SESSIONS)),
        Some(list) => match commands(alloc, list) {
            Ok(commands) => Ok(commands),
            Err(fault) => Err(fault.in_member(alloc, "commands")),
        },
    }
}

fn commands(alloc: Global, json: &Json) -> Result<List<Command>, Fault>
    ensures { Answers (read_commands (view json.now)) result }
{
    match json {
        Json::Array(items) => counted_commands(alloc, items),
        _ => Err(Fault::here(alloc, SESSIONS)),
    }
}

fn counted_commands(alloc: Global, items: &[Json]) -> Result<List<Command>, Fault>
    ensures { Answers (counted_of 10000 4 command_of (items_view items.now)) result }
{
    if items.len() > MAX_COMMANDS {
        return Err(Fault::here(alloc, SESSIONS));
    }
    command_list(alloc, items)
}

fn command_list(alloc: Global, items: &[Json]) -> Result<List<Command>, Fault>
    ensures { Answers (list_of command_of 0 (items_view items.now)) result }
{
    let mut commands = Vec::new(alloc);
    for (index, item) in items.iter().enumerate() {
        match command(alloc, item) {
            Ok(command) => commands.push(command)?,
            Err(fault) => return Err(fault.in_item(index)),
        }
    }
    Ok(List::of(commands))
}
