// The schedule of a script.
ghost use Rattle.std.specs.Prelude.{◌≡◌, ◌≤◌};
ghost use Rattle.serde_json.specs.Data.{array, item, no_items};
ghost use Rattle.serde_json.specs.View.{view, items_view};
ghost use Rattle.jr_args.specs.Outcomes.{Answers};
ghost use Rattle.jr_args.specs.Trees.{list_of};
ghost use Rattle.jr_script.specs.Numbers.{IsFoundOrNone, whole};
ghost use Rattle.jr_script.specs.Schedules.{IsEntry, entry_of, json_of, entry_list};
ghost use Rattle.jr_script.specs.Scripts.{counted_of, schedule_of};

use crate::numbers::{session_number, whole};
use crate::script::Entry;
use jr_args::Fault;
use jr_path::List;
use serde_json::Value as Json;
use std::alloc::Global;

// The rule on schedules.
const SCHEDULE: u8 = 8;

// The most entries of a schedule, and the greatest count of one.
const MAX_ENTRIES: usize = 1000000;

const MAX_COUNT: u32 = 1000000;

// The schedule of so many sessions.
pub fn schedule(alloc: Global, json: &Json, sessions: usize) -> Result<List<Entry>, Fault>
    requires { sessions ≤ 64 }
    ensures { Answers (schedule_of sessions (view json.now)) result }
{
    match json {
        Json::Array(items) => counted_entries(alloc, items, sessions),
        _ => Err(Fault::here(alloc, SCHEDULE)),
    }
}

fn counted_entries(alloc: Global, items: &[Json], sessions: usize) -> Result<List<Entry>, Fault>
    requires { sessions ≤ 64 }
    ensures { Answers (counted_of 1000000 8 (entry_of sessions) (items_view items.now)) result }
{
    if items.len() > MAX_ENTRIES {
        return Err(Fault::here(alloc, SCHEDULE));
    }
    entry_list(alloc, items, sessions)
}

fn entry_list(alloc: Global, items: &[Json], sessions: usize) -> Result<List<Entry>, Fault>
    requires { sessions ≤ 64 }
    ensures { Answers (list_of (entry_of sessions) 0 (items_view items.now)) result }
{
    let mut entries = Vec::new(alloc);
    for (index, item) in items.iter().enumerate() {
        match entry(alloc, item, sessions) {
            Ok(entry) => entries.push(entry)?,
            Err(fault) => return Err(fault.in_item(index)),
        }
    }
    Ok(List::of(entries))
}

fn entry(alloc: Global, json: &Json, sessions: usize) -> Result<Entry, Fault>
    requires { sessions ≤ 64 }
    ensures { Answers (entry_of sessions (view json.now)) result }
{
    match entry_in(json, sessions) {
        Some(entry) => Ok(entry),
        None => Err(Fault::here(alloc, SCHEDULE)),
    }
}

// The entry that the JSON is: a session's number, or a list.
fn entry_in(json: &Json, sessions: usize) -> Option<Entry>
    requires { sessions ≤ 64 }
    ensures { IsFoundOrNone (IsEntry sessions (view json.now)) result }
{
    match json {
        Json::Array(items) => entry_of_list(items, sessions),
        _ => Some(Entry::Turn(session_number(json, sessions)?)),
    }
}

// The entry that a list is: a session's number, a word, and for some words a count.
fn entry_of_list(items: &[Json], sessions: usize) -> Option<Entry>
    requires { sessions ≤ 64 }
    ensures { IsFoundOrNone (IsEntry sessions (array (items_view items.now))) result }
{
    let [session, word, more @ ..] = items else {
        return None;
    };
    let session = session_number(session, sessions)?;
    let word = word.as_str()?;
    match more {
        [] => plain(session, word),
        [count] => {
            let count = whole(count, 1, MAX_COUNT)?;
            repeated(session, word, count)
        }
        _ => None,
    }
}

// The entry of this word without a count.
fn plain(session: u32, word: &str) -> Option<Entry>
    ensures { IsFoundOrNone (λ e. entry_list session word.now no_items ≡ json_of e) result }
{
    match word {
        "draw" => Some(Entry::Draw(session)),
        "last" => Some(Entry::Last(session)),
        "read" => Some(Entry::Read(session)),
        _ => None,
    }
}

// The entry of this word with a count.
fn repeated(session: u32, word: &str, count: u32) -> Option<Entry>
    ensures { IsFoundOrNone (λ e. entry_list session word.now (item (whole count) no_items) ≡ json_of e) result }
{
    match word {
        "say" => Some(Entry::Say(session, count)),
        "write" => Some(Entry::Write(session, count)),
        _ => None,
    }
}
