// Whole numbers of JSON.
ghost use Rattle.serde_json.specs.View.{view};
ghost use Rattle.std.specs.Prelude.{◌≤◌};
ghost use Rattle.jr_script.specs.Numbers.{IsFoundOrNone, IsSession, IsNumberJson};

use serde_json::Value as Json;

// The number that the JSON is, where it is a whole one from `low` to `most`.
pub fn whole(json: &Json, low: u32, most: u32) -> Option<u32>
    ensures { IsFoundOrNone (IsNumberJson low most (view json.now)) result }
{
    let number = json.as_u64()?;
    if number < u64::from(low) {
        return None;
    }
    if number > u64::from(most) {
        return None;
    }
    Some(number as u32)
}

// The number of one of the sessions.
pub fn session_number(json: &Json, sessions: usize) -> Option<u32>
    requires { sessions ≤ 64 }
    ensures { IsFoundOrNone (IsSession sessions (view json.now)) result }
{
    let number = json.as_u64()?;
    if number >= sessions as u64 {
        return None;
    }
    Some(number as u32)
}
