// The identifiers that a session draws.
ghost use Rattle.std.specs.Prelude.{◌≡◌, ◌+◌, ◌%◌, ◌^◌, IfOk, string_bytes};
ghost use Rattle.jcr_law.specs.State.{next_id, used};

use jcr_ref::{identifier, identifiers_are_uuids};
use jcr_trans::Command;
use jr_path::Text;
use jr_tree::Who;
use std::alloc::{AllocError, Global};

/// The text of the next identifier of a session (JSR 283, 3.8 Referenceable Identifiers).
pub fn next_id(alloc: Global, who: &Who) -> Result<Text, AllocError>
    ensures { IfOk result (λ id. id ≡ next_id who.now) }
{
    Ok(Text::of(next_text(alloc, who)?))
}

fn next_text(alloc: Global, who: &Who) -> Result<String, AllocError>
    ensures { IfOk result (λ id. string_bytes id ≡ next_id who.now) }
{
    identifiers_are_uuids();
    identifier(alloc, session_of(who), next_count(who))
}

// The number of the session, of which identifiers have the last 24 bits.
fn session_of(who: &Who) -> u32
    ensures { result % 2 ^ 24 ≡ (who.now.session + who.now.earlier) % 2 ^ 24 }
{
    who.session.wrapping_add(who.earlier)
}

// The count of the next identifier, of which it has the last 24 bits.
fn next_count(who: &Who) -> u32
    ensures { result % 2 ^ 24 ≡ (who.now.ids + 1) % 2 ^ 24 }
{
    who.ids.wrapping_add(1)
}

/// How many identifiers a command has used that is no command of the view, by whether it was
/// accepted, and whether its commit drew one (JSR 283, 3.8 Referenceable Identifiers).
pub fn used(command: &Command, ok: bool, drew: bool) -> u32
    ensures { result ≡ used ok drew command.now }
{
    match command {
        Command::Lock(_, _) => u32::from(drew),
        Command::Checkin(_) => u32::from(drew),
        Command::Checkpoint => u32::from(ok),
        _ => 0,
    }
}
