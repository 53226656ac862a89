// The steps of a session on its node's memory.
ghost use Rattle.std.specs.Prelude.{◌≡◌, ◌<◌, ◌+◌, ◌∷◌, ◌++◌, [], IfOk, OnErr, OnOk, IsSome};
ghost use Rattle.oak_machine.specs.declared.event.Event.TheVariants as event;
ghost use Rattle.oak_machine.specs.declared.event.StepKind.TheVariants as kind;
ghost use Rattle.oak_node.specs.Pins.{pin_now, pin_of, with_pin};
ghost use Rattle.core_nodes.specs.Nodes.{without_session};
ghost use Rattle.oak_acts.specs.Acts.{pinned_base};

use jr_rev::{Pin, RevVec};
use oak_machine::{Event, Events, StepKind};
use oak_node::NodeMem;
use std::alloc::AllocError;

/// The session logs in: it is pinned at the head.
pub fn login(memory: &mut NodeMem, events: &mut Events, s: u32) -> Result<Pin, AllocError>
    ensures pin { IfOk result (λ pin. pin ≡ pin_now memory.old) }
    ensures memory { OnOk result (memory.new ≡ with_pin memory.old s (pin_now memory.old)) }
    ensures list { OnOk result
        (events.new.list ≡ events.old.list ++ event.Login s memory.old.head ∷ []) }
    ensures kept { OnErr result (memory.new ≡ memory.old) }
    ensures err { OnErr result (events.new.list ≡ events.old.list) }
    ensures places { events.new.places ≡ events.old.places }
{
    events.keep(1)?;
    let Ok(pin) = memory.pin(s) else {
        events.give_back(1);
        return Err(AllocError);
    };
    events.push_kept(Event::Login(s, pin.base));
    Ok(pin)
}

/// The base of the session, which is pinned, moves to the head.
pub fn refresh(memory: &mut NodeMem, events: &mut Events, s: u32) -> Result<Pin, AllocError>
    requires { IsSome (pin_of memory.old s) }
    ensures pin { IfOk result (λ pin. pin ≡ pin_now memory.old) }
    ensures memory { OnOk result (memory.new ≡ with_pin memory.old s (pin_now memory.old)) }
    ensures list { OnOk result
        (events.new.list ≡ events.old.list ++ event.Refresh s memory.old.head ∷ []) }
    ensures kept { OnErr result (memory.new ≡ memory.old) }
    ensures err { OnErr result (events.new.list ≡ events.old.list) }
    ensures places { events.new.places ≡ events.old.places }
{
    events.keep(1)?;
    Ok(refresh_kept(memory, events, s))
}

/// The base of the session moves to the head, with a place that is kept for it. It takes no memory.
pub fn refresh_kept(memory: &mut NodeMem, events: &mut Events, s: u32) -> Pin
    requires pinned { IsSome (pin_of memory.old s) }
    requires place { 0 < events.old.places }
    ensures pin { result ≡ pin_now memory.old }
    ensures memory { memory.new ≡ with_pin memory.old s (pin_now memory.old) }
    ensures list { events.new.list ≡ events.old.list ++ event.Refresh s memory.old.head ∷ [] }
    ensures places { events.new.places + 1 ≡ events.old.places }
{
    let pin = memory.repin(s);
    events.push_kept(Event::Refresh(s, pin.base));
    pin
}

/// The session leaves: its pin goes, and that of its cursor.
pub fn leave(memory: &mut NodeMem, events: &mut Events, s: u32) -> Result<(), AllocError>
    requires { s < 64 }
    ensures memory { OnOk result (memory.new ≡ without_session memory.old s) }
    ensures list { OnOk result (events.new.list ≡ events.old.list ++ event.Went s kind.End ∷ []) }
    ensures kept { OnErr result (memory.new ≡ memory.old) }
    ensures err { OnErr result (events.new.list ≡ events.old.list) }
    ensures places { events.new.places ≡ events.old.places }
{
    events.push(Event::Went(s, StepKind::End))?;
    memory.unpin(s);
    memory.unpin(64 + s);
    Ok(())
}

/// The base of the session.
pub fn base_of(memory: &NodeMem, s: u32) -> RevVec
    ensures { result ≡ pinned_base memory.now s }
{
    match memory.pin_of(s) {
        Some(pin) => pin.base,
        None => memory.head(),
    }
}
