// Two sessions log in, one step each, as they are played.
use jr_path::List;
use jr_rev::RevVec;
use oak_machine::{Event, IdleLaw};
use oak_port::Task;
use oak_world::World;
use rows::{Out, short};
use std::alloc::{AllocError, Global};

// Numbers of sessions: who has logged in once they were played, whether at the start of two cluster
// nodes; and how many documents there are then.
pub(crate) fn add_play(text: &str, out: &mut Out) {
    match coming(out.alloc) {
        Ok(world) => add_played(world, text, out),
        Err(_) => out.is_broken = true,
    }
}

// A world of two cluster nodes with a session each, which are told to log in.
fn coming(alloc: Global) -> Result<World<IdleLaw>, AllocError> {
    let mut world = World::new(alloc, &IdleLaw, 2, &[1, 2])?;
    if let Err(fault) = world.start(0, Task::Login) {
        drop(world);
        return Err(fault);
    }
    if let Err(fault) = world.start(1, Task::Login) {
        drop(world);
        return Err(fault);
    }
    Ok(world)
}

fn add_played(world: World<IdleLaw>, text: &str, out: &mut Out) {
    let schedule = schedule(text, out);
    let mut world = world;
    world.play(schedule.as_slice());
    put_world(&world, out);
    drop(world);
}

fn schedule(text: &str, out: &mut Out) -> List<u32> {
    let mut schedule = List::new(out.alloc);
    for word in text.split_whitespace() {
        let pushed = schedule.push(short(word));
        out.note(pushed);
    }
    schedule
}

fn put_world(world: &World<IdleLaw>, out: &mut Out) {
    for event in world.journal().events.as_slice() {
        put_login(event, out);
    }
    out.put_number(world.documents().documents().len() as u64);
}

fn put_login(event: &Event, out: &mut Out) {
    if let Event::Login(s, base) = event {
        out.put_number(u64::from(*s));
        out.put(if *base == RevVec::start(2) {
            "y "
        } else {
            "n "
        });
    }
}
