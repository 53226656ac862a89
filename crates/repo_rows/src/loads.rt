// How many documents the loads of session 1 read, each in a step of its own.
use crate::scripts::ran;
use jcr_law::JcrLaw;
use oak_world::World;
use rows::{Out, cut, number};

// MOST SCRIPT: `y` where session 1 reads no more documents than that, else how many.
pub(crate) fn add_loads(rest: &str, out: &mut Out) {
    let (most, text) = cut(rest);
    if let Some(reads) = reads_in(text, out) {
        put_within(reads, number(most), out);
    }
}

fn put_within(reads: u64, most: u64, out: &mut Out) {
    if reads <= most {
        out.put("y");
    } else {
        out.put_number(reads);
    }
}

// SCRIPT, a tab, SCRIPT: `y` where session 1 reads as many documents in either.
pub(crate) fn add_same(rest: &str, out: &mut Out) {
    let (one, other) = rest.split_once('\t').unwrap_or((rest, ""));
    let one = reads_in(one, out);
    let other = reads_in(other, out);
    out.put(if one == other { "y" } else { "n" });
}

// How many documents session 1 of a script reads; none where there is no such session, or no
// script.
fn reads_in(text: &str, out: &mut Out) -> Option<u64> {
    let world = ran(text, out);
    let reads = match &world {
        Some(world) => reads_of(world),
        None => None,
    };
    drop(world);
    reads
}

// How many documents session 1 has read; none where there is no such session.
pub(crate) fn reads_of(world: &World<JcrLaw>) -> Option<u64> {
    if world.journal().sessions.inner().len() > 1 {
        Some(world.reads(1))
    } else {
        None
    }
}
