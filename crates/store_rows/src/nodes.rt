// The memory of a cluster node: what it draws, pins and notes, what a recovery leaves, and what
// changed.
ghost use Rattle.std.specs.Prelude.{◌≡◌, IfOk};
ghost use Rattle.jr_rev.specs.Vectors.{start};
ghost use Rattle.oak_node.specs.Heads.{IsInFlight};
ghost use Rattle.oak_node.specs.Memory.{begun};

use crate::tables::put_count;
use crate::texts::{only, push};
use jr_path::{List, Path};
use jr_rev::{RevVec, Revision};
use oak_node::{NodeMem, Note, Pending};
use rows::{Out, vector};
use std::alloc::AllocError;

// The times of two draws, the second of which notes two paths; how many pins two owners have, and
// how many once the node is recovered; the time of the head's own entry then; and how many paths
// are to be published of those that the head sees.
pub(crate) fn add(out: &mut Out) {
    let paths = two_paths(out);
    add_told(paths.as_slice(), out);
    drop(paths);
}

fn two_paths(out: &mut Out) -> List<Path> {
    let mut paths = only(out.path_or_root("/b"), out);
    push(out.path_or_root("/a"), &mut paths, out);
    paths
}

fn add_told(paths: &[Path], out: &mut Out) {
    let mut memory = NodeMem::new(out.alloc, 1, RevVec::start(2));
    add_draws(&mut memory, paths, out);
    let pinned = pin_two(&mut memory);
    out.note(pinned);
    put_count(memory.pins().len() as u64, out);
    add_recovery(&mut memory, out);
    add_pending(&mut memory, out);
    drop(memory);
}

fn add_draws(memory: &mut NodeMem, paths: &[Path], out: &mut Out)
    requires { memory.old ≡ begun 1 (start 2) }
{
    match draws(memory, &[], paths) {
        Ok((first, second)) => {
            put_count(first.time, out);
            put_count(second.time, out);
        }
        Err(_) => out.is_broken = true,
    }
}

// Two draws with their paths. The first is still in flight behind the second.
#[tactic(auto, using(oak_node::proofs::Noting::noted_is, oak_node::proofs::Noting::drawn_flies, oak_node::proofs::Noting::still_flies))]
fn draws(
    memory: &mut NodeMem,
    first: &[Path],
    second: &[Path],
) -> Result<(Revision, Revision), AllocError>
    requires { memory.old ≡ begun 1 (start 2) }
    ensures { IfOk result (λ drawn. IsInFlight memory.new drawn.0) }
{
    let first = memory.draw_noting(first)?;
    let second = memory.draw_noting(second)?;
    Ok((first, second))
}

fn pin_two(memory: &mut NodeMem) -> Result<(), AllocError> {
    memory.pin(7)?;
    if memory.pin_of(7).is_some() {
        memory.pin_like(71, 7)?;
    }
    Ok(())
}

fn add_recovery(memory: &mut NodeMem, out: &mut Out) {
    memory.stop();
    memory.recover();
    put_count(memory.pins().len() as u64, out);
    match memory.head().get(1) {
        Some(own) => put_count(own.time, out),
        None => out.put("no entry"),
    }
}

fn add_pending(memory: &mut NodeMem, out: &mut Out) {
    match memory.take_pending() {
        Ok(pending) => put_pending(pending, out),
        Err(_) => out.is_broken = true,
    }
}

fn put_pending(pending: Pending, out: &mut Out) {
    put_count(pending.paths.len() as u64, out);
    drop(pending);
}

// What a node says changed, where its first draw noted /a and has ended, and its second noted /b
// and is in flight: since the start and since the head, with a pin at the start; the same behind a
// background write; behind another with the pin at the head; and since that head and the new one,
// once it has learned of another node.
pub(crate) fn add_changed(out: &mut Out) {
    let first = only(out.path_or_root("/a"), out);
    let second = only(out.path_or_root("/b"), out);
    let mut memory = NodeMem::new(out.alloc, 1, RevVec::start(2));
    let start = memory.head();
    let drawn = draw_and_end(&mut memory, first.as_slice(), second.as_slice());
    out.note(drawn);
    drop(first);
    drop(second);
    let head = memory.head();
    add_since(&memory, &start, &head, out);
    publish(&mut memory, out);
    add_since(&memory, &start, &head, out);
    pin_and_publish(&mut memory, out);
    add_since(&memory, &start, &head, out);
    memory.learn(&vector("r5-0-2"), &RevVec::none());
    add_since(&memory, &head, &memory.head(), out);
    drop(memory);
}

// The memory is pinned at the start, and the first of two draws ends.
fn draw_and_end(memory: &mut NodeMem, first: &[Path], second: &[Path]) -> Result<(), AllocError>
    requires { memory.old ≡ begun 1 (start 2) }
{
    let (first, _) = draws(memory, first, second)?;
    memory.pin(7)?;
    memory.finish(first);
    Ok(())
}

fn publish(memory: &mut NodeMem, out: &mut Out) {
    match memory.take_pending() {
        Ok(pending) => drop(pending),
        Err(_) => out.is_broken = true,
    }
}

fn pin_and_publish(memory: &mut NodeMem, out: &mut Out) {
    if memory.pin(7).is_err() {
        out.is_broken = true;
    }
    publish(memory, out);
}

fn add_since(memory: &NodeMem, first: &RevVec, second: &RevVec, out: &mut Out) {
    put_since(memory.changed_since(first), out);
    put_since(memory.changed_since(second), out);
}

fn put_since(notes: Option<&[Note]>, out: &mut Out) {
    match notes {
        Some(notes) => put_notes(notes, out),
        None => out.put("unknown "),
    }
    out.put("| ");
}

fn put_notes(notes: &[Note], out: &mut Out) {
    for note in notes {
        out.put_path(&note.path);
        out.put(" ");
    }
}
