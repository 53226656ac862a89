// A script run by its schedule.
ghost use Rattle.std.specs.Prelude.{◌<◌, All, IfOk, OnOk, length, map};
ghost use Rattle.std.specs.List.{range_with_len};
ghost use Rattle.jr_script.specs.Bounds.{IsWithin};
ghost use Rattle.jr_stage.specs.Parts.{by_entry, to_end, to_reply};
ghost use Rattle.jr_stage.specs.Runs.{HasRun};
ghost use Rattle.jr_stage.specs.Awaited.{AreInTurn, IsStill};
ghost use Rattle.jr_stage.specs.Stages.{HaveEnded, ClosesAll, IsStage, past_of};

use crate::stage::Stage;
use core_obeys::{the_product_answers_throughout, the_product_obeys_throughout};
use jcr_law::JcrLaw;
use jr_script::Script;
use oak_world::World;
use std::alloc::{AllocError, Global};

/// Runs a script turn by turn as its schedule says; then the commits in flight in ascending order
/// of their revisions, each to its reply; then the sessions in order, each to its end. Answers the
/// world with which the script ended: its law, its cluster nodes and its sessions are the script's,
/// its journal is a run of the machine by that law in which each event is made for a command that
/// asks for it, each command is answered once and in order, and each session leaves behind its last
/// reply, the schedule cuts the journal, no two commits clash unseen, each refusal names its cause,
/// what clashes with no other is made or wanted memory, at each time the tree of all commits met
/// the node types of the script, its locks and, where identifiers stood once, its references, and
/// each reply had its reason: what was planned and clashed with no other commit outside its base
/// was accepted, but for want of memory and a stop of its cluster node.
pub fn run_steps(alloc: Global, script: Script) -> Result<World<JcrLaw>, AllocError>
    requires { IsWithin script }
    ensures { IfOk result (HasRun script) }
{
    let mut stage = Stage::new(alloc, script)?;
    stage.play_all()?;
    let flying = stage.flying()?;
    stage.reply_all(flying.as_slice())?;
    stage.finish_all()?;
    stage.world.journal();
    the_product_obeys_throughout();
    the_product_answers_throughout();
    Ok(stage.into_world())
}

impl Stage {
    // The turns for each entry of the schedule.
    fn play_all(&mut self) -> Result<(), AllocError>
        requires stage { IsStage self.old }
        ensures { OnOk result (ClosesAll self.old self.new (map by_entry self.old.schedule)) }
    {
        for i in 0..self.schedule.len() {
            let entry = self.schedule.as_slice()[i];
            self.play(entry)?;
        }
        Ok(())
    }

    // The turns of some sessions, one after another, each to its next reply. The sessions have a
    // commit in flight, and no other has: none of them is kept waiting by a later one.
    fn reply_all(&mut self, sessions: &[u32]) -> Result<(), AllocError>
        requires stage { IsStage self.old }
        requires there { All (λ s. s < length self.old.seats.items) sessions.now }
        requires in_turn { AreInTurn (past_of self.old) sessions.now }
        ensures closes { OnOk result (ClosesAll self.old self.new (map to_reply sessions.now)) }
        ensures still { OnOk result (IsStill (past_of self.new)) }
    {
        for s in sessions {
            self.reply(*s)?;
        }
        Ok(())
    }

    // The turns of all sessions, one after another, each to its end. No session has a commit in
    // flight.
    fn finish_all(&mut self) -> Result<(), AllocError>
        requires stage { IsStage self.old }
        requires still { IsStill (past_of self.old) }
        ensures closes { OnOk result (ClosesAll self.old self.new
            (map to_end (range_with_len 0 (length self.old.seats.items)))) }
        ensures over { OnOk result (HaveEnded self.new (length self.old.seats.items)) }
    {
        for s in 0..self.seats.len() {
            self.finish(s as u32)?;
        }
        Ok(())
    }
}
