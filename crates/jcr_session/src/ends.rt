// What a session answers once its commit has ended.
ghost use Rattle.std.specs.Prelude.{◌≡◌, IfOk, IfSome, IsFalse, string_bytes};
ghost use Rattle.jr_tree.specs.Trees.{Nodes};
ghost use Rattle.jr_known.specs.Earlier.{SameButAt};
ghost use Rattle.jr_items.specs.Refusals.{clash_refusal};
ghost use Rattle.oak_commit.specs.declared.outcome.CommitEnd.TheVariants as commit;
ghost use Rattle.oak_machine.specs.Runs.{IsRun};
ghost use Rattle.oak_port.specs.Ports.{HasRoom, StaysSo, TellsChanges};
ghost use Rattle.jcr_trans.specs.Answers.{ShowsRevision};
ghost use Rattle.jcr_trans.specs.Texts.{answer_text};
ghost use Rattle.jcr_law.specs.Lasting.{says_of, starts_of};
ghost use Rattle.jcr_law.specs.Law.{no_text};
ghost use Rattle.jcr_law.specs.State.{Call};
ghost use Rattle.jcr_law.specs.Calls.{call_moved};
ghost use Rattle.jcr_held.specs.Holds.{Holds};
ghost use Rattle.jcr_run.specs.Asked.{MayAnswer};
ghost use Rattle.jcr_session.specs.Begins.{HasClashed, SeesCommit};
ghost use Rattle.jcr_run.specs.Nearing.{IsReply};
ghost use Rattle.jcr_run.specs.Standing.{HasCommitEnded, HasCounted, IsGranted, Stands};
ghost use Rattle.jcr_steps.specs.declared.limits.TheConstants.{COMMIT_REPLY_BYTES};
ghost use Rattle.jcr_run.specs.declared.run.Phase.TheVariants as phase;

use jcr_call::{Accepted, cause_text};
use jcr_law::JcrLaw;
use jcr_run::{MEMORY_REPLY, Phase, Pledge, SessionRun, Turn};
use jcr_trans::revision_reply;
use jr_items::clash;
use jr_path::{Item, List, Path};
use jr_rev::{RevVec, Revision, is_next_alone};
use jr_tree::Edit;
use oak_commit::CommitEnd;
use oak_port::Port;
use std::alloc::{AllocError, Global};
use std::mem;

// Answers a command whose commit has ended.
pub(crate) fn say_end<P: Port<L = JcrLaw>>(run: &mut SessionRun, port: &mut P) -> Turn
    requires stands { Stands (P.law port.old) (P.shown port.old) run.old }
    requires ended { HasCommitEnded run.old.phase }
    ensures law { P.law port.new ≡ P.law port.old }
    ensures turned { HasCounted (P.law port.old) (P.shown port.old) (P.shown port.new)
        run.old run.new result }
    ensures granted { IsGranted result }
    ensures said { IsReply result }
{
    match mem::replace(&mut run.phase, Phase::Between) {
        Phase::Committed(end, pledge) => say_ended(run, port, end, pledge),
        _ => unreachable!(),
    }
}

// Answers a command whose commit has ended so.
fn say_ended<P: Port<L = JcrLaw>>(
    run: &mut SessionRun,
    port: &mut P,
    end: CommitEnd,
    pledge: Pledge,
) -> Turn
    requires stands { Stands (P.law port.old) (P.shown port.old)
        (record run.old { phase = phase.Committed end pledge }) }
    ensures law { P.law port.new ≡ P.law port.old }
    ensures turned { HasCounted (P.law port.old) (P.shown port.old) (P.shown port.new)
        run.old run.new result }
    ensures granted { IsGranted result }
    ensures said { IsReply result }
{
    match end {
        CommitEnd::Committed(r) => say_committed(run, port, r, pledge),
        CommitEnd::Clash { item, other } => say_clash(run, port, item, other),
        CommitEnd::Memory => run.forgo(port, true),
    }
}

// Answers a command whose commit was made. The base has moved to where it is seen.
fn say_committed<P: Port<L = JcrLaw>>(
    run: &mut SessionRun,
    port: &mut P,
    r: Revision,
    pledge: Pledge,
) -> Turn
    requires stands { Stands (P.law port.old) (P.shown port.old)
        (record run.old { phase = phase.Committed (commit.Committed r) pledge }) }
    ensures law { P.law port.new ≡ P.law port.old }
    ensures turned { HasCounted (P.law port.old) (P.shown port.old) (P.shown port.new)
        run.old run.new result }
    ensures granted { IsGranted result }
    ensures said { IsReply result }
{
    let Some(pin) = port.pin() else {
        unreachable!()
    };
    let told = told_since(run, port, &pin.base, r);
    let Pledge { edit, accepted } = pledge;
    move_behind(run, pin.base, r, &edit, told);
    let Accepted { text, tokens } = accepted;
    run.accept(true, Some(tokens));
    match text {
        Some(text) => run.say_kept(port, text.as_str()),
        None => say_revision(run, port, r),
    }
}

// What changed between the base that is held and the session's own, where a commit doesn't alone
// lie between; None where that isn't known, or memory was refused for it.
fn told_since<P: Port<L = JcrLaw>>(
    run: &SessionRun,
    port: &mut P,
    vector: &RevVec,
    by: Revision,
) -> Option<List<Path>>
    requires run { IsRun (starts_of (P.law port.old)) (says_of (P.law port.old))
        (P.shown port.old).history }
    ensures law { P.law port.new ≡ P.law port.old }
    ensures same { StaysSo (starts_of (P.law port.old)) (says_of (P.law port.old))
        (P.shown port.old) (P.shown port.new) }
    ensures told { IfSome result (TellsChanges (P.shown port.new).history
        (P.shown port.new).session run.now.held.who.base) }
{
    let before = run.held.base();
    if is_next_alone(&before, vector, by) {
        return None;
    }
    port.changed(&before).unwrap_or(None)
}

// The base has moved to where a commit of the edit is seen. Where that commit alone lies
// between, what is held follows it, and nothing is read again; else nothing is known there yet, but
// at which paths that tree isn't the one before, where these are told.
fn move_behind(
    run: &mut SessionRun,
    vector: RevVec,
    by: Revision,
    edit: &Edit,
    told: Option<List<Path>>,
)
    ensures same { run.new ≡ record run.old { held = run.new.held } }
    ensures holds { (c : Call) (t : Nodes) → Holds c run.old.held
        → IsFalse run.old.held.is_kept → SeesCommit c edit.now by vector t
        → IfSome told (λ paths. SameButAt paths c.base t)
        → Holds (call_moved c vector t) run.new.held }
{
    if is_next_alone(&run.held.base(), &vector, by) {
        run.held.follow(vector, by, edit);
        return;
    }
    run.held.move_along(vector, told);
}

// Answers a command with the revision of its commit.
fn say_revision<P: Port<L = JcrLaw>>(run: &mut SessionRun, port: &mut P, r: Revision) -> Turn
    requires answer { MayAnswer (P.law port.old) (P.shown port.old) run.old
        (answer_text (ShowsRevision r)) }
    requires room { HasRoom (P.shown port.old).room COMMIT_REPLY_BYTES }
    ensures law { P.law port.new ≡ P.law port.old }
    ensures turned { HasCounted (P.law port.old) (P.shown port.old) (P.shown port.new)
        run.old run.new result }
    ensures granted { IsGranted result }
    ensures said { IsReply result }
{
    let text = revision_reply(&r);
    run.say_kept(port, text.as_str())
}

// Answers a command with the clash for which its commit was refused, or that memory was refused
// for that.
fn say_clash<P: Port<L = JcrLaw>>(
    run: &mut SessionRun,
    port: &mut P,
    item: Item,
    other: Revision,
) -> Turn
    requires clash { HasClashed (P.law port.old) (P.shown port.old) run.old item other }
    ensures law { P.law port.new ≡ P.law port.old }
    ensures turned { HasCounted (P.law port.old) (P.shown port.old) (P.shown port.new)
        run.old run.new result }
    ensures granted { IsGranted result }
    ensures said { IsReply result }
{
    run.refuse(true);
    match clash_reply(run.alloc, &item, other) {
        Ok(text) => run.say_or_memory(port, text.as_str()),
        Err(AllocError) => run.say_kept(port, MEMORY_REPLY),
    }
}

// The reply of a commit that was refused for a clash.
fn clash_reply(alloc: Global, item: &Item, other: Revision) -> Result<String, AllocError>
    ensures { IfOk result (λ text. string_bytes text ≡ no_text (clash_refusal item.now other)) }
{
    cause_text(alloc, &clash(alloc, item, other))
}
