// What a command that commits comes to before its commit.
ghost use Rattle.std.specs.Prelude.{◌≡◌, ◌≢◌, [], IfErr, IfOk, List, None, Ok, Result, Some, map, string_bytes, true};
ghost use Rattle.jr_tree.specs.declared.edit.Write.{Write};
ghost use Rattle.jr_tree.specs.declared.shared.Refusal.{Refusal};
ghost use Rattle.jr_tree.specs.Edits.{applied};
ghost use Rattle.jr_items.specs.Refusals.{IsTheRefusal};
ghost use Rattle.jcr_marks.specs.Marks.{marks_of};
ghost use Rattle.jcr_plan.specs.Refusals.{plan_refusal};
ghost use Rattle.jcr_trans.specs.Answers.{ShowsText};
ghost use Rattle.jcr_trans.specs.Texts.{answer_text};
ghost use Rattle.jcr_version.specs.Edits.{checked_in_version};
ghost use Rattle.jcr_law.specs.Commits.{edit_due, version_answer};
ghost use Rattle.jcr_law.specs.State.{Call, next_id, with_token};
ghost use Rattle.jcr_call.specs.Comings.{IsAcceptedOf, IsComing, IsTold, reply_to_due, reply_said};
ghost use Rattle.jcr_call.specs.Dues.{writes_due};
ghost use Rattle.jcr_call.specs.Footings.{IsAsKnown, IsOn, IsProperOn};

use crate::due::Due;
use crate::footing::Footing;
use crate::ids::next_id;
use crate::proper::is_proper;
use crate::replies::{cause_told, improper_reply, unwritten_reply, version_reply};
use crate::tokens::{all, strings, with_token};
use jcr_plan::{Plan, plan_of_change};
use jcr_trans::{Command, refusal_text, text_reply};
use jr_edited::Edited;
use jr_path::{List, Path, Text};
use jr_tree::{Edit, Refusal};
use std::alloc::{AllocError, Global};

/// What a command that commits comes to before its commit: a reply, or a plan, and what is told
/// once that is committed.
#[derive(Drop)]
pub enum Coming {
    Said(String),
    Planned(Plan, Accepted),
}

/// What an accepted commit tells: its reply, where that isn't the revision; and the lock tokens
/// that the session then holds (JSR 283, 17.5 Lock Token).
#[derive(Drop)]
pub struct Accepted {
    pub text: Option<String>,
    pub tokens: List<Text>,
}

/// What a command comes to by what is due for it (JSR 283, 10.11 Saving): a reply, where that is a
/// refusal, has nothing to write, isn't proper or can't be planned; else a plan. Of the tree after
/// the edit, the rules of types and the references there it looks at what the edit touches alone,
/// as far as the footing is assured of the tree before it.
pub fn come(
    alloc: Global,
    footing: &Footing<'_>,
    command: &Command,
    due: Due,
) -> Result<Coming, AllocError>
    // what it says is the reply to what is due
    ensures reply { (c : Call) → IsOn footing.now c → IsAsKnown footing.now c
        → IfOk result (λ coming. reply_said coming ≡ reply_to_due c command.now (writes_due due)) }
    // what is due for the command comes to this
    ensures comes { (c : Call) → IsOn footing.now c → IsAsKnown footing.now c
        → edit_due c command.now ≡ Some (writes_due due)
        → IfOk result (IsComing c command.now (writes_due due)) }
{
    match due {
        Due::Edited(edit) => come_edit(alloc, footing, command, edit),
        Due::Refused(refusal) => {
            let text = refusal_text(alloc, &refusal);
            drop(refusal);
            Ok(Coming::Said(text?))
        }
    }
}

// What a command comes to by the edit that is due for it.
fn come_edit(
    alloc: Global,
    footing: &Footing<'_>,
    command: &Command,
    edit: Edit,
) -> Result<Coming, AllocError>
    ensures reply { (c : Call) → IsOn footing.now c → IsAsKnown footing.now c
        → IfOk result (λ coming. reply_said coming ≡ reply_to_due c command.now (Ok edit.writes)) }
    ensures comes { (c : Call) → IsOn footing.now c → IsAsKnown footing.now c
        → edit_due c command.now ≡ Some (Ok edit.writes)
        → IfOk result (IsComing c command.now (Ok edit.writes)) }
{
    if edit.writes.is_empty() {
        drop(edit);
        return Ok(Coming::Said(unwritten_reply(alloc, footing.base, command)?));
    }
    match Edited::of(alloc, footing.base, &edit) {
        Ok(after) => {
            let coming = come_written(alloc, footing, command, &after, edit);
            drop(after);
            coming
        }
        Err(AllocError) => {
            drop(edit);
            Err(AllocError)
        }
    }
}

// What a command comes to by an edit that writes something, where the tree after it is at hand.
fn come_written(
    alloc: Global,
    footing: &Footing<'_>,
    command: &Command,
    after: &Edited<'_>,
    edit: Edit,
) -> Result<Coming, AllocError>
    requires some { edit.writes ≢ [] }
    requires after { after.now ≡ applied None footing.now.base.now edit.writes }
    ensures reply { (c : Call) → IsOn footing.now c → IsAsKnown footing.now c
        → IfOk result (λ coming. reply_said coming ≡ reply_to_due c command.now (Ok edit.writes)) }
    ensures comes { (c : Call) → IsOn footing.now c → IsAsKnown footing.now c
        → edit_due c command.now ≡ Some (Ok edit.writes)
        → IfOk result (IsComing c command.now (Ok edit.writes)) }
{
    let proper = match is_proper(alloc, footing.is_tree, footing.base, after, &edit) {
        Ok(proper) => proper,
        Err(AllocError) => {
            drop(edit);
            return Err(AllocError);
        }
    };
    if proper {
        come_plan(alloc, footing, command, after, edit)
    } else {
        drop(edit);
        Ok(Coming::Said(improper_reply(alloc)?))
    }
}

// What a command comes to by an edit that is proper.
fn come_plan(
    alloc: Global,
    footing: &Footing<'_>,
    command: &Command,
    after: &Edited<'_>,
    edit: Edit,
) -> Result<Coming, AllocError>
    requires some { edit.writes ≢ [] }
    requires after { after.now ≡ applied None footing.now.base.now edit.writes }
    requires proper { IsProperOn footing.now edit.writes true }
    ensures reply { (c : Call) → IsOn footing.now c → IsAsKnown footing.now c
        → IfOk result (λ coming. reply_said coming ≡ reply_to_due c command.now (Ok edit.writes)) }
    ensures comes { (c : Call) → IsOn footing.now c → IsAsKnown footing.now c
        → edit_due c command.now ≡ Some (Ok edit.writes)
        → IfOk result (IsComing c command.now (Ok edit.writes)) }
{
    let tokens = strings(alloc, footing.tokens)?;
    match planned(alloc, footing, after, edit, tokens.as_slice()) {
        Ok(plan) => Ok(Coming::Planned(plan, told(alloc, footing, command)?)),
        Err(refusal) => Ok(Coming::Said(cause_told(alloc, refusal)?)),
    }
}

// The plan of an edit, of which that is checked which the footing isn't assured of.
fn planned(
    alloc: Global,
    footing: &Footing<'_>,
    after: &Edited<'_>,
    edit: Edit,
    tokens: &[String],
) -> Result<Plan, Refusal>
    requires { after.now ≡ applied None footing.now.base.now edit.writes }
    ensures edit { IfOk result (λ plan. plan.edit ≡ edit) }
    ensures marks { IfOk result (λ plan. plan.marks ≡ marks_of footing.now.base.now edit.writes) }
    ensures accepted { (c : Call) → IsOn footing.now c → IsAsKnown footing.now c
        → IfOk result (λ plan. plan_refusal c.types c.base (map string_bytes tokens.now) edit.writes
        ≡ None) }
    ensures refused { (c : Call) → IsOn footing.now c → IsAsKnown footing.now c
        → IfErr result (IsTheRefusal
        (plan_refusal c.types c.base (map string_bytes tokens.now) edit.writes)) }
{
    plan_of_change(
        alloc,
        footing.types,
        footing.base,
        after,
        edit,
        tokens,
        footing.assured,
    )
}

// What is told of a command once its commit is made.
fn told(alloc: Global, footing: &Footing<'_>, command: &Command) -> Result<Accepted, AllocError>
    ensures { (c : Call) (due : Result (List Write) Refusal) → IsOn footing.now c
        → edit_due c command.now ≡ Some due → IfOk result (IsAcceptedOf c command.now) }
{
    match command {
        Command::Lock(_, _) => locked(alloc, footing),
        Command::Checkin(path) => checked_in(alloc, footing, path),
        _ => untold(alloc, footing.tokens),
    }
}

// What is told of a lock: its token, which the session then holds.
fn locked(alloc: Global, footing: &Footing<'_>) -> Result<Accepted, AllocError>
    ensures { (c : Call) → IsOn footing.now c → IfOk result (IsTold
        (Some (answer_text (ShowsText (next_id c.who))))
        (with_token c.state.tokens (next_id c.who))) }
{
    let token = next_id(alloc, footing.who)?;
    let text = Some(text_reply(alloc, token.as_str())?);
    let tokens = with_token(alloc, footing.tokens, &token)?;
    Ok(Accepted { text, tokens })
}

// What is told of a check-in: the version that it makes.
fn checked_in(alloc: Global, footing: &Footing<'_>, path: &Path) -> Result<Accepted, AllocError>
    ensures { (c : Call) → IsOn footing.now c → IfOk result (IsTold
        (Some (answer_text (version_answer (checked_in_version c.base path.now)))) c.state.tokens) }
{
    let text = Some(version_reply(alloc, footing.base, path)?);
    let tokens = all(alloc, footing.tokens)?;
    Ok(Accepted { text, tokens })
}

// Only the revision is told.
fn untold(alloc: Global, tokens: &[Text]) -> Result<Accepted, AllocError>
    ensures { IfOk result (IsTold None tokens.now) }
{
    let tokens = all(alloc, tokens)?;
    Ok(Accepted { text: None, tokens })
}
