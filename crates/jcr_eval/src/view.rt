// What commands of the view may be answered with.
ghost use Rattle.std.specs.Prelude.{◌≡◌, ◌↔◌, IfOk, IsTrue};
ghost use Rattle.std.specs.String.{string_bytes};
ghost use Rattle.oak_machine.specs.History.{history_of};
ghost use Rattle.jcr_trans.specs.Texts.{answer_text};
ghost use Rattle.jcr_view.specs.Outcomes.{eval, is_viewed};
ghost use Rattle.jcr_eval.specs.Causes.{ViewCause};

use jcr_call::cause_text;
use jcr_law::JcrLaw;
use jcr_past::{Call, call_of};
use jcr_trans::Command;
use jcr_view::evaluate;
use jr_types::Registry;
use oak_machine::Journal;
use std::alloc::{AllocError, Global};

// Whether a text is the answer of a command of the view.
pub(crate) fn view_says(
    alloc: Global,
    law: &JcrLaw,
    journal: &Journal,
    session: u32,
    command: &Command,
    text: &str,
) -> Result<bool, AllocError>
    requires { IsTrue (is_viewed command.now) }
    ensures { IfOk result (λ b. IsTrue b
        ↔ ViewCause law.now (history_of journal.now) session command.now text.now) }
{
    match call_of(
        alloc,
        law,
        &journal.start,
        journal.events.as_slice(),
        session,
    )? {
        Some(call) => is_answer(alloc, &law.types, call, command, text),
        None => Ok(false),
    }
}

// Whether a text is the answer of a command of the view that is run so.
fn is_answer(
    alloc: Global,
    types: &Registry,
    call: Call,
    command: &Command,
    text: &str,
) -> Result<bool, AllocError>
    requires { IsTrue (is_viewed command.now) }
    ensures { IfOk result (λ b. IsTrue b ↔ (text.now ≡ answer_text
        (eval types.now call.who call.base call.state.view command.now).answer)) }
{
    let reply = view_reply(alloc, types, call, command)?;
    Ok(reply.as_str() == text)
}

// The answer of a command of the view that is run so.
fn view_reply(
    alloc: Global,
    types: &Registry,
    mut call: Call,
    command: &Command,
) -> Result<String, AllocError>
    requires { IsTrue (is_viewed command.now) }
    ensures { IfOk result (λ reply. string_bytes reply ≡ answer_text
        (eval types.now call.who call.base call.state.view command.now).answer) }
{
    let answer = evaluate(
        alloc,
        types,
        &mut call.who,
        &call.base,
        &mut call.state.view,
        command,
    );
    match answer {
        Ok(reply) => Ok(reply),
        Err(refusal) => cause_text(alloc, &refusal),
    }
}
