//! What is printed of a run: the reply lines of its journal, and the lines of its documents.
#![tactic(auto)]

ghost use Rattle.std.specs.Prelude.{◌≡◌, ◌++◌, IfOk, OnOk};
ghost use Rattle.std.specs.String.{string_bytes};
ghost use Rattle.jr_print.specs.Documents.{documents_text, line_of_document};
ghost use Rattle.jr_print.specs.Replies.{reply_text, reply_line, line_of, lines_of};

use jr_docs::document_line;
use jr_path::Text;
use oak_doc::Document;
use oak_machine::{Event, Events, Journal};
use oak_store::DocTable;
use std::alloc::{AllocError, Global};

/// The reply lines of a journal: the number of the session, the index of its command and the reply's text, separated by a
/// space. They stand by session, and those of a session in the order in which they were said.
#[tactic(auto, using(crate::proofs::More::flat_map_more))]
pub fn lines(alloc: Global, journal: &Journal) -> Result<Vec<u8>, AllocError>
    ensures { IfOk result (λ text. text.items ≡ reply_text journal.now) }
{
    let mut text = Vec::new(alloc);
    for session in 0..journal.sessions.inner().len() {
        put_lines(alloc, &mut text, session, journal.events.as_slice())?;
    }
    Ok(text)
}

// Appends the lines of a session.
fn put_lines(
    alloc: Global,
    out: &mut Vec<u8>,
    session: usize,
    events: &[Event],
) -> Result<(), AllocError>
    ensures { OnOk result (out.new.items ≡ out.old.items ++ lines_of events.now session) }
{
    for event in events {
        put_event(alloc, out, session, event)?;
    }
    Ok(())
}

// Appends the line of an event, where it is a reply of the session.
fn put_event(
    alloc: Global,
    out: &mut Vec<u8>,
    session: usize,
    event: &Event,
) -> Result<(), AllocError>
    ensures { OnOk result (out.new.items ≡ out.old.items ++ line_of session event.now) }
{
    let Event::Said(of, index, text) = event else {
        return Ok(());
    };
    if *of as usize == session {
        let line = line(alloc, *of, *index, text)?;
        out.extend_from_slice(line.as_bytes())?;
    }
    Ok(())
}

// The line of a reply.
fn line(alloc: Global, session: u32, index: u32, text: &Text) -> Result<String, AllocError>
    ensures { IfOk result (λ line. string_bytes line ≡ reply_line session index text.now) }
{
    let text = text.as_str();
    Ok(format!(in alloc; "{session} {index} {text}\n")?)
}

/// Appends the lines of the documents of a table, in store order.
pub fn put_documents(alloc: Global, out: &mut Vec<u8>, table: &DocTable) -> Result<(), AllocError>
    ensures { OnOk result (out.new.items ≡ out.old.items ++ documents_text table.now) }
{
    for (_, document) in table.documents().inner() {
        put_document(alloc, out, document)?;
    }
    Ok(())
}

// Appends the line of a document.
fn put_document(alloc: Global, out: &mut Vec<u8>, document: &Document) -> Result<(), AllocError>
    ensures { OnOk result (out.new.items ≡ out.old.items ++ line_of_document document.now) }
{
    let line = document_line(alloc, document)?;
    out.extend_from_slice(line.as_bytes())?;
    out.push(b'\n')?;
    Ok(())
}
