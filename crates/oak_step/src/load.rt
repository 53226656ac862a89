// Loads, lists and readings of what commits changed, one document at a time.
ghost use Rattle.std.specs.Prelude.{◌≡◌, OnErr, OnOk};
ghost use Rattle.oak_doc.specs.declared.asks.Ask.TheVariants as ask;
ghost use Rattle.oak_read.specs.Reading.{answer, due, fed};
ghost use Rattle.oak_changes.specs.Reading as changes;
ghost use Rattle.oak_step.specs.Parts.{ReadsChangesOn, ReadsNext, end_of_reading};

use crate::work::Work;
use oak_acts::answer;
use oak_changes::ChangesReader;
use oak_machine::StepKind;
use oak_port::{StepOut, TaskEnd};
use oak_read::{ReadOut, Reader};
use oak_store::DocTable;
use std::alloc::AllocError;

// The reader is fed what the documents answer to what is due, and where it is done then it gives
// what it read.
pub(crate) fn read(table: &DocTable, reader: Reader) -> (Work, StepOut)
    ensures { ReadsNext table.now reader result.0 result.1 }
{
    let mut reader = reader;
    if read_once(table, &mut reader).is_err() {
        drop(reader);
        return (Work::Rest, StepOut::Memory);
    }
    if reader.is_done() {
        return (Work::Rest, StepOut::Ready(given(reader)));
    }
    (Work::Read(reader), StepOut::Went(StepKind::Read))
}

// Feeds the reader what the documents answer to what is due.
fn read_once(table: &DocTable, reader: &mut Reader) -> Result<(), AllocError>
    ensures ok { OnOk result
        (reader.new ≡ fed reader.old (answer table.now.documents (due reader.old))) }
    ensures err { OnErr result (reader.new ≡ reader.old) }
{
    let reply = answer(table, reader.next()?)?;
    reader.feed(reply)
}

// The reader of changes is fed what the documents answer to what is due, and where it is done then
// it gives what the commits changed.
pub(crate) fn read_changes(table: &DocTable, reader: ChangesReader) -> (Work, StepOut)
    ensures { ReadsChangesOn table.now reader result.0 result.1 }
{
    let mut reader = reader;
    if read_changes_once(table, &mut reader).is_err() {
        drop(reader);
        return (Work::Rest, StepOut::Memory);
    }
    if reader.is_done() {
        return (Work::Rest, StepOut::Ready(TaskEnd::Changes(reader.take())));
    }
    (Work::Changes(reader), StepOut::Went(StepKind::Read))
}

// Feeds the reader of changes what the documents answer to what is due.
fn read_changes_once(table: &DocTable, reader: &mut ChangesReader) -> Result<(), AllocError>
    ensures ok { OnOk result
        (reader.new
        ≡ changes.fed reader.old (answer table.now.documents (changes.due reader.old))) }
    ensures err { OnErr result (reader.new ≡ reader.old) }
{
    let reply = answer(table, reader.next()?)?;
    reader.feed(reply)
}

// What a reader gives that is done.
fn given(reader: Reader) -> TaskEnd
    requires { due reader ≡ ask.Done }
    ensures { end_of_reading reader.step ≡ Some result }
{
    match reader.take() {
        ReadOut::Node(node) => TaskEnd::Node(node),
        ReadOut::Children(names) => TaskEnd::Children(names),
    }
}
