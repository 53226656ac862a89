// Scripts as they are read.
use jcr_trans::SessionScript;
use jr_script::{Entry, Script, ScriptFault, read_script};
use rows::Out;

// The rule that is broken and its place, or the script.
pub(crate) fn add(text: &str, out: &mut Out) {
    let read = read_script(out.alloc, text.as_bytes());
    match &read {
        Ok(script) => put_script(script, out),
        Err(fault) => put_script_fault(fault, out),
    }
    drop(read);
}

fn put_script_fault(fault: &ScriptFault, out: &mut Out) {
    match fault {
        ScriptFault::Bad {
            rule,
            pointer,
            offset,
        } => {
            put_fault(*rule, pointer.as_str(), out);
            put_offset(*offset, out);
        }
        ScriptFault::Memory => out.put("memory"),
    }
}

pub(crate) fn put_fault(rule: u8, pointer: &str, out: &mut Out) {
    out.put_number(u64::from(rule));
    out.put(" ");
    out.put(pointer);
}

// The place within the text at which a rule is broken, where it is on what stands in a text.
fn put_offset(offset: Option<usize>, out: &mut Out) {
    if let Some(offset) = offset {
        out.put_numbered(" ", offset as u64);
    }
}

// The number of cluster nodes; of each session its node and the names of its commands; and the
// entries.
fn put_script(script: &Script, out: &mut Out) {
    out.put_numbered("ok ", u64::from(script.clusters));
    for session in script.sessions.inner() {
        put_session(session, out);
    }
    for entry in script.schedule.inner() {
        put_entry(entry, out);
    }
}

fn put_session(session: &SessionScript, out: &mut Out) {
    out.put_numbered(" at ", u64::from(session.cluster));
    for command in session.commands.inner() {
        out.put(" ");
        out.put(command.word());
    }
}

fn put_entry(entry: &Entry, out: &mut Out) {
    match entry {
        Entry::Turn(session) => put_numbers(" Turn(", *session, None, out),
        Entry::Say(session, count) => put_numbers(" Say(", *session, Some(*count), out),
        Entry::Draw(session) => put_numbers(" Draw(", *session, None, out),
        Entry::Write(session, count) => put_numbers(" Write(", *session, Some(*count), out),
        Entry::Last(session) => put_numbers(" Last(", *session, None, out),
        Entry::Read(session) => put_numbers(" Read(", *session, None, out),
    }
}

fn put_numbers(word: &str, session: u32, count: Option<u32>, out: &mut Out) {
    out.put_numbered(word, u64::from(session));
    if let Some(count) = count {
        out.put_numbered(", ", u64::from(count));
    }
    out.put(")");
}
