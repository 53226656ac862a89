// A commit that adds a node which another added too, memory that is refused, and a commit that sets
// a property of which an entry has moved to a previous document.
use crate::changes::make;
use crate::commits::{begun, is_done};
use crate::replies::copied;
use jr_rev::Revision;
use oak_commit::{CommitEnd, Committer};
use oak_doc::{Ask, Cond, Document, Kept, Reply};
use oak_store::DocTable;
use rows::Out;
use std::mem;

// Letters of what a store answers: what is due before each of them, and how the commit ended.
// Revision 2 of cluster node 2, whose base sees nothing, adds the node /a.
pub(crate) fn add(letters: &str, out: &mut Out) {
    add_told("r2-0-2  here@/a touch@/ exists@/a", letters, out);
}

// The same of a revision that sets /a/x to 5.
pub(crate) fn add_moved(letters: &str, out: &mut Out) {
    add_told("r2-0-2  put@/a=x prop@/a=x", letters, out);
}

fn add_told(commit: &str, letters: &str, out: &mut Out) {
    match begun(commit, out) {
        Ok(committer) => feed_all(committer, letters, out),
        Err(_) => out.is_broken = true,
    }
}

fn feed_all(committer: Committer, letters: &str, out: &mut Out) {
    let mut committer = committer;
    for letter in letters.chars() {
        add_due(&committer, out);
        let fed = committer.feed(reply(letter, out));
        out.note(fed);
    }
    put_end(committer, out);
}

fn add_due(committer: &Committer, out: &mut Out) {
    match committer.next() {
        Ok(Ask::Undo(_)) => out.put_id("", committer.undo_id()),
        Ok(ask) => put_due(ask, out),
        Err(_) => out.is_broken = true,
    }
    out.put(" ");
}

// The id of the document that is to be found or updated; else what is due.
fn put_due(ask: Ask, out: &mut Out) {
    match &ask {
        Ask::Find(id) => out.put_id("", id),
        Ask::Update(op) => out.put_id("", &op.id),
        Ask::Memory(_) => out.put("finish"),
        _ => out.put("done"),
    }
    drop(ask);
}

// An update of a document that is new, one of /a, which another added, and one of /a, which lists
// two previous documents; one of these with what another set, and one that is gone; an update whose
// condition is false, since the other is committed; memory refused; an undoing; the end.
fn reply(letter: char, out: &mut Out) -> Reply {
    match letter {
        'n' => Reply::Updated(None),
        'a' => Reply::Updated(document("1:/a here@r1-0-1 root@r1-0-1=0", out)),
        'l' => Reply::Updated(document(
            "1:/a root@r1-0-1=0 list@4=r1-0-1,r1-0-1 list@7=r1-0-1,r1-0-1",
            out,
        )),
        'p' => Reply::Found(document("p4:/a x@r1-0-1=5", out)),
        'g' => Reply::Found(None),
        'u' => Reply::Unmet(Cond::NotCommitted(first()), Kept::Nothing),
        'm' => Reply::NoMemory,
        'd' => Reply::Undone,
        _ => Reply::Finished,
    }
}

// The revision of the other commit.
fn first() -> Revision {
    Revision {
        time: 1,
        counter: 0,
        cluster: 1,
    }
}

// The document that changes make where there is none.
fn document(changes: &str, out: &mut Out) -> Option<Document> {
    let mut table = DocTable::new(out.alloc);
    make(changes, &mut table, out);
    let document = copied(table.next_after(None), out);
    drop(table);
    document
}

fn put_end(committer: Committer, out: &mut Out) {
    if is_done(&committer) {
        put_word(committer.end(), out);
    } else {
        mem::forget(committer);
        out.put("not ended");
    }
}

fn put_word(end: CommitEnd, out: &mut Out) {
    out.put(word(&end));
    drop(end);
}

fn word(end: &CommitEnd) -> &'static str {
    match end {
        CommitEnd::Committed(_) => "committed",
        CommitEnd::Clash { .. } => "refused",
        CommitEnd::Memory => "no memory",
    }
}
