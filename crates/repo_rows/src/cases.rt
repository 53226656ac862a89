// A journal and texts, by the law of a script.
use crate::events::{edit_in, push_all, vector_in};
use crate::scripts::{law_in, may_say};
use jcr_law::JcrLaw;
use jcr_trans::SessionScript;
use jr_path::List;
use jr_rev::{RevVec, Revision};
use jr_script::{Script, read_script};
use jr_tree::{Edit, Tree};
use oak_machine::{Events, Journal, Start};
use rows::{Out, items_in, items_of, json_of, small, text_in};
use serde_json::Value as Json;

// NAME | SCRIPT | CASE: the name, and whether the law lets each text be said. A case has `earlier`:
// how many sessions there were before the script's; `start`: the vector of the beginning, the
// revision that added its nodes, and the edit that makes its tree of the initial one; `events`; and
// `asks`: lists of a session, an index and a text. The types are those built in.
pub(crate) fn add(line: &str, out: &mut Out) {
    let (name, rest) = cut(line);
    let (script, case) = cut(rest);
    out.put(name);
    out.put(":");
    let case = json_of(case, out);
    match &case {
        Some(case) => add_script(script, case, out),
        None => out.put(" no case"),
    }
    drop(case);
}

fn cut(text: &str) -> (&str, &str) {
    text.split_once(" | ").unwrap_or((text, ""))
}

fn add_script(script: &str, case: &Json, out: &mut Out) {
    match read_script(out.alloc, script.as_bytes()) {
        Ok(script) => add_read(script, case, out),
        Err(_) => out.put(" no script"),
    }
}

// What is large is let go by a call of its own, here and below: at the end of its scope each of its
// parts would be proved there.
fn add_read(script: Script, case: &Json, out: &mut Out) {
    let clusters = script.clusters;
    let law = law_in(script, earlier_in(case));
    let journal = journal_of(clusters, law.sessions.as_slice(), case, out);
    add_asks(&law, &journal, items_in(case, "asks"), out);
    drop(journal);
    drop(law);
}

fn earlier_in(case: &Json) -> u32 {
    match case.get("earlier") {
        Some(earlier) => small(earlier),
        None => 0,
    }
}

fn journal_of(clusters: u32, sessions: &[SessionScript], case: &Json, out: &mut Out) -> Journal {
    let mut journal = Journal {
        clusters,
        sessions: clusters_of(sessions, out),
        events: Events::new(out.alloc),
        start: start_in(items_in(case, "start"), out),
    };
    push_all(&mut journal.events, items_in(case, "events"), out);
    journal
}

fn clusters_of(sessions: &[SessionScript], out: &mut Out) -> List<u32> {
    let mut clusters = List::new(out.alloc);
    for session in sessions {
        let pushed = clusters.push(session.cluster);
        out.note(pushed);
    }
    clusters
}

// The beginning, if one is given.
fn start_in(start: &[Json], out: &mut Out) -> Option<Start> {
    match start {
        [at, born, edit] => Some(start_of(vector_in(at, out), revision(born), edit, out)),
        _ => None,
    }
}

fn revision(json: &Json) -> Option<Revision> {
    Revision::parse(text_in(json).as_bytes()).ok()
}

fn start_of(at: RevVec, born: Option<Revision>, edit: &Json, out: &mut Out) -> Start {
    let edit = edit_in(edit, out);
    let tree = tree_of(&edit, born, out);
    drop(edit);
    Start { tree, at }
}

fn tree_of(edit: &Edit, born: Option<Revision>, out: &mut Out) -> Tree {
    let mut tree = initial(out);
    let applied = tree.apply(edit, born);
    out.note(applied);
    tree
}

fn initial(out: &mut Out) -> Tree {
    match Tree::initial(out.alloc) {
        Ok(tree) => tree,
        Err(_) => {
            out.is_broken = true;
            Tree::new(out.alloc)
        }
    }
}

fn add_asks(law: &JcrLaw, journal: &Journal, asks: &[Json], out: &mut Out) {
    for ask in asks {
        add_ask(law, journal, items_of(ask), out);
    }
}

// Whether the law lets a text be said as the reply of that index of a session.
fn add_ask(law: &JcrLaw, journal: &Journal, ask: Option<&[Json]>, out: &mut Out) {
    match ask {
        Some([session, index, text]) => {
            let may = may_say(
                law,
                journal,
                (small(session), small(index)),
                text_in(text),
                out,
            );
            out.put(if may { " yes" } else { " no" });
        }
        _ => out.put(" no ask"),
    }
}
