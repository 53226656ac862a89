// What comes of each line.
use crate::loads::{add_loads, add_same};
use crate::plays::add_play;
use crate::runs::{add_documents, add_meaning, add_octets, add_option, add_status, add_unread};
use crate::{cases, scripts, workers};
use rows::{Out, cut};
use std::sync::Wait;
use std::thread::Threads;

/// Whether the lines are of laws.
#[derive(Drop)]
pub struct Repo {
    is_of_laws: bool,
}

impl Repo {
    /// Before any line. No memory is taken.
    pub fn new() -> Repo {
        Repo { is_of_laws: false }
    }

    /// Puts out what comes of a line. Lines behind `== laws` are of laws.
    pub fn add<R: Threads + Wait + Sync>(&mut self, rt: &R, line: &str, out: &mut Out) {
        if line == "== laws" {
            self.is_of_laws = true;
            return out.put(line);
        }
        if self.is_of_laws {
            cases::add(line, out);
        } else {
            add_of(rt, line, out);
        }
    }
}

fn add_of<R: Threads + Wait + Sync>(rt: &R, line: &str, out: &mut Out) {
    let (word, text) = cut(line);
    match word {
        "held" => workers::add_held(rt, text, out),
        "lawful" => workers::add_lawful(rt, text, out),
        _ => add_answer(word, text, out),
    }
}

fn add_answer(word: &str, text: &str, out: &mut Out) {
    match word {
        "play" => add_play(text, out),
        "loads" => add_loads(text, out),
        "same" => add_same(text, out),
        "status" => add_status(text, out),
        "documents" => add_documents(text, out),
        "octets" => add_octets(text, out),
        "unread" => add_unread(text, out),
        "words" => add_meaning(text, out),
        "option" => add_option(text, out),
        _ => scripts::add(word, text, out),
    }
}
