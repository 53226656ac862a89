// What comes of each line.
use crate::trees::Kept;
use crate::{
    commands, ends, marks, parts, queries, replies, scripts, texts, trees, types, vectors,
};
use jr_tree::Tree;
use rows::{Out, cut};
use std::alloc::{AllocError, Global};

// What the lines are of.
#[derive(Clone, Copy)]
enum Section {
    Texts,
    Queries,
    Scripts,
}

/// The section, and what lines before have left: what those of texts keep, and the tree that is
/// asked.
#[derive(Drop)]
pub struct Base {
    section: Section,
    kept: Kept,
    tree: Tree,
}

impl Base {
    /// Before any line.
    pub fn new(alloc: Global) -> Result<Base, AllocError> {
        let kept = Kept::new(alloc)?;
        Ok(Base {
            section: Section::Texts,
            kept,
            tree: Tree::new(alloc),
        })
    }

    /// Puts out what comes of a line.
    pub fn add(&mut self, line: &str, out: &mut Out) {
        if let Some(section) = section_of(line) {
            self.section = section;
            return out.put(line);
        }
        match self.section {
            Section::Texts => add_text(line, &mut self.kept, out),
            Section::Queries => queries::add(line, &mut self.tree, out),
            Section::Scripts => add_script(line, out),
        }
    }
}

fn section_of(line: &str) -> Option<Section> {
    match line {
        "== texts" => Some(Section::Texts),
        "== queries" => Some(Section::Queries),
        "== scripts" => Some(Section::Scripts),
        _ => None,
    }
}

fn add_text(line: &str, kept: &mut Kept, out: &mut Out) {
    let (word, rest) = cut(line);
    if !add_read(word, rest, out)
        && !trees::add(word, rest, kept, out)
        && !parts::add(word, rest, kept, out)
    {
        out.put("no row");
    }
}

fn add_read(word: &str, rest: &str, out: &mut Out) -> bool {
    texts::add(word, rest, out)
        || vectors::add(word, rest, out)
        || marks::add(word, rest, out)
        || ends::add(word, rest, out)
}

fn add_script(line: &str, out: &mut Out) {
    let (word, rest) = cut(line);
    match word {
        "script" => scripts::add(rest, out),
        "types" => types::add(rest, out),
        "command" => commands::add(rest, out),
        "reply" => replies::add(rest, out),
        _ => out.put("no row"),
    }
}
