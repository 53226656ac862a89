// What comes of each line.
use base_rows::Base;
use repo_rows::Repo;
use rows::Out;
use std::alloc::{AllocError, Global};
use std::sync::Wait;
use std::thread::Threads;
use store_rows::Store;

// By which crate's rows a line is read.
#[derive(Clone, Copy)]
enum Kind {
    Base,
    Store,
    Content,
    Open,
    Repo,
    Documents,
}

// The kind of the lines, and what lines before have left.
#[derive(Drop)]
struct All {
    kind: Kind,
    base: Base,
    store: Store,
    repo: Repo,
}

impl All {
    fn new(alloc: Global) -> Result<All, AllocError> {
        let base = Base::new(alloc)?;
        Ok(All {
            kind: Kind::Base,
            base,
            store: Store::new(alloc),
            repo: Repo::new(),
        })
    }

    fn add<R: Threads + Wait + Sync>(&mut self, rt: &R, line: &str, out: &mut Out) {
        if let Some(kind) = kind_of(line) {
            self.kind = kind;
            return out.put(line);
        }
        match self.kind {
            Kind::Base => self.base.add(line, out),
            Kind::Store => self.store.add(line, out),
            Kind::Content => content_rows::add(line, out),
            Kind::Open => open_rows::add(line, out),
            Kind::Repo => self.repo.add(rt, line, out),
            Kind::Documents => docs_rows::add(line, out),
        }
    }
}

fn kind_of(line: &str) -> Option<Kind> {
    match line {
        "=== base" => Some(Kind::Base),
        "=== store" => Some(Kind::Store),
        "=== content" => Some(Kind::Content),
        "=== open" => Some(Kind::Open),
        "=== repo" => Some(Kind::Repo),
        "=== documents" => Some(Kind::Documents),
        _ => None,
    }
}

// A line for each line.
pub(crate) fn answers<R: Threads + Wait + Sync>(rt: &R, alloc: Global, input: &[u8]) -> Out {
    let mut out = Out::new(alloc);
    match All::new(alloc) {
        Ok(mut rows) => add_lines(rt, input, &mut rows, &mut out),
        Err(AllocError) => out.is_broken = true,
    }
    out
}

fn add_lines<R: Threads + Wait + Sync>(rt: &R, input: &[u8], rows: &mut All, out: &mut Out) {
    for line in str::from_utf8(input).unwrap_or("").lines() {
        rows.add(rt, line, out);
        out.put("\n");
    }
}
