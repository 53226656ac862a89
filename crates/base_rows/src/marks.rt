// Marks and what they clash with.
use jr_path::{DeepCopy, List, Name, Path};
use oak_clash::{Mark, MarkAt, clashes, commit_root, marked_paths};
use rows::{Out, cut};
use std::alloc::AllocError;

// Whether there is such a row.
pub(crate) fn add(word: &str, rest: &str, out: &mut Out) -> bool {
    match word {
        "clash" => add_clash(rest, out),
        "root" => add_root(rest, out),
        _ => return false,
    }
    true
}

// Two marks: whether they clash, in both orders.
fn add_clash(rest: &str, out: &mut Out) {
    let (first, second) = cut(rest);
    let first = mark_of(first, out);
    let second = mark_of(second, out);
    let copy = first.copy();
    out.put_answer(is_clash(&copy, &second));
    drop(first);
    drop(second);
    drop(copy);
}

// exists, touch, guard, or the name of a property.
fn mark_of(text: &str, out: &mut Out) -> Mark {
    match text {
        "exists" => Mark::Exists,
        "touch" => Mark::Touch,
        "guard" => Mark::Guard,
        _ => mark_with(out.name(text)),
    }
}

fn mark_with(name: Option<Name>) -> Mark {
    match name {
        Some(name) => Mark::Prop(name),
        None => Mark::Exists,
    }
}

fn is_clash(first: &Result<Mark, AllocError>, second: &Mark) -> bool {
    match first {
        Ok(first) => clashes(first, second) && clashes(second, first),
        Err(_) => false,
    }
}

// Paths with marks: their commit root, and the marked nodes in order.
fn add_root(rest: &str, out: &mut Out) {
    let marks = marks_at(rest, out);
    put_root(marks.as_slice(), out);
    put_marked(marks.as_slice(), out);
}

fn marks_at(texts: &str, out: &mut Out) -> List<MarkAt> {
    let mut marks = List::new(out.alloc);
    for text in texts.split_whitespace() {
        let put = marks.push(touch(out.path_or_root(text)));
        out.note(put);
    }
    marks
}

fn touch(path: Path) -> MarkAt {
    MarkAt {
        path,
        mark: Mark::Touch,
    }
}

fn put_root(marks: &[MarkAt], out: &mut Out) {
    match commit_root(out.alloc, marks) {
        Ok(root) => out.put_path(&root),
        Err(_) => out.is_broken = true,
    }
}

fn put_marked(marks: &[MarkAt], out: &mut Out) {
    match marked_paths(out.alloc, marks) {
        Ok(paths) => put_paths(paths.as_slice(), out),
        Err(_) => out.is_broken = true,
    }
}

fn put_paths(paths: &[Path], out: &mut Out) {
    for path in paths {
        out.put(" ");
        out.put_path(path);
    }
}
