// Pins, names, lists and ids, as rows have them.
use jr_path::{DocId, List, Name, Text};
use jr_rev::Pin;
use rows::{Out, vector};

// The text before the first mark, and the text behind it.
pub(crate) fn cut(text: &str, mark: char) -> (&str, &str) {
    text.split_once(mark).unwrap_or((text, ""))
}

// BASE/SWEEP
pub(crate) fn pin(text: &str) -> Pin {
    let (base, sweep) = cut(text, '/');
    Pin {
        base: vector(base),
        sweep: vector(sweep),
    }
}

pub(crate) fn name(text: &str, out: &mut Out) -> Option<Name> {
    match Name::parse(out.alloc, text) {
        Ok(name) => Some(name),
        Err(_) => {
            out.is_broken = true;
            None
        }
    }
}

pub(crate) fn text_of(text: &str, out: &mut Out) -> Text {
    match Text::copy_of(out.alloc, text) {
        Ok(text) => text,
        Err(_) => {
            out.is_broken = true;
            Text::new(out.alloc)
        }
    }
}

pub(crate) fn push<T: Drop>(item: T, list: &mut List<T>, out: &mut Out) {
    let pushed = list.push(item);
    out.note(pushed);
}

// The list of one item.
pub(crate) fn only<T: Drop>(item: T, out: &mut Out) -> List<T> {
    let mut list = List::new(out.alloc);
    push(item, &mut list, out);
    list
}

// DEPTH:PATH, pNUMBER:PATH with the number in hexadecimal, or settings
pub(crate) fn id(text: &str, out: &mut Out) -> DocId {
    let (before, rest) = cut(text, ':');
    if before == "settings" {
        return DocId::Settings;
    }
    match before.strip_prefix('p') {
        Some(digits) => DocId::Prev(hexadecimal(digits), out.path_or_root(rest)),
        None => DocId::Node(out.path_or_root(rest)),
    }
}

fn hexadecimal(digits: &str) -> u64 {
    u64::from_str_radix(digits, 16).unwrap_or(0)
}
