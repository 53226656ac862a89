// What stands in texts.
use jr_rev::{RevVec, Revision};

/// The text before the first space, and the text behind it.
pub fn cut(text: &str) -> (&str, &str) {
    text.split_once(' ').unwrap_or((text, ""))
}

pub fn number(text: &str) -> u64 {
    text.parse().unwrap_or(0)
}

pub fn short(text: &str) -> u32 {
    text.parse().unwrap_or(0)
}

/// The revision that a text is; that of the start for any other text.
pub fn revision(text: &str) -> Revision {
    match Revision::parse(text.as_bytes()) {
        Ok(r) => r,
        Err(_) => Revision {
            time: 0,
            counter: 0,
            cluster: 1,
        },
    }
}

/// The vector that a text is; one without entries for any other text.
pub fn vector(text: &str) -> RevVec {
    match RevVec::parse(text.as_bytes()) {
        Ok(v) => v,
        Err(_) => RevVec::none(),
    }
}
