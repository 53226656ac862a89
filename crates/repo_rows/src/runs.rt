// The top call over sources and sinks that fail, and the words of command lines.
ghost use Rattle.std.specs.Prelude.{◌≤◌};

use jcr_law::JcrLaw;
use jr_io::{MemSink, MemSource};
use oak_world::World;
use repo_top::{Given, Row, Takes, Verb, WordOption, option_given, row_meant, steps_main};
use rows::{Out, cut};
use std::alloc::{AllocError, Global};

// The words of a text, between its spaces.
pub(crate) fn words_of(text: &str, out: &mut Out) -> Vec<String> {
    let mut words = Vec::new(out.alloc);
    for word in text.split(' ') {
        let pushed = push_word(&mut words, word, out.alloc);
        out.note(pushed);
    }
    words
}

fn push_word(words: &mut Vec<String>, word: &str, alloc: Global) -> Result<(), AllocError> {
    words.push(String::from_str(alloc, word)?)?;
    Ok(())
}

// The call of a number that fails; none for `-`.
fn fails(text: &str, out: &mut Out) -> Vec<u64> {
    let mut fails = Vec::new(out.alloc);
    if let Ok(number) = text.parse() {
        if fails.push(number).is_err() {
            out.is_broken = true;
        }
    }
    fails
}

// WORD READ WRITE INPUT: the status, whether a world is left, and what is written.
pub(crate) fn add_status(rest: &str, out: &mut Out) {
    let (words, input) = cut_words(rest);
    add_call(words, input.as_bytes(), 1000, out);
}

// READ WRITE INPUT: the status, whether a world is left, and what is written, by the words
// `steps --documents`.
pub(crate) fn add_documents(rest: &str, out: &mut Out) {
    let (read, rest) = cut(rest);
    let (write, input) = cut(rest);
    add_call(
        ("steps --documents", read, write),
        input.as_bytes(),
        4000,
        out,
    );
}

// WORD READ WRITE BYTES: the status, whether a world is left, and what is written, of an input
// whose bytes are given, each by two hexadecimal digits, with spaces between them.
pub(crate) fn add_octets(rest: &str, out: &mut Out) {
    let (words, input) = cut_words(rest);
    let bytes = bytes_of(input, out);
    add_call(words, bytes.as_slice(), 1000, out);
}

// WORDS: a call of words that read nothing; a read would fail.
pub(crate) fn add_unread(words: &str, out: &mut Out) {
    add_call((words, "0", "-"), &[], 1000, out);
}

// The first three words of a text, and the text behind them.
fn cut_words(text: &str) -> ((&str, &str, &str), &str) {
    let (word, rest) = cut(text);
    let (read, rest) = cut(rest);
    let (write, rest) = cut(rest);
    ((word, read, write), rest)
}

fn bytes_of(text: &str, out: &mut Out) -> Vec<u8> {
    let mut bytes = Vec::new(out.alloc);
    for word in text.split(' ') {
        if bytes.push(byte(word)).is_err() {
            out.is_broken = true;
        }
    }
    bytes
}

fn byte(word: &str) -> u8 {
    u8::from_str_radix(word, 16).unwrap_or(0)
}

// The words, and which calls fail to read and to write; the input; and how many bytes may be
// written.
fn add_call(words: (&str, &str, &str), input: &[u8], room: usize, out: &mut Out) {
    let (word, read, write) = words;
    let fails_to_read = fails(read, out);
    let mut source = source(input, 7, fails_to_read, out);
    match MemSink::new(out.alloc, room, 64, fails(write, out)) {
        Ok(sink) => run(word, &mut source, sink, out),
        Err(_) => out.is_broken = true,
    }
    drop(source);
}

// A source of bytes, so many at a time.
pub(crate) fn source(bytes: &[u8], piece: usize, fails: Vec<u64>, out: &mut Out) -> MemSource
    requires { 1 ≤ piece }
{
    match Vec::from_slice(out.alloc, bytes) {
        Ok(bytes) => MemSource::new(bytes, piece, fails),
        Err(_) => {
            out.is_broken = true;
            MemSource::new(Vec::new(out.alloc), piece, fails)
        }
    }
}

fn run(text: &str, source: &mut MemSource, sink: MemSink, out: &mut Out) {
    let mut sink = sink;
    let mut left: Option<World<JcrLaw>> = None;
    let words = words_of(text, out);
    let status = steps_main(out.alloc, words.as_slice(), source, &mut sink, &mut left);
    out.put_number(u64::from(status.code()));
    out.put(if left.is_some() { " left " } else { " none " });
    out.put_bytes(sink.written());
    drop(left);
    drop(sink);
    drop(words);
}

const TABLE: [Row; 2] = [
    Row {
        command: "run",
        verb: Verb::Run,
        options: &[
            WordOption {
                name: "workers",
                takes: Takes::Number { least: 1, most: 16 },
                required: true,
            },
            WordOption {
                name: "documents",
                takes: Takes::Nothing,
                required: false,
            },
        ],
    },
    Row {
        command: "gen",
        verb: Verb::Gen,
        options: &[
            WordOption {
                name: "seed",
                takes: Takes::Number {
                    least: 0,
                    most: u64::MAX,
                },
                required: true,
            },
            WordOption {
                name: "sessions",
                takes: Takes::Number { least: 1, most: 64 },
                required: true,
            },
            WordOption {
                name: "run",
                takes: Takes::Nothing,
                required: false,
            },
        ],
    },
];

// The command of the row of a table that words spell.
pub(crate) fn add_meaning(text: &str, out: &mut Out) {
    let words = words_of(text, out);
    put_row(row_meant(&TABLE, words.as_slice()), out);
    drop(words);
}

fn put_row(row: Option<&Row>, out: &mut Out) {
    match row {
        Some(row) => out.put(row.command),
        None => out.put("none"),
    }
}

// NAME WORDS: what the words give the option of a name in the second row.
pub(crate) fn add_option(rest: &str, out: &mut Out) {
    let (name, text) = cut(rest);
    let words = words_of(text, out);
    put_given(option_given(TABLE[1].options, words.as_slice(), name), out);
    drop(words);
}

fn put_given(given: Option<Given>, out: &mut Out) {
    match given {
        Some(Given::Number(number)) => out.put_number(number),
        Some(Given::Flag) => out.put("flag"),
        None => out.put("none"),
    }
}
