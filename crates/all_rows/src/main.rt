//! Rows: each line of the input is a case, and each line of the output says what came of it. The
//! lines `=== base`, `=== store`, `=== content`, `=== open`, `=== repo` and `=== documents` tell by
//! which crate's rows those behind them are read.
#![tactic(auto)]

mod kinds;

use jr_io::{StdSink, StdSource, deliver, read_all};
use kinds::answers;
use std::io;
use std::process::ExitCode;

// Ends with 3 or 4 where reading or writing fails, 5 where memory is refused.
fn main(rt: HostRuntime) -> ExitCode {
    let mut source = StdSource::new(rt.reader());
    let Ok(mut sink) = StdSink::new(rt.alloc(), io::writer(&rt)) else {
        return ExitCode::from(5);
    };
    let Ok(input) = read_all(rt.alloc(), &mut source, 100_000_000) else {
        return ExitCode::from(3);
    };
    let out = answers(&rt, rt.alloc(), input.as_slice());
    if out.is_broken {
        return ExitCode::from(5);
    }
    if deliver(&mut sink, out.text.as_bytes()).is_err() {
        return ExitCode::from(4);
    }
    ExitCode::from(0)
}
