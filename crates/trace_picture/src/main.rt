//! The program `trace_picture`: it draws a printed trace as one SVG.
#![tactic(auto)]

mod asking;
mod drawing;
mod outcome;
mod printing;
mod status;
mod top;

use sprite_bytes::{StdSink, StdSource};
use status::Status;
use std::process::ExitCode;
use std::{env, io};
use top::trace_picture;

/// Draws the trace of its standard input, as the program's words say, to its standard output.
fn main(rt: HostRuntime) -> ExitCode {
    let Ok(words) = words(&rt) else {
        return ExitCode::from(Status::NoMemory.number());
    };
    let mut source = StdSource::new(rt.reader());
    let mut sink = StdSink::new(io::writer(&rt));
    let status = trace_picture(rt.alloc(), words.as_slice(), &mut source, &mut sink);
    ExitCode::from(status.number())
}

/// The words after the program's name.
fn words(rt: &HostRuntime) -> io::Result<Vec<String>> {
    let mut words = Vec::new(rt.alloc());
    for word in env::args(rt)?.skip(1) {
        words.push(word)?;
    }
    Ok(words)
}
