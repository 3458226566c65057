//! The program `sprite`: it runs a described cluster of Sprite kernels.
#![tactic(auto)]

use kernel_threads::NoWatch;
use link_plan::PlanLink;
use sprite_bytes::{StdSink, StdSource};
use sprite_top::{Status, sprite};
use std::process::ExitCode;
use std::{env, io};

/// Runs the command of the program's words over its standard input and output.
fn main(rt: HostRuntime) -> ExitCode {
    let Ok(words) = words(&rt) else {
        return ExitCode::from(Status::NoMemory.number());
    };
    let mut source = StdSource::new(rt.reader());
    let mut sink = StdSink::new(io::writer(&rt));
    let link = PlanLink::new(rt.alloc());
    let ended = sprite(
        &rt,
        rt.alloc(),
        words.as_slice(),
        &mut source,
        &mut sink,
        link,
        &NoWatch,
    );
    ExitCode::from(ended.status.number())
}

/// The words after the program's name.
fn words(rt: &HostRuntime) -> io::Result<Vec<String>> {
    let mut words = Vec::new(rt.alloc());
    for word in env::args(rt)?.skip(1) {
        words.push(word)?;
    }
    Ok(words)
}
