//! Tries all that `sprite` is made of, one part after the other, and prints what comes of it (this project): the top call over sources and
//! sinks that fail (`calls`), histories (`histories`) and traces (`traces`) that it judges, clusters that it runs (`clusters`), the documents'
//! too (`documents`), by threads whose bursts must meet (`meetings`) and by seeds (`seeds`); runs by chance (`chances`); and the judge of runs
//! (`runs`). Their files lie in the folder that it is run in, in a folder for each part.
#![tactic(auto)]

mod calls;
mod chance;
mod chances;
mod clusters;
mod documents;
mod files;
mod histories;
mod known;
mod meetings;
mod runs;
mod seeds;
mod texts;
mod top;
mod traces;

use std::io;
use std::process::ExitCode;
use std::sync::Wait;
use std::thread::Threads;

fn main(rt: HostRuntime) -> ExitCode {
    match print_all(&rt, &rt) {
        Ok(()) => ExitCode::SUCCESS,
        Err(_) => ExitCode::FAILURE,
    }
}

/// Prints what comes of each part. It fails where a file can't be read, or where the output fails.
fn print_all<R: Threads + Wait + Sync>(rt: &HostRuntime, threads: &R) -> io::Result<()> {
    println!(rt; "=== calls")?;
    calls::print_all(rt, threads)?;
    println!(rt; "=== histories")?;
    histories::print_all(rt, threads)?;
    println!(rt; "=== traces")?;
    traces::print_all(rt, threads)?;
    println!(rt; "=== clusters")?;
    clusters::print_all(rt, threads)?;
    println!(rt; "=== documents")?;
    documents::print_all(rt, threads)?;
    println!(rt; "=== meetings")?;
    meetings::print_meeting(rt, threads)?;
    println!(rt; "=== seeds")?;
    seeds::print_all(rt, threads)?;
    println!(rt; "=== chances")?;
    chances::print_all(rt)?;
    println!(rt; "=== runs")?;
    runs::print_all(rt)
}
