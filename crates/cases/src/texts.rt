//! Judges a text that lies in a part's folder, by a word of the program, and prints its name, the exit status and the line that is
//! written (this project).

use crate::files::case_file;
use crate::top::{Left, SOUND, called};
use kernel_threads::NoWatch;
use sprite_ids::NoMemory;
use std::io;
use std::sync::Wait;
use std::thread::Threads;

/// Prints what comes of a text. It fails where the file can't be read, or where the output fails.
pub fn print_text<R: Threads + Wait + Sync>(
    rt: &HostRuntime,
    threads: &R,
    part: &str,
    word: &str,
    name: &str,
) -> io::Result<()> {
    let text = case_file(rt, part, name)?;
    match called(threads, rt.alloc(), &[word], text, SOUND, &NoWatch) {
        Ok(left) => print_left(rt, name, &left),
        Err(NoMemory) => println!(rt; "{name} out of memory"),
    }
}

fn print_left(rt: &HostRuntime, name: &str, left: &Left) -> io::Result<()> {
    let status = left.status.number();
    let line = left.written.as_str();
    print!(rt; "{name} {status} {line}")
}
