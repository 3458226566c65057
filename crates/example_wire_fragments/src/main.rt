//! Large messages in frames, by themselves (this project): a message is cut, its frames come in another order and one of them twice, and
//! it is given whole once. Docs/BUILDERS.md says what `wire_fragments` promises.
#![tactic(auto)]

use sprite_ids::{Bytes, Kernel, NoMemory};
use std::alloc::Global;
use std::io;
use wire_fragments::{Gather, Gathered, cut};

/// The places of the frames in the order in which they come.
const ORDER: [usize; 5] = [2, 0, 2, 1, 1];

fn main(rt: HostRuntime) -> io::Result<()> {
    let (Some(from), Some(to)) = (Kernel::new(1), Kernel::new(2)) else {
        return Ok(());
    };
    match cut(rt.alloc(), from, to, 1, &[7; 4_000]) {
        Ok(frames) => gather(&rt, frames.as_slice()),
        Err(NoMemory) => println!(rt; "out of memory"),
    }
}

/// The frames come, and what is answered to each is printed.
fn gather(rt: &HostRuntime, frames: &[Bytes]) -> io::Result<()> {
    println!(rt; "{} frames", frames.len())?;
    let mut gather = Gather::new(rt.alloc(), 8);
    for place in ORDER {
        if let Some(frame) = frames.get(place) {
            print_answer(rt, place, gather.take(rt.alloc(), frame.as_slice()))?;
        }
    }
    Ok(())
}

fn print_answer(
    rt: &HostRuntime,
    place: usize,
    answer: Result<Gathered, NoMemory>,
) -> io::Result<()> {
    match answer {
        Ok(Gathered::Kept) => println!(rt; "frame {place}: kept"),
        Ok(Gathered::Known) => println!(rt; "frame {place}: known"),
        Ok(Gathered::Whole { message, .. }) => {
            println!(rt; "frame {place}: whole, {} bytes", message.len())
        }
        Ok(_) => println!(rt; "frame {place}: refused"),
        Err(NoMemory) => println!(rt; "out of memory"),
    }
}
