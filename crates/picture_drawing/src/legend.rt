ghost use Rattle.std.specs.Prelude.{◌<◌};

use crate::view::{View, put_mark, put_text};
use history_text::Field;
use picture_print::{Figure, Mark, Role};
use sprite_ids::{NoMemory, Pid};
use std::alloc::Global;

/// How many items the legend has, beside the processes.
pub(crate) const ITEMS: u16 = 14;

/// Puts the legend: what the marks are, and the processes' colours. The one error is want of memory.
pub(crate) fn put_legend(
    alloc: Global,
    out: &mut Vec<Figure>,
    view: &View,
) -> Result<(), NoMemory> {
    for place in 0..ITEMS {
        put_item(alloc, out, view, place)?;
    }
    put_pids(alloc, out, view)
}

fn put_item(alloc: Global, out: &mut Vec<Figure>, view: &View, place: u16) -> Result<(), NoMemory> {
    let (x, y) = view.layout.item(place);
    let (role, mark, words) = item_of(place);
    put_mark(alloc, out, role, 0, mark, x, y)?;
    let words = Vec::from_slice(alloc, words)?;
    put_text(alloc, out, Role::Plain, x + 24, y + 4, words)
}

// What a mark means, by its place in the legend.
fn item_of(place: u16) -> (Role, Mark, &'static [u8]) {
    match place {
        0 => (Role::Filled, Mark::Burst, b"a burst of instructions"),
        1 => (Role::Filled, Mark::Issue, b"a call is issued"),
        2 => (Role::Hollow, Mark::Return, b"it returns"),
        3 => (Role::Call, Mark::Stripe, b"the call goes on"),
        4 => (Role::Filled, Mark::Entry, b"an entry of the history"),
        5 => (Role::Filled, Mark::Request, b"a request"),
        6 => (Role::Hollow, Mark::Reply, b"its reply"),
        7 => (Role::Hollow, Mark::Repeat, b"late, or once more"),
        8 => (Role::Alarm, Mark::Cross, b"a lost packet"),
        9 => (Role::Alarm, Mark::Dot, b"no answer in time"),
        10 => (Role::Move, Mark::Band, b"a move: freeze to thaw"),
        11 => (Role::Filled, Mark::Dot, b"what a kernel does"),
        12 => (Role::CachingOn, Mark::Stripe, b"the file is cached"),
        _ => (Role::CachingOff, Mark::Stripe, b"it is used uncached"),
    }
}

fn put_pids(alloc: Global, out: &mut Vec<Figure>, view: &View) -> Result<(), NoMemory> {
    for (place, pid) in view.pids.iter().enumerate() {
        put_pid(alloc, out, view, place.min(32767) as u16, *pid)?;
    }
    Ok(())
}

fn put_pid(
    alloc: Global,
    out: &mut Vec<Figure>,
    view: &View,
    place: u16,
    pid: Pid,
) -> Result<(), NoMemory>
    requires { place < 32768 }
{
    let (x, y) = view.layout.item(ITEMS + place);
    let colour = (place % 7) as u8;
    put_mark(alloc, out, Role::Filled, colour, Mark::Burst, x, y)?;
    let mut name = Vec::from_slice(alloc, b"process ")?;
    pid.put(alloc, &mut name)?;
    put_text(alloc, out, Role::Plain, x + 24, y + 4, name)
}
