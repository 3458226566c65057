use super::{Lying, MAX, Machine, Row, all_hold, bytes, has_text, is_filled, loaded, sys};
use process_machine::{Image, Reply, SyscallName, give};
use sprite_ids::{Copying, Errno, NoMemory};
use std::alloc::Global;

static REGISTERS: [u64; 8] = [1, 2, 3, 4, 5, 6, 7, 8];

// Whether the answer is in the registers, and the bytes `wxyz` lie in pages of `a`, `b` and `c`.
fn has_the_answer(image: &Image) -> bool {
    image.registers() == [0, MAX, 8, 4, 5, 6, 7, 8]
        && image.counter() == 1
        && has_text(image, [b'a', b'b'], Lying(4094, b"wxyz"))
        && is_filled(image, 2, b'c')
}

fn value(alloc: Global) -> Result<Reply, NoMemory> {
    let bytes = bytes(alloc, b"wxyz")?;
    Ok(Reply::Value {
        first: MAX,
        second: 8,
        bytes,
    })
}

// A call with those arguments, to which the answer is a value, and what a copy of it is.
#[derive(Clone, Copy)]
struct Given(SyscallName, [u64; 4]);

impl Row for Given {
    fn load(&self, alloc: Global) -> Result<Machine, NoMemory> {
        loaded(alloc, &[sys(self.0, self.1)], REGISTERS, b"abc")
    }

    fn goes(&self, alloc: Global, machine: &mut Machine) -> bool {
        match value(alloc) {
            Ok(reply) => {
                give(&machine.program, &mut machine.image, &reply);
                has_the_answer(&machine.image) && is_copied(alloc, &reply)
            }
            Err(_) => false,
        }
    }
}

static CALLS: [Given; 5] = [
    Given(SyscallName::Host, [4094, 4, 0, 0]),
    Given(SyscallName::Read, [7, 4094, 4, 0]),
    Given(SyscallName::List, [0, 1, 4094, 4]),
    Given(SyscallName::PdGet, [7, 4094, 16384, 0]),
    Given(SyscallName::Ioctl, [7, 7, 4094, 4]),
];

fn is_copied(alloc: Global, reply: &Reply) -> bool {
    match reply.copy(alloc) {
        Ok(copy) => copy == *reply,
        Err(_) => false,
    }
}

#[test]
fn answers_are_put_in(rt: HostRuntime) {
    all_hold(&rt, rt.alloc(), &CALLS);
}

fn has_the_number(image: &Image, number: u64) -> bool {
    image.registers() == [number, 0, 0, 4, 5, 6, 7, 8]
        && image.counter() == 1
        && is_filled(image, 0, b'a')
}

// That a call is refused for that, and the error's number.
#[derive(Clone, Copy)]
struct Refused(Errno, u64);

impl Row for Refused {
    fn load(&self, alloc: Global) -> Result<Machine, NoMemory> {
        let call = sys(SyscallName::Print, [4090, 10, 0, 0]);
        loaded(alloc, &[call], REGISTERS, b"a")
    }

    fn goes(&self, alloc: Global, machine: &mut Machine) -> bool {
        let reply = Reply::Error(self.0);
        give(&machine.program, &mut machine.image, &reply);
        has_the_number(&machine.image, self.1) && is_copied(alloc, &reply)
    }
}

static REFUSALS: [Refused; 2] = [Refused(Errno::NoEntry, 1), Refused(Errno::BadAddress, 20)];

#[test]
fn refusals_are_put_in(rt: HostRuntime) {
    all_hold(&rt, rt.alloc(), &REFUSALS);
}
