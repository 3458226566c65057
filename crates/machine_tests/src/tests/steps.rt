use super::{Lying, MAX, Machine, Row, all_hold, has_text, holds, loaded, register, run, sys};
use process_machine::{BurstEnd, Instruction, Register, SyscallName};
use sprite_ids::NoMemory;
use std::alloc::Global;

const HALF: u64 = 9223372036854775808;

// An instruction, what registers 1 and 2 hold before it, what register 1 holds after it, and the next counter.
#[derive(Clone, Copy)]
struct Computed(Instruction, u64, u64, u64, u16);

impl Row for Computed {
    fn load(&self, alloc: Global) -> Result<Machine, NoMemory> {
        loaded(alloc, &[self.0], [0, self.1, self.2, 0, 0, 0, 0, 9], b"a")
    }

    fn goes(&self, _alloc: Global, machine: &mut Machine) -> bool {
        let is_done = run(machine, 1) == (1, BurstEnd::Limit);
        is_done
            && machine.image.registers() == [0, self.3, self.2, 0, 0, 0, 0, 9]
            && machine.image.counter() == self.4
    }
}

fn sums(one: Register, two: Register) -> [Computed; 14] {
    [
        Computed(Instruction::Set(one, MAX), 5, 7, MAX, 1),
        Computed(Instruction::Mov(one, two), 5, 7, 7, 1),
        Computed(Instruction::Add(one, two), MAX, 1, 0, 1),
        Computed(Instruction::Add(one, two), HALF, HALF, 0, 1),
        Computed(Instruction::Sub(one, two), 0, 1, MAX, 1),
        Computed(Instruction::Sub(one, two), 7, 7, 0, 1),
        Computed(Instruction::Mul(one, two), HALF, 2, 0, 1),
        Computed(Instruction::Mul(one, two), MAX, MAX, 1, 1),
        Computed(Instruction::Addi(one, MAX), 3, 0, 2, 1),
        Computed(Instruction::Div(one, two), MAX, 2, HALF - 1, 1),
        Computed(Instruction::Div(one, two), 1, MAX, 0, 1),
        Computed(Instruction::Mod(one, two), MAX, 2, 1, 1),
        Computed(Instruction::Mod(one, two), 1, MAX, 1, 1),
        Computed(Instruction::Div(one, one), 4, 0, 1, 1),
    ]
}

fn jumps(one: Register, two: Register) -> [Computed; 9] {
    [
        Computed(Instruction::Jmp(65535), 0, 0, 0, 65535),
        Computed(Instruction::Jeq(one, two, 9), MAX, MAX, MAX, 9),
        Computed(Instruction::Jeq(one, two, 9), MAX, 0, MAX, 1),
        Computed(Instruction::Jne(one, two, 9), 4, 5, 4, 9),
        Computed(Instruction::Jne(one, two, 9), 5, 5, 5, 1),
        Computed(Instruction::Jlt(one, two, 9), 0, MAX, 0, 9),
        Computed(Instruction::Jlt(one, two, 9), MAX, 0, MAX, 1),
        Computed(Instruction::Jlt(one, two, 9), 5, 5, 5, 1),
        Computed(Instruction::Jlt(one, two, 9), HALF - 1, HALF, HALF - 1, 9),
    ]
}

#[test]
fn instructions_compute(rt: HostRuntime) {
    all_hold(&rt, rt.alloc(), &sums(register(1), register(2)));
}

#[test]
fn jumps_compare_without_signs(rt: HostRuntime) {
    all_hold(&rt, rt.alloc(), &jumps(register(1), register(2)));
}

// The pages, a load or store at the address that register 1 holds, and how it ends.
#[derive(Clone, Copy)]
struct Reached(&'static [u8], Instruction, u64, BurstEnd);

impl Row for Reached {
    fn load(&self, alloc: Global) -> Result<Machine, NoMemory> {
        loaded(alloc, &[self.1], [0, self.2, 0, 0, 0, 0, 0, 0], self.0)
    }

    fn goes(&self, _alloc: Global, machine: &mut Machine) -> bool {
        let count = if self.3 == BurstEnd::Limit { 1 } else { 0 };
        let has_ended = run(machine, 1) == (count, self.3);
        has_ended && machine.image.counter() as u32 == count
    }
}

fn in_one_page(one: Register, two: Register) -> [Reached; 14] {
    let (done, bad) = (BurstEnd::Limit, BurstEnd::BadStep);
    [
        Reached(b"a", Instruction::Ldb(two, one), 4095, done),
        Reached(b"a", Instruction::Ldb(two, one), 4096, bad),
        Reached(b"a", Instruction::Ldb(two, one), MAX, bad),
        Reached(b"a", Instruction::Stb(one, two), 4095, done),
        Reached(b"a", Instruction::Stb(one, two), 4096, bad),
        Reached(b"a", Instruction::Ldw(two, one), 4088, done),
        Reached(b"a", Instruction::Ldw(two, one), 4089, bad),
        Reached(b"a", Instruction::Ldw(two, one), MAX - 3, bad),
        Reached(b"a", Instruction::Stw(one, two), 4088, done),
        Reached(b"a", Instruction::Stw(one, two), 4089, bad),
        Reached(b"a", Instruction::Stw(one, two), MAX - 3, bad),
        Reached(b"a", Instruction::Stw(one, two), MAX - 7, bad),
        Reached(b"a", Instruction::Div(one, two), 6, bad),
        Reached(b"a", Instruction::Mod(one, two), 6, bad),
    ]
}

// The second page is away.
fn before_a_hole(one: Register, two: Register) -> [Reached; 8] {
    let (done, bad) = (BurstEnd::Limit, BurstEnd::BadStep);
    [
        Reached(b"a-", Instruction::Ldb(two, one), 4095, done),
        Reached(
            b"a-",
            Instruction::Ldb(two, one),
            4096,
            BurstEnd::PageNeeded(1),
        ),
        Reached(
            b"a-",
            Instruction::Stb(one, two),
            8191,
            BurstEnd::PageNeeded(1),
        ),
        Reached(b"a-", Instruction::Ldb(two, one), 8192, bad),
        Reached(b"a-", Instruction::Ldw(two, one), 4088, done),
        Reached(
            b"a-",
            Instruction::Ldw(two, one),
            4089,
            BurstEnd::PageNeeded(1),
        ),
        Reached(
            b"a-",
            Instruction::Stw(one, two),
            4089,
            BurstEnd::PageNeeded(1),
        ),
        Reached(b"a-", Instruction::Ldw(two, one), 8185, bad),
    ]
}

#[test]
fn steps_end_where_they_cannot_be_done(rt: HostRuntime) {
    all_hold(&rt, rt.alloc(), &in_one_page(register(1), register(2)));
    all_hold(&rt, rt.alloc(), &before_a_hole(register(1), register(2)));
}

fn across_pages(one: Register, two: Register) -> [Reached; 7] {
    let (done, bad) = (BurstEnd::Limit, BurstEnd::BadStep);
    let first = BurstEnd::PageNeeded(0);
    [
        Reached(b"ab", Instruction::Ldw(two, one), 4089, done),
        Reached(b"ab", Instruction::Stw(one, two), 4095, done),
        Reached(b"-b", Instruction::Ldw(two, one), 4089, first),
        Reached(b"-b", Instruction::Stw(one, two), 4096, done),
        Reached(b"--", Instruction::Ldw(two, one), 4089, first),
        Reached(b"aaaaaaaa", Instruction::Ldw(two, one), 32760, done),
        Reached(b"aaaaaaaa", Instruction::Ldw(two, one), 32761, bad),
    ]
}

#[test]
fn words_reach_across_pages(rt: HostRuntime) {
    all_hold(&rt, rt.alloc(), &across_pages(register(1), register(2)));
}

// Stores register 2's word, loads it and its first byte, and stores and loads that byte over its last one.
fn word_code(one: Register, two: Register, three: Register, four: Register) -> [Instruction; 6] {
    [
        Instruction::Stw(one, two),
        Instruction::Ldw(three, one),
        Instruction::Ldb(four, one),
        Instruction::Addi(one, 7),
        Instruction::Stb(one, four),
        Instruction::Ldb(two, one),
    ]
}

// The word 0x0807060504030201.
const WORD: u64 = 578437695752307201;

// The address at which the word is stored. A page of `a` and one of `b` then have the bytes 1 to 7 and 1 from there on.
#[derive(Clone, Copy)]
struct Stored(u16);

impl Row for Stored {
    fn load(&self, alloc: Global) -> Result<Machine, NoMemory> {
        let code = word_code(register(1), register(2), register(3), register(4));
        loaded(alloc, &code, [0, self.0 as u64, WORD, 0, 0, 0, 0, 0], b"ab")
    }

    fn goes(&self, _alloc: Global, machine: &mut Machine) -> bool {
        let has_run = run(machine, 10) == (6, BurstEnd::BadStep);
        let end = self.0 as u64 + 7;
        let word = Lying(self.0 as usize, &[1, 2, 3, 4, 5, 6, 7, 1]);
        has_run
            && machine.image.registers() == [0, end, 1, WORD, 1, 0, 0, 0]
            && has_text(&machine.image, [b'a', b'b'], word)
    }
}

static ADDRESSES: [Stored; 7] = [
    Stored(0),
    Stored(4088),
    Stored(4089),
    Stored(4092),
    Stored(4095),
    Stored(4096),
    Stored(8184),
];

#[test]
fn words_have_their_lowest_byte_first(rt: HostRuntime) {
    all_hold(&rt, rt.alloc(), &ADDRESSES);
}

// Counts twice, and calls.
fn counting(one: Register) -> [Instruction; 3] {
    [
        Instruction::Addi(one, 1),
        Instruction::Addi(one, 1),
        sys(SyscallName::Exit, [263, 0, 0, 0]),
    ]
}

// The code, how many instructions are done at most, how many are done, how the burst ends, and what register 1 then holds.
#[derive(Clone, Copy)]
struct Burst<'a>(&'a [Instruction], u32, u32, BurstEnd, u64);

impl Row for Burst<'_> {
    fn load(&self, alloc: Global) -> Result<Machine, NoMemory> {
        loaded(alloc, self.0, [0; 8], b"a")
    }

    fn goes(&self, _alloc: Global, machine: &mut Machine) -> bool {
        if self.1 < 1 || self.1 > 10000 {
            return false;
        }
        run(machine, self.1) == (self.2, self.3)
            && machine.image.registers() == [0, self.4, 0, 0, 0, 0, 0, 0]
    }
}

// The last one is of a program without code.
fn bursts(counting: &[Instruction]) -> [Burst; 5] {
    [
        Burst(counting, 1, 1, BurstEnd::Limit, 1),
        Burst(counting, 2, 2, BurstEnd::Limit, 2),
        Burst(counting, 3, 2, BurstEnd::Call, 2),
        Burst(counting, 10000, 2, BurstEnd::Call, 2),
        Burst(&[], 1, 0, BurstEnd::BadStep, 0),
    ]
}

#[test]
fn a_burst_keeps_its_limit(rt: HostRuntime) {
    all_hold(&rt, rt.alloc(), &bursts(&counting(register(1))));
}

// A program that counts for ever.
fn endless(one: Register) -> [Instruction; 2] {
    [Instruction::Addi(one, 1), Instruction::Jmp(0)]
}

#[test]
fn a_long_burst_ends(rt: HostRuntime) {
    let code = endless(register(1));
    let row = Burst(&code, 10000, 10000, BurstEnd::Limit, 5000);
    assert!(rt; holds(rt.alloc(), &row));
}
