use super::calls::{Wanted, stands_at};
use super::{MAX, Machine, Row, all_hold, loaded, run, sys};
use process_machine::{BurstEnd, SyscallName};
use sprite_ids::{Errno, NoMemory};
use std::alloc::Global;

const ADDRESS: Option<Errno> = Some(Errno::BadAddress);

const INVALID: Option<Errno> = Some(Errno::Invalid);

const NAME: Option<Errno> = Some(Errno::BadName);

// A call, its arguments, and why it is refused, if it is.
#[derive(Clone, Copy)]
struct Refused(SyscallName, [u64; 4], Option<Errno>);

impl Row for Refused {
    fn load(&self, alloc: Global) -> Result<Machine, NoMemory> {
        loaded(alloc, &[sys(self.0, self.1)], [0; 8], b"aaaaaaaa")
    }

    fn goes(&self, alloc: Global, machine: &mut Machine) -> bool {
        stands_at(alloc, machine, Wanted::Refused(self.2))
    }
}

static BY_LENGTH: [Refused; 24] = [
    Refused(SyscallName::Print, [0, 16384, 0, 0], None),
    Refused(SyscallName::Print, [0, 16385, 0, 0], INVALID),
    Refused(SyscallName::Print, [MAX, MAX, 0, 0], INVALID),
    Refused(SyscallName::Print, [MAX, 0, 0, 0], None),
    Refused(SyscallName::Print, [MAX, 1, 0, 0], ADDRESS),
    Refused(SyscallName::Print, [32758, 10, 0, 0], None),
    Refused(SyscallName::Print, [32759, 10, 0, 0], ADDRESS),
    Refused(SyscallName::Print, [32767, 1, 0, 0], None),
    Refused(SyscallName::Print, [32768, 1, 0, 0], ADDRESS),
    Refused(SyscallName::Print, [32768, 0, 0, 0], None),
    Refused(SyscallName::Exit, [MAX, MAX, MAX, MAX], None),
    Refused(SyscallName::Host, [16384, 16384, 0, 0], None),
    Refused(SyscallName::Host, [0, 16385, 0, 0], INVALID),
    Refused(SyscallName::Read, [MAX, 16384, 16384, 0], None),
    Refused(SyscallName::Read, [0, 16, 16385, 0], INVALID),
    Refused(SyscallName::Read, [0, 16385, 16384, 0], ADDRESS),
    Refused(SyscallName::Write, [0, 0, 16385, 0], INVALID),
    Refused(SyscallName::PdPut, [0, 0, 16385, 0], INVALID),
    Refused(SyscallName::PdGet, [0, 0, 16392, 0], None),
    Refused(SyscallName::PdGet, [0, 0, 16393, 0], INVALID),
    Refused(SyscallName::PdGet, [0, 16377, 16392, 0], ADDRESS),
    Refused(SyscallName::Ioctl, [0, MAX, 0, 16384], None),
    Refused(SyscallName::Ioctl, [0, 0, 0, 16385], INVALID),
    Refused(SyscallName::List, [0, 0, 0, 16385], INVALID),
];

static BY_NAME: [Refused; 15] = [
    Refused(SyscallName::Open, [0, 0, 1, 0], NAME),
    Refused(SyscallName::Open, [0, 1, MAX, 0], None),
    Refused(SyscallName::Open, [32513, 255, 1, 0], None),
    Refused(SyscallName::Open, [32514, 255, 1, 0], ADDRESS),
    Refused(SyscallName::Open, [MAX, 256, 1, 0], NAME),
    Refused(SyscallName::Exec, [0, 256, 0, 0], NAME),
    Refused(SyscallName::Migrate, [MAX, MAX, 0, 0], NAME),
    Refused(SyscallName::Rename, [MAX, 1, 0, 0], NAME),
    Refused(SyscallName::Rename, [0, 1, MAX, 1], ADDRESS),
    Refused(SyscallName::Rename, [0, 1, 0, 255], None),
    Refused(SyscallName::Rexec, [0, 255, 0, 256], NAME),
    Refused(SyscallName::Rexec, [0, 255, 32767, 2], ADDRESS),
    Refused(SyscallName::List, [0, 0, MAX, 16384], NAME),
    Refused(SyscallName::List, [0, 255, MAX, 0], None),
    Refused(SyscallName::List, [0, 255, MAX, 1], ADDRESS),
];

#[test]
fn calls_are_refused_for_their_arguments(rt: HostRuntime) {
    all_hold(&rt, rt.alloc(), &BY_LENGTH);
    all_hold(&rt, rt.alloc(), &BY_NAME);
}

// A call, its arguments, the pages, and how a burst that begins at it ends.
#[derive(Clone, Copy)]
struct Wanting(SyscallName, [u64; 4], &'static [u8], BurstEnd);

impl Row for Wanting {
    fn load(&self, alloc: Global) -> Result<Machine, NoMemory> {
        loaded(alloc, &[sys(self.0, self.1)], [0; 8], self.2)
    }

    fn goes(&self, _alloc: Global, machine: &mut Machine) -> bool {
        run(machine, 9) == (0, self.3)
    }
}

static PAGES: [Wanting; 16] = [
    Wanting(SyscallName::Print, [0, 4096, 0, 0], b"a-a-", BurstEnd::Call),
    Wanting(
        SyscallName::Print,
        [0, 4097, 0, 0],
        b"a-a-",
        BurstEnd::PageNeeded(1),
    ),
    Wanting(
        SyscallName::Print,
        [8191, 1, 0, 0],
        b"a-a-",
        BurstEnd::PageNeeded(1),
    ),
    Wanting(
        SyscallName::Print,
        [8191, 8192, 0, 0],
        b"a-a-",
        BurstEnd::PageNeeded(1),
    ),
    Wanting(
        SyscallName::Print,
        [8192, 4097, 0, 0],
        b"a-a-",
        BurstEnd::PageNeeded(3),
    ),
    Wanting(SyscallName::Print, [5000, 0, 0, 0], b"a-a-", BurstEnd::Call),
    Wanting(
        SyscallName::Print,
        [5000, 16385, 0, 0],
        b"a-a-",
        BurstEnd::Call,
    ),
    Wanting(
        SyscallName::Print,
        [16384, 1, 0, 0],
        b"a-a-",
        BurstEnd::Call,
    ),
    Wanting(
        SyscallName::Read,
        [0, 4095, 2, 0],
        b"a-a-",
        BurstEnd::PageNeeded(1),
    ),
    Wanting(
        SyscallName::Read,
        [5000, 1, 4096, 0],
        b"a-a-",
        BurstEnd::PageNeeded(1),
    ),
    Wanting(
        SyscallName::Rename,
        [4096, 1, 0, 1],
        b"-aaa",
        BurstEnd::PageNeeded(0),
    ),
    Wanting(
        SyscallName::Rename,
        [4096, 1, 0, 0],
        b"-aaa",
        BurstEnd::Call,
    ),
    Wanting(
        SyscallName::List,
        [4095, 2, 8192, 4096],
        b"-aaa",
        BurstEnd::PageNeeded(0),
    ),
    Wanting(
        SyscallName::List,
        [4096, 2, 8192, 8192],
        b"aa--",
        BurstEnd::PageNeeded(2),
    ),
    Wanting(
        SyscallName::Rexec,
        [12288, 1, 8192, 1],
        b"aa--",
        BurstEnd::PageNeeded(2),
    ),
    Wanting(
        SyscallName::Exit,
        [5000, 5000, 5000, 5000],
        b"a",
        BurstEnd::Call,
    ),
];

#[test]
fn calls_want_their_pages(rt: HostRuntime) {
    all_hold(&rt, rt.alloc(), &PAGES);
}
