ghost use Rattle.std.specs.Prelude.{◌≡◌, IfSome};
ghost use Rattle.sprite_ids.specs.Pid.{home_of};

use home_table::{Home, HomeEnd, WaitAnswer};
use sprite_ids::{Ending, Kernel, Pid};
use std::alloc::Global;
use std::test::Fail;

// One call, with what it must answer. Processes are named by their births; 0 is none.
#[derive(Clone, Copy)]
enum Step {
    // The parent, and the number of the new process.
    Born(u32, u32),
    Ended(u32, Ending),
    // The number of the child and its status; 0 and 0 for no child, 0 and 1 for not yet.
    Wait(u32, u32, u16),
    // Whether it lived.
    Kill(u32, bool),
    Move(u32, u8),
    // Whether a kill is pending, whether it has ended, and its place.
    Stands(u32, bool, bool, u8),
    // The number of its living parent.
    Parent(u32, u32),
    // Whether it was born.
    WasBorn(u32, bool),
    Tick(u64),
    // Whether a process of it lives.
    Lives(bool),
    // So many processes more, after which there is room for none.
    Fill(usize),
}

// Home 3: process 1 makes 2, moves, and makes 3 and 4; 2 makes 5.
static STEPS: [Step; 42] = [
    Step::Lives(false),
    Step::Born(0, 3001),
    Step::Wait(1, 0, 0),
    Step::Born(1, 3002),
    Step::Wait(1, 0, 1),
    Step::Move(1, 7),
    Step::Stands(1, false, false, 7),
    Step::Stands(2, false, false, 3),
    Step::Born(1, 3003),
    Step::Stands(3, false, false, 7),
    Step::Born(1, 3004),
    Step::Born(2, 3005),
    Step::Parent(1, 0),
    Step::Parent(5, 3002),
    Step::Ended(4, Ending::Exit(255)),
    Step::Ended(3, Ending::Bad),
    Step::Wait(2, 0, 1),
    Step::Wait(1, 3003, 256),
    Step::Wait(1, 3004, 255),
    Step::Wait(1, 0, 1),
    Step::Kill(2, true),
    Step::Kill(2, true),
    Step::Stands(2, true, false, 3),
    Step::Ended(2, Ending::Killed),
    Step::Stands(2, false, true, 3),
    Step::Kill(2, false),
    Step::Ended(2, Ending::Exit(9)),
    Step::Wait(1, 3002, 257),
    Step::Wait(1, 0, 0),
    Step::Ended(2, Ending::Bad),
    Step::Wait(1, 0, 0),
    Step::Parent(5, 0),
    Step::Wait(2, 0, 1),
    Step::Kill(6, false),
    Step::WasBorn(5, true),
    Step::WasBorn(6, false),
    Step::Stands(6, false, false, 3),
    Step::Parent(6, 0),
    Step::Tick(1),
    Step::Tick(2),
    Step::Lives(true),
    Step::Fill(195),
];

// The process of that birth.
fn process(home: &Home, birth: u32) -> Option<Pid>
    ensures { IfSome result (λ pid. home_of pid ≡ home.now.home) }
{
    let pid = Pid::new(home.kernel(), birth)?;
    if pid.home() == home.kernel() {
        Some(pid)
    } else {
        None
    }
}

// Makes a process of that parent, and answers its number; 0 where none is made.
fn number_born(home: &mut Home, parent: u32) -> u32 {
    let made = match process(home, parent) {
        Some(parent) => home.born(Some(parent)),
        None => home.born(None),
    };
    match made {
        Ok(pid) => pid.number(),
        Err(_) => 0,
    }
}

// The answer as two numbers.
fn told(answer: WaitAnswer) -> (u32, u16) {
    match answer {
        WaitAnswer::Child(pid, status) => (pid.number(), status),
        WaitAnswer::NoChild => (0, 0),
        WaitAnswer::NotYet => (0, 1),
    }
}

// Makes so many processes; whether there is then room for none.
fn fills(home: &mut Home, count: usize) -> bool {
    for _ in 0..count {
        if home.born(None).is_err() {
            return false;
        }
    }
    home.born(None) == Err(HomeEnd::TooMany)
}

// Whether the process stands so.
fn stands(home: &Home, birth: u32, killed: bool, ended: bool, place: u8) -> bool {
    match process(home, birth) {
        Some(pid) => {
            home.killed(pid) == killed
                && home.has_ended(pid) == ended
                && home.place(pid).number() == place
        }
        None => false,
    }
}

// Makes the call; true where it answers so.
fn does(home: &mut Home, step: Step) -> bool {
    match step {
        Step::Born(parent, number) => number_born(home, parent) == number,
        Step::Ended(birth, ending) => match process(home, birth) {
            Some(pid) => {
                home.ended(pid, ending);
                true
            }
            None => false,
        },
        Step::Wait(birth, child, status) => match process(home, birth) {
            Some(pid) => told(home.wait(pid)) == (child, status),
            None => false,
        },
        Step::Kill(birth, living) => match process(home, birth) {
            Some(pid) => home.kill(pid) == living,
            None => false,
        },
        Step::Move(birth, place) => match (process(home, birth), Kernel::new(place)) {
            (Some(pid), Some(kernel)) => {
                home.move_to(pid, kernel);
                true
            }
            _ => false,
        },
        Step::Stands(birth, killed, ended, place) => stands(home, birth, killed, ended, place),
        Step::WasBorn(birth, born) => match process(home, birth) {
            Some(pid) => home.was_born(pid) == born,
            None => false,
        },
        Step::Parent(birth, parent) => match process(home, birth) {
            Some(pid) => match home.parent(pid) {
                Some(known) => known.number() == parent,
                None => parent == 0,
            },
            None => false,
        },
        Step::Tick(count) => home.room() && home.tick() == count,
        Step::Lives(wanted) => home.lives() == wanted,
        Step::Fill(count) => fills(home, count),
    }
}

// The first step that answers otherwise.
fn first_wrong(alloc: Global, kernel: Kernel) -> Option<usize> {
    let mut home = Home::new(alloc, kernel);
    judged(&mut home)
}

fn judged(home: &mut Home) -> Option<usize> {
    for (at, step) in STEPS.iter().enumerate() {
        if !does(home, *step) {
            return Some(at);
        }
    }
    None
}

#[test]
fn a_home_keeps_its_processes(rt: HostRuntime) -> Result<(), Fail> {
    let kernel = Kernel::new(3).ok_or("kernel 3")?;
    assert_eq!(rt; first_wrong(rt.alloc(), kernel), None);
    Ok(())
}
