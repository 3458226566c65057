ghost use Rattle.std.specs.Prelude.{◌≡◌, ◌≤◌, ◌<◌, ◌+◌, ◌*◌, ◌↔◌, ◌++◌, ◌∷◌, [], option_map, slice_get, IfOk, OnOk, OnErr, IsTrue, IsErrOf, IfSome, Some, true, length};
ghost use Rattle.sprite_ids.specs.Pid.{home_of, birth_of};
ghost use Rattle.home_table.specs.Home.{index_of, is_of, pid_at, birth_at, life_at, place_at, parent_at, born, with_life, with_place, moved, ended, wait_answer, waited, told, telling, killed, is_ended_child, is_unwaited_child, is_pending_at, is_living_at, has_ended_at, is_any_living, was_born};
ghost use Rattle.std.specs.List.{list_any, position};

use crate::birth::{Birth, Life, status_of};
use crate::end::{HomeEnd, WaitAnswer};
use sprite_ids::{Ending, Kernel, NoMemory, Pid};
use std::alloc::Global;
use std::marker::Model;

/// The most processes that a home makes in a run (this project).
const BIRTHS: usize = 200;

/// The most ticks at which the count may be raised (this project).
const ROOM: u64 = 2_000_000_000;

/// The processes of one home, in the order of their births, and the count of its ticks. The n-th of them has the birth n
/// in its `Pid`.
#[derive(Debug, Drop)]
pub struct Home {
    kernel: Kernel,
    births: Vec<Birth>,
    ticks: u64,
}

impl Model for Home {
    ghost use Rattle.std.specs.Prelude.{◌≤◌, length};
    ghost use Rattle.home_table.specs.Home.{Table};

    ghost Value = { Table };

    ghost view = { λ home. record { home = home.kernel; births = home.births.items; ticks = home.ticks } };

    ghost invariant = { λ home. (1 ≤ home.kernel) × (home.kernel ≤ 16) × (length home.births.items ≤ 200) };
}

impl Home {
    /// No births, and no ticks. It takes no memory, and keeps the allocator.
    pub fn new(alloc: Global, kernel: Kernel) -> Home
        ensures { result ≡ record { home = kernel; births = []; ticks = 0 } }
    {
        Home {
            kernel,
            births: Vec::new(alloc),
            ticks: 0,
        }
    }

    /// The home's kernel.
    pub fn kernel(&self) -> Kernel
        ensures { result ≡ self.now.home }
    {
        self.kernel
    }

    /// Whether the count of ticks may be raised: it is at most 2,000,000,000.
    pub fn room(&self) -> bool
        ensures { IsTrue result ↔ (self.now.ticks ≤ 2000000000) }
    {
        self.ticks <= ROOM
    }

    /// Makes the next process, at its parent's place, or here where it has no parent that was born here.
    ///
    /// TooMany comes exactly where 200 were made (this project); after any error all is as before.
    pub fn born(&mut self, parent: Option<Pid>) -> Result<Pid, HomeEnd>
        requires { is_of self.old.home parent ≡ true }
        ensures pid { IfOk result (λ pid. pid ≡ 1000 * self.old.home + length self.old.births + 1) }
        ensures ok { OnOk result (self.new ≡ born self.old parent) }
        ensures some { OnOk result (length self.old.births < 200) }
        ensures too_many { IsErrOf result HomeEnd.TooMany → length self.old.births ≡ 200 }
        ensures err { OnErr result (self.new ≡ self.old) }
    {
        let count = self.births.len();
        if count >= BIRTHS {
            return Err(HomeEnd::TooMany);
        }
        let pid = self.pid_at(count);
        let mut birth = Birth {
            parent,
            place: self.kernel,
            life: Life::Living { killed: false },
        };
        if let Some(parent) = birth.parent {
            birth.place = self.place_of(parent);
        }
        self.push(birth)?;
        Ok(pid)
    }

    /// Notes how a living process ended; a kill that was pending is no longer. Of a process that was never born or has
    /// ended it changes nothing.
    pub fn ended(&mut self, pid: Pid, ending: Ending)
        requires { home_of pid ≡ self.old.home }
        ensures { self.new ≡ ended self.old pid ending }
    {
        if let Some(Life::Living { .. }) = self.life(pid) {
            self.set_life(index_of(pid), Life::Ended(ending));
        }
    }

    /// What a `wait` of the process is told: the ended child of least pid that no `wait` was told of, which is told once.
    /// NoChild comes exactly where no child is left that no `wait` was told of, and NotYet exactly where such children
    /// are left and none of them has ended.
    pub fn wait(&mut self, pid: Pid) -> WaitAnswer
        requires { home_of pid ≡ self.old.home }
        ensures answer { result ≡ wait_answer self.old pid }
        ensures table { self.new ≡ waited self.old pid }
    {
        match self.ended_child(pid) {
            Some(at) => self.tell(at),
            None if self.has_child(pid) => WaitAnswer::NotYet,
            None => WaitAnswer::NoChild,
        }
    }

    /// Makes a kill of the process pending. False exactly where the process was never born or has ended, and then nothing
    /// changes.
    pub fn kill(&mut self, pid: Pid) -> bool
        requires { home_of pid ≡ self.old.home }
        ensures table { self.new ≡ killed self.old pid }
        ensures living { result ≡ is_living_at self.old pid }
    {
        match self.life(pid) {
            Some(Life::Living { .. }) => {
                self.set_life(index_of(pid), Life::Living { killed: true });
                true
            }
            _ => false,
        }
    }

    /// Whether the process lives and a kill of it is pending.
    pub fn killed(&self, pid: Pid) -> bool
        requires { home_of pid ≡ self.now.home }
        ensures { result ≡ is_pending_at self.now pid }
    {
        match self.life(pid) {
            Some(life) => life.is_pending(),
            None => false,
        }
    }

    /// Whether the process has ended.
    pub fn has_ended(&self, pid: Pid) -> bool
        requires { home_of pid ≡ self.now.home }
        ensures { result ≡ has_ended_at self.now pid }
    {
        match self.life(pid) {
            Some(life) => !life.is_living(),
            None => false,
        }
    }

    /// Whether the process was born.
    pub fn was_born(&self, pid: Pid) -> bool
        requires { home_of pid ≡ self.now.home }
        ensures { result ≡ was_born self.now pid }
    {
        self.birth(pid).is_some()
    }

    /// Whether any process of this home lives.
    pub fn lives(&self) -> bool
        ensures { result ≡ is_any_living self.now }
    {
        self.births.iter().any(|birth| birth.life.is_living())
    }

    /// The kernel at which the process is, or was when it ended; this home for one that was never born.
    pub fn place(&self, pid: Pid) -> Kernel
        requires { home_of pid ≡ self.now.home }
        ensures { result ≡ place_at self.now pid }
    {
        self.place_of(pid)
    }

    /// Notes at which kernel the process is from now on. Of a process that was never born it changes nothing.
    pub fn move_to(&mut self, pid: Pid, kernel: Kernel)
        requires { home_of pid ≡ self.old.home }
        ensures { self.new ≡ moved self.old pid kernel }
    {
        let at = index_of(pid);
        if at < self.births.len() {
            self.births[at].place = kernel;
        }
    }

    /// Raises the count of ticks by one, and answers it.
    pub fn tick(&mut self) -> u64
        requires { self.old.ticks ≤ 2000000000 }
        ensures count { result ≡ self.old.ticks + 1 }
        ensures table { self.new ≡ record self.old { ticks = self.old.ticks + 1 } }
    {
        self.ticks += 1;
        self.ticks
    }

    /// The parent of the process, where it lives; None exactly where the process was started when the cluster was, was
    /// never born, or has a parent that was never born or has ended.
    pub fn parent(&self, pid: Pid) -> Option<Pid>
        requires { home_of pid ≡ self.now.home }
        ensures { result ≡ parent_at self.now pid }
    {
        let parent = self.birth(pid)?.parent?;
        if self.life(parent)?.is_living() {
            Some(parent)
        } else {
            None
        }
    }

    // What is known of the process.
    fn birth(&self, pid: Pid) -> Option<Birth>
        ensures { result ≡ birth_at self.now.births pid }
    {
        self.births.get(index_of(pid)).copied()
    }

    // How far the process has come.
    fn life(&self, pid: Pid) -> Option<Life>
        ensures { result ≡ life_at self.now.births pid }
    {
        match self.birth(pid) {
            Some(birth) => Some(birth.life),
            None => None,
        }
    }

    // Changes how far the process has come.
    fn set_life(&mut self, at: usize, life: Life)
        ensures { self.new ≡ record self.old { births = with_life self.old.births at life } }
    {
        if at < self.births.len() {
            self.births[at].life = life;
        }
    }

    // Where the first child of the process stands that has ended, and that no `wait` was told of.
    fn ended_child(&self, pid: Pid) -> Option<usize>
        ensures { result ≡ position (is_ended_child pid) self.now.births }
    {
        self.births
            .iter()
            .position(|birth| birth.is_child(pid) && birth.life.is_ended())
    }

    // Whether a child of the process is left that no `wait` was told of.
    fn has_child(&self, pid: Pid) -> bool
        ensures { result ≡ list_any (is_unwaited_child pid) self.now.births }
    {
        self.births
            .iter()
            .any(|birth| birth.is_child(pid) && birth.life.is_unwaited())
    }

    // Tells of the ended child that stands there.
    fn tell(&mut self, at: usize) -> WaitAnswer
        requires { at < length self.old.births }
        ensures answer { result ≡ told (pid_at self.old.home at) (option_map (λ birth. birth.life) (slice_get self.old.births at)) }
        ensures table { self.new ≡ record self.old { births = telling self.old.births at (option_map (λ birth. birth.life) (slice_get self.old.births at)) } }
    {
        match self.births[at].life {
            Life::Ended(ending) => {
                let pid = self.pid_at(at);
                self.set_life(at, Life::Waited(ending));
                WaitAnswer::Child(pid, status_of(ending))
            }
            _ => WaitAnswer::NotYet,
        }
    }

    // The process of the birth that stands there, or would stand there next.
    fn pid_at(&self, at: usize) -> Pid
        requires { at < 200 }
        ensures { result ≡ pid_at self.now.home at }
    {
        match Pid::new(self.kernel, at as u32 + 1) {
            Some(pid) => pid,
            None => unreachable!(),
        }
    }

    // One more birth.
    fn push(&mut self, birth: Birth) -> Result<(), NoMemory>
        requires { length self.old.births < 200 }
        ensures ok { OnOk result (self.new ≡ record self.old { births = self.old.births ++ birth ∷ [] }) }
        ensures err { OnErr result (self.new ≡ self.old) }
    {
        self.births.extend_from_slice(&[birth])?;
        Ok(())
    }

    // Where the process is.
    fn place_of(&self, pid: Pid) -> Kernel
        ensures { result ≡ place_at self.now pid }
    {
        match self.birth(pid) {
            Some(birth) => birth.place,
            None => self.kernel,
        }
    }
}

// Where the process stands among the births, from 0.
fn index_of(pid: Pid) -> usize
    ensures { result ≡ index_of pid }
{
    pid.birth() as usize - 1
}
