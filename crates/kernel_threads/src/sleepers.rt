//! How workers sleep whose kernels have nothing to do, and how they are called (this project).
//!
//! In its turn a worker notes that its kernel waits; behind it, it sleeps until it is called. Who changes the value in a turn looks which of
//! the waiting kernels something can happen at, and calls their workers behind that turn; when the value is over it calls all. So a change
//! between the look and the sleep is not lost: the note stands before the turn ends, and each later turn sees it. Each note is called once,
//! so a kernel takes no turn more. Nothing of this is claimed by a proof.
use sprite_ids::Kernel;
use std::sync::Wait;
use std::sync::atomic::{AtomicU64, Ordering};
use std::{array, hint};

// How often a worker looks whether it is called before it sleeps.
const LOOKS: u32 = 64;

// What a worker does: it has been called, it looks whether it is, or it sleeps.
const CALLED: u64 = 0;

const LOOKING: u64 = 1;

const ASLEEP: u64 = 2;

/// Who waits, and who has no thread of its own.
#[derive(Drop)]
pub(crate) struct Sleepers {
    // The kernels that have no threads of their own, that of number n by bit n - 1: one worker serves them all.
    without: AtomicU64,
    // The kernels that wait, likewise. It is read and changed in turns alone.
    waiting: AtomicU64,
    // What the worker of each kernel does; of those that have no threads of their own that of kernel 1.
    workers: [AtomicU64; 16],
}

impl Sleepers {
    /// All kernels have threads, and none waits.
    pub(crate) fn new() -> Sleepers {
        Sleepers::of(0)
    }

    /// No kernel has a thread, and none ever waits.
    pub(crate) fn none() -> Sleepers {
        Sleepers::of(u64::MAX)
    }

    // These kernels have no threads of their own.
    fn of(without: u64) -> Sleepers {
        Sleepers {
            without: AtomicU64::new(without),
            waiting: AtomicU64::new(0),
            workers: array::from_fn(|_| AtomicU64::new(CALLED)),
        }
    }

    /// The kernels up to that number have no threads of their own.
    pub(crate) fn leave_out(&self, number: u8) {
        if let Some(kernel) = Kernel::new(number) {
            let kernels = bit(kernel).wrapping_mul(2).wrapping_sub(1);
            self.without.store(kernels, Ordering::SeqCst);
        }
    }

    /// Whether the kernel of that number has no thread of its own.
    pub(crate) fn leaves_out(&self, number: u8) -> bool {
        match Kernel::new(number) {
            Some(kernel) => self.without() & bit(kernel) != 0,
            None => true,
        }
    }

    // The kernels that have no threads of their own.
    fn without(&self) -> u64 {
        self.without.load(Ordering::SeqCst)
    }

    /// The kernels that wait, that of number n by bit n - 1. It is for the worker whose turn it is.
    pub(crate) fn waiting(&self) -> u64 {
        self.waiting.load(Ordering::SeqCst)
    }

    /// The kernel waits. It is for its worker in its turn, which goes on to `sleep` behind the turn.
    pub(crate) fn wait(&self, kernel: Kernel) {
        let served = self.served_with(kernel);
        if served == u64::MAX {
            return;
        }
        let waiting = self.waiting() | bit(kernel);
        self.waiting.store(waiting, Ordering::SeqCst);
        if waiting & served == served {
            self.worker(kernel).store(LOOKING, Ordering::SeqCst);
        }
    }

    // The kernels that the kernel's worker serves.
    fn served_with(&self, kernel: Kernel) -> u64 {
        if self.leaves_out(kernel.number()) {
            self.without()
        } else {
            bit(kernel)
        }
    }

    /// These don't wait any more. It is for the worker whose turn it is, which goes on to `wake` behind the turn.
    pub(crate) fn call(&self, kernels: u64) {
        self.waiting
            .store(self.waiting() & !kernels, Ordering::SeqCst);
    }

    /// The workers of these kernels go on.
    pub(crate) fn wake(&self, kernels: u64) {
        if kernels == 0 {
            return;
        }
        for number in 1..17 {
            if let Some(kernel) = Kernel::new(number) {
                if kernels & bit(kernel) != 0 {
                    self.wake_worker(kernel);
                }
            }
        }
    }

    // The worker of the kernel goes on.
    fn wake_worker(&self, kernel: Kernel) {
        let worker = self.worker(kernel);
        if worker.swap(CALLED, Ordering::SeqCst) == ASLEEP {
            worker.wake_one();
        }
    }

    /// Returns when the kernel, which waits, is called, or another one that its worker serves: the worker looks for a while, and then
    /// sleeps. It returns at once where one of these kernels doesn't wait.
    pub(crate) fn sleep<R: Wait>(&self, rt: &R, kernel: Kernel) {
        let worker = self.worker(kernel);
        if hears(worker) {
            return;
        }
        if worker
            .compare_exchange(LOOKING, ASLEEP, Ordering::SeqCst, Ordering::SeqCst)
            .is_err()
        {
            return;
        }
        for _ in rt.forever() {
            worker.park(rt, ASLEEP as u32);
            if is_called(worker) {
                return;
            }
        }
        unreachable!()
    }

    // What the worker of the kernel does.
    fn worker(&self, kernel: Kernel) -> &AtomicU64 {
        if self.leaves_out(kernel.number()) {
            &self.workers[0]
        } else {
            &self.workers[usize::from(kernel.number() - 1)]
        }
    }
}

// Whether the worker is called while it looks.
fn hears(worker: &AtomicU64) -> bool {
    for _ in 0..LOOKS {
        if is_called(worker) {
            return true;
        }
        hint::spin_loop();
    }
    false
}

// Whether the worker has been called.
fn is_called(worker: &AtomicU64) -> bool {
    worker.load(Ordering::SeqCst) == CALLED
}

/// The kernel among kernels: that of number n is bit n - 1.
pub(crate) fn bit(kernel: Kernel) -> u64 {
    1 << (kernel.number() - 1)
}
