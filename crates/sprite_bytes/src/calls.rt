ghost use Rattle.std.specs.Prelude.{◌≡◌, ◌≤◌};
ghost use Rattle.sprite_bytes.specs.Counts.{Rose};
ghost use Rattle.sprite_bytes.specs.Calls.{next_fails, with_pass, with_fault};

use sprite_ids::Items;

/// The calls of a source or a sink in memory, counted from 1, and which of them fail (this project).
#[derive(Debug, Drop)]
pub(crate) struct Calls {
    /// The numbers of the calls that fail.
    pub(crate) failing: Items<u64>,
    /// How many calls were made; it stops at `u64::MAX`.
    pub(crate) made: u64,
    /// How many of them failed; it stops at `u64::MAX`.
    pub(crate) faults: u64,
}

impl Calls {
    /// No call was made yet, and those that are listed will fail.
    pub(crate) fn new(failing: Vec<u64>) -> Calls
        ensures { result ≡ record { failing = failing.items; made = 0; faults = 0 } }
    {
        Calls {
            failing: Items::of_vec(failing),
            made: 0,
            faults: 0,
        }
    }

    /// Whether the next call is listed and its fault can still be counted.
    pub(crate) fn next_fails(&self) -> bool
        ensures { result ≡ next_fails self.now }
    {
        let number = self.made.saturating_add(1);
        self.failing.as_slice().contains(&number) && self.faults < u64::MAX
    }

    /// Counts a call that didn't fail.
    pub(crate) fn pass(&mut self)
        ensures { self.new ≡ with_pass self.old }
    {
        self.made = self.made.saturating_add(1);
    }

    /// Counts a call that failed.
    pub(crate) fn fail(&mut self)
        ensures calls { self.new ≡ with_fault self.old }
        ensures later { self.old.faults ≤ self.new.faults }
        ensures rose { Rose self.old.faults self.new.faults }
    {
        self.made = self.made.saturating_add(1);
        self.faults = self.faults.saturating_add(1);
    }
}
