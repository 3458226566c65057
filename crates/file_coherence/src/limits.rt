ghost use Rattle.std.specs.Prelude.{◌≡◌, ◌<◌, ◌*◌, IfOk, nat_lt, ◌+◌};
ghost use Rattle.file_views.specs.Setting.{sprite_setting};

use sprite_ids::{BlockNo, NoMemory};
use std::marker::Model;

/// What is fixed for a file: how many bytes a block has, how many a file may have and one call may move, and whether clients
/// may cache it.
#[derive(Debug, Drop)]
pub(crate) struct Limits {
    block: u32,
    most: u32,
    moved: u32,
    cached: bool,
}

impl Model for Limits {
    ghost use Rattle.std.specs.Prelude.{◌<◌};
    ghost use Rattle.file_views.specs.Setting.{Setting};

    ghost Value = { Setting };

    ghost view = { λ limits. record { block = limits.block; most = limits.most; moved = limits.moved; cached = limits.cached } };

    ghost invariant = { λ limits. 0 < limits.block };
}

impl Limits {
    // Those of a cluster whose clients have caches: blocks of 4,096 bytes, files of 262,144, calls of 16,384.
    pub(crate) fn sprite() -> Limits
        ensures { result ≡ sprite_setting }
    {
        Limits::caching(true)
    }

    // The same, with clients that may cache the file or may not.
    pub(crate) fn caching(cached: bool) -> Limits
        ensures { result ≡ record sprite_setting { cached = cached } }
    {
        Limits {
            block: 4096,
            most: 262_144,
            moved: 16_384,
            cached,
        }
    }

    // How many bytes a block has.
    pub(crate) fn block(&self) -> usize
        ensures value { result ≡ self.now.block }
        ensures some { 0 < result }
    {
        self.block as usize
    }

    // How many bytes a file may have.
    pub(crate) fn most(&self) -> usize
        ensures { result ≡ self.now.most }
    {
        self.most as usize
    }

    // How many bytes one call may move.
    pub(crate) fn moved(&self) -> usize
        ensures { result ≡ self.now.moved }
    {
        self.moved as usize
    }

    // Whether clients may cache the file.
    pub(crate) fn cached(&self) -> bool
        ensures { result ≡ self.now.cached }
    {
        self.cached
    }

    // Where the block with that number begins.
    pub(crate) fn start_of(&self, number: usize) -> Result<usize, NoMemory>
        ensures { IfOk result (λ start. start ≡ number * self.now.block) }
    {
        number.checked_mul(self.block()).ok_or(NoMemory)
    }
}

// The block with that number.
pub(crate) fn block_no(number: usize) -> Result<BlockNo, NoMemory>
    ensures { IfOk result (λ block. block ≡ record { 0 = number }) }
{
    Ok(BlockNo(u16::try_from(number).or(Err(NoMemory))?))
}

// The sum of the two; where it comes to the limit of its type, the answer is want of memory.
pub(crate) fn sum(one: usize, other: usize) -> Result<usize, NoMemory>
    ensures { IfOk result (λ sum. sum ≡ one + other) }
{
    one.checked_add(other).ok_or(NoMemory)
}

// The number as one of 32 bits; where it is more, the answer is want of memory.
pub(crate) fn small(number: usize) -> Result<u32, NoMemory>
    ensures { IfOk result (λ small. small ≡ number) }
{
    u32::try_from(number).or(Err(NoMemory))
}

// The number that follows.
pub(crate) fn next(number: u32) -> Result<u32, NoMemory>
    ensures { IfOk result (λ next. next ≡ number + 1) }
{
    number.checked_add(1).ok_or(NoMemory)
}

// Whether the sum of the two is over the most.
pub(crate) fn passes(one: usize, other: usize, most: usize) -> bool
    ensures { result ≡ nat_lt most (one + other) }
{
    one > most || other > most - one
}
