ghost use Rattle.std.specs.Prelude.{◌≡◌, ◌<◌, false, true, IfOk, length, replicate, slice_index_or, slice_set};

use sprite_ids::NoMemory;
use std::alloc::Global;
use std::marker::Model;

/// Flags, each of which is set or isn't, eight in a byte. Contracts see them as a list of bools.
#[derive(Drop)]
pub struct Flags {
    bits: Vec<u8>,
    count: u16,
}

impl Model for Flags {
    ghost use Rattle.std.specs.Prelude.{◌≤◌, ◌*◌, Bool, List, length};
    ghost use Rattle.wire_fragments.specs.Bits.{flags_from};

    ghost Value = { List Bool };

    ghost view = { λ flags. flags_from flags.bits.items 0 flags.count };

    ghost invariant = { λ flags. flags.count ≤ 8 * length flags.bits.items };
}

impl Flags {
    // So many flags, none of them set. The one error is want of memory.
    pub(crate) fn new(alloc: Global, count: u16) -> Result<Flags, NoMemory>
        ensures { IfOk result (λ flags. flags ≡ replicate count false) }
    {
        let bits = vec![in alloc; 0; usize::from(count).div_ceil(8)]?;
        Ok(Flags { bits, count })
    }

    // How many flags there are.
    pub(crate) fn len(&self) -> u16
        ensures { result ≡ length self.now }
    {
        self.count
    }

    // Whether the flag of that place is set; not where there is none.
    pub(crate) fn get(&self, at: u16) -> bool
        ensures { result ≡ slice_index_or self.now at false }
    {
        at < self.count && (self.bits[usize::from(at / 8)] >> (at % 8)) & 1 == 1
    }

    // Sets the flag of that place.
    pub(crate) fn set(&mut self, at: u16)
        requires { at < length self.old }
        ensures { self.new ≡ slice_set self.old at true }
    {
        self.bits[usize::from(at / 8)] |= 1 << (at % 8);
    }
}
