ghost use Rattle.std.specs.Prelude.{◌≡◌, ◌≤◌, [], OnOk, OnErr, IsTrue, length};
ghost use Rattle.std.specs.List.{position};
ghost use Rattle.shadow_streams.specs.Shadows.{is_of, offset_of, grants_of, share, grant, set_offset, close, is_closed, has_room};

use crate::shadow::{Shadow, are_none, are_roomy, count_of, counted, lower, raise};
use sprite_ids::{Kernel, NoMemory, StreamNo};
use std::alloc::Global;
use std::marker::Model;

/// The shared streams of the files of one server, each once.
#[derive(Debug, Drop)]
pub struct Shadows {
    shadows: Vec<Shadow>,
}

impl Model for Shadows {
    ghost use Rattle.std.specs.Prelude.{List};
    ghost use Rattle.sprite_ids.specs.Lists.{EachOnce};
    ghost use Rattle.shadow_streams.specs.declared.shadow.Shadow.{Shadow};
    ghost use Rattle.shadow_streams.specs.Shadows.{same_stream};

    ghost Value = { List Shadow };

    ghost view = { λ shadows. shadows.shadows.items };

    ghost invariant = { λ shadows. EachOnce same_stream shadows.shadows.items };
}

impl Shadows {
    /// No streams. It takes no memory, and keeps the allocator.
    pub fn new(alloc: Global) -> Shadows
        ensures { result ≡ [] }
    {
        Shadows {
            shadows: Vec::new(alloc),
        }
    }

    /// Whether each count of grants is at most 2,000,000,000.
    pub fn room(&self) -> bool
        ensures { result ≡ has_room self.now }
    {
        self.shadows.iter().all(|shadow| are_roomy(&shadow.grants))
    }

    /// Makes the stream shared, at that offset. Each kernel stands in the list once for each grant of the stream that
    /// it was given so far. What was kept of the stream before is dropped. After want of memory, the one error, all is as
    /// before.
    pub fn share(
        &mut self,
        stream: StreamNo,
        offset: u32,
        kernels: &[Kernel],
    ) -> Result<(), NoMemory>
        requires { length kernels.now ≤ 2000000000 }
        ensures ok { OnOk result (self.new ≡ share self.old stream offset kernels.now) }
        ensures err { OnErr result (self.new ≡ self.old) }
    {
        let grants = counted(kernels);
        let shadow = Shadow {
            stream,
            offset,
            grants,
        };
        let before = place_of(self.shadows.as_slice(), shadow.stream);
        self.shadows.push(shadow)?;
        if let Some(at) = before {
            self.shadows.remove(at);
        }
        Ok(())
    }

    /// Gives the kernel one more grant of the stream, and answers how many it then holds: 0 where the stream isn't
    /// shared, and then nothing changes. It takes no memory.
    pub fn grant(&mut self, stream: StreamNo, kernel: Kernel) -> u32
        requires { IsTrue (has_room self.old) }
        ensures shadows { self.new ≡ grant self.old stream kernel }
        ensures count { result ≡ grants_of self.new stream kernel }
    {
        match place_of(self.shadows.as_slice(), stream) {
            Some(at) => {
                let mut shadow = self.shadows[at];
                raise(&mut shadow.grants, kernel);
                self.shadows[at] = shadow;
                count_of(&shadow.grants, kernel)
            }
            None => 0,
        }
    }

    /// The stream's offset; None exactly where it isn't shared.
    pub fn offset(&self, stream: StreamNo) -> Option<u32>
        ensures { result ≡ offset_of self.now stream }
    {
        match place_of(self.shadows.as_slice(), stream) {
            Some(at) => Some(self.shadows[at].offset),
            None => None,
        }
    }

    /// Moves the stream's offset, where the stream is shared.
    pub fn set_offset(&mut self, stream: StreamNo, offset: u32)
        ensures { self.new ≡ set_offset self.old stream offset }
    {
        if let Some(at) = place_of(self.shadows.as_slice(), stream) {
            self.shadows[at].offset = offset;
        }
    }

    /// Takes that many grants of the stream off the kernel, or all where it holds fewer. True exactly where no grant
    /// is left, and the stream is then no longer shared.
    pub fn close(&mut self, stream: StreamNo, kernel: Kernel, grants: u32) -> bool
        ensures shadows { self.new ≡ close self.old stream kernel grants }
        ensures closed { result ≡ is_closed self.old stream kernel grants }
    {
        let Some(at) = place_of(self.shadows.as_slice(), stream) else {
            return true;
        };
        let mut shadow = self.shadows[at];
        lower(&mut shadow.grants, kernel, grants);
        if are_none(&shadow.grants) {
            self.shadows.remove(at);
            return true;
        }
        self.shadows[at] = shadow;
        false
    }
}

// Where the stream is kept.
fn place_of(shadows: &[Shadow], stream: StreamNo) -> Option<usize>
    ensures { result ≡ position (is_of stream) shadows.now }
{
    shadows.iter().position(|shadow| shadow.stream == stream)
}
