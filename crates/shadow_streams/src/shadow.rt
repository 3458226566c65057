ghost use Rattle.std.specs.Prelude.{◌≡◌, ◌≤◌, ◌<◌, length, slice_index};
ghost use Rattle.shadow_streams.specs.Shadows.{count_of, raised, lowered, are_none, counted, are_roomy};

use sprite_ids::{Kernel, StreamNo};

/// The most that a count of grants may have where it is to be raised (this project).
const ROOM: u32 = 2_000_000_000;

/// A shared stream.
#[derive(Clone, Copy, Debug, PartialEq, Eq)]
pub struct Shadow {
    pub stream: StreamNo,
    /// In bytes.
    pub offset: u32,
    /// How many grants of the stream each kernel holds, from kernel 1 to kernel 16.
    pub grants: [u32; 16],
}

// How many grants the kernel holds.
pub(crate) fn count_of(grants: &[u32; 16], kernel: Kernel) -> u32
    ensures { result ≡ count_of kernel grants.now }
{
    grants[usize::from(kernel.number() - 1)]
}

// One grant more.
pub(crate) fn raise(grants: &mut [u32; 16], kernel: Kernel)
    requires { count_of kernel grants.old < 4294967295 }
    ensures { grants.new ≡ raised kernel grants.old }
{
    grants[usize::from(kernel.number() - 1)] += 1;
}

// That many grants fewer.
pub(crate) fn lower(grants: &mut [u32; 16], kernel: Kernel, fewer: u32)
    ensures { grants.new ≡ lowered kernel fewer grants.old }
{
    let place = usize::from(kernel.number() - 1);
    grants[place] = grants[place].saturating_sub(fewer);
}

// Whether no kernel holds a grant.
pub(crate) fn are_none(grants: &[u32; 16]) -> bool
    ensures { result ≡ are_none grants.now }
{
    grants.iter().all(|count| *count == 0)
}

// Whether each count may be raised.
pub(crate) fn are_roomy(grants: &[u32; 16]) -> bool
    ensures { result ≡ are_roomy grants.now }
{
    grants.iter().all(|count| *count <= ROOM)
}

// How many grants each kernel holds, where it stands in the list once for each of them.
pub(crate) fn counted(kernels: &[Kernel]) -> [u32; 16]
    requires { length kernels.now ≤ 2000000000 }
    ensures { result ≡ counted kernels.now }
{
    let mut grants = [0; 16];
    for kernel in kernels {
        raise(&mut grants, *kernel);
    }
    grants
}
