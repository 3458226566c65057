ghost use Rattle.std.specs.Prelude.{[], ◌≡◌, ◌<◌, ◌≤◌, ◌+◌, ◌^◌, IsTrue, length};
ghost use Rattle.unix_calls.specs.Domains.{roots_of, begins_domain, longer, better, best_from, domain_of, server_of, IsLongest, IsServer};

use crate::description::{Description, KernelLine};
use sprite_ids::Kernel;
use sprite_paths::Path;

/// The best domain of a path so far.
#[derive(Clone, Copy, Debug)]
struct Found {
    /// Its place among all domains, from 0.
    place: usize,
    /// How many parts its own path has.
    parts: usize,
}

impl Description {
    /// The place, counted from 0, of the longest domain of the path among the paths that the kernels serve, in file order.
    /// The root must be served (this project). No memory has 2^64 domains, and a cluster has at most 16.
    pub fn domain_of(&self, path: &Path) -> usize
        requires root { IsTrue (begins_domain (roots_of self.now.kernels) []) }
        ensures place { length (roots_of self.now.kernels) < 2 ^ 64 → result ≡ domain_of (roots_of self.now.kernels) path.now }
        ensures longest { length (roots_of self.now.kernels) < 2 ^ 64 → IsLongest (roots_of self.now.kernels) path.now result }
        ensures there { length (roots_of self.now.kernels) < 2 ^ 64 → result < length (roots_of self.now.kernels) }
    {
        longest_place(self.kernels.as_slice(), path)
    }

    /// The server of the domain at that place. There must be one (this project). A cluster has at most 16 kernels.
    pub fn server_at(&self, domain: usize) -> Kernel
        requires there { domain < length (roots_of self.now.kernels) }
        ensures number { length self.now.kernels ≤ 16 → result ≡ server_of self.now.kernels domain }
        ensures server { length self.now.kernels ≤ 16 → IsServer self.now.kernels domain result }
    {
        kernel_at(line_of(self.kernels.as_slice(), domain))
    }
}

// The place of the longest domain of the path; 0 where no domain has it.
fn longest_place(lines: &[KernelLine], path: &Path) -> usize
    ensures { length (roots_of lines.now) < 2 ^ 64 → result ≡ domain_of (roots_of lines.now) path.now }
{
    let mut best = None;
    let mut place: usize = 0;
    for line in lines {
        best = best_in(path, best, place, line.serves.as_slice());
        place = place.saturating_add(line.serves.len());
    }
    match best {
        Some(found) => found.place,
        None => 0,
    }
}

// Where the line of the kernel stands that serves the domain.
fn line_of(lines: &[KernelLine], domain: usize) -> usize
    requires there { domain < length (roots_of lines.now) }
    ensures within { result < length lines.now }
    ensures number { result + 1 ≡ server_of lines.now domain }
{
    let mut left = domain;
    for (index, line) in lines.iter().enumerate() {
        if left < line.serves.len() {
            return index;
        }
        left -= line.serves.len();
    }
    unreachable!()
}

// The best domain of the path after these, which stand from that place on.
fn best_in(path: &Path, best: Option<Found>, place: usize, roots: &[Path]) -> Option<Found>
    ensures { place + length roots.now < 2 ^ 64 → result ≡ best_from path.now best place roots.now }
{
    let mut best = best;
    for (index, root) in roots.iter().enumerate() {
        best = better(path, best, place.saturating_add(index), root);
    }
    best
}

// The better of two for the path.
fn better(path: &Path, best: Option<Found>, place: usize, root: &Path) -> Option<Found>
    ensures { result ≡ better path.now best place root.now }
{
    if path.starts_with(root) {
        longer(best, place, root)
    } else {
        best
    }
}

// The longer of two.
fn longer(best: Option<Found>, place: usize, root: &Path) -> Option<Found>
    ensures { result ≡ longer best place root.now }
{
    let parts = root.len();
    match best {
        Some(found) if parts <= found.parts => Some(found),
        _ => Some(Found { place, parts }),
    }
}

// The kernel whose line stands at that index, counted from 0; the sixteenth for every index behind it.
fn kernel_at(index: usize) -> Kernel
    ensures { index < 16 → result ≡ index + 1 }
{
    match Kernel::new(index.min(15) as u8 + 1) {
        Some(kernel) => kernel,
        None => unreachable!(),
    }
}
