ghost use Rattle.std.specs.Prelude.{◌≡◌, [], ◌∷◌, IfOk, IsTrue, length};
ghost use Rattle.unix_calls.specs.Domains.{roots_of, begins_domain};

use link_plan::Plan;
use process_machine::{Call, Reply};
use sprite_ids::{Bytes, Copying, Items, Kernel, NoMemory, Pid};
use sprite_paths::Path;
use std::alloc::Global;
use unix_calls::{Description, Entry, KernelLine, Part};

// A cluster of these kernels and nothing else.
fn cluster(alloc: Global, kernels: Items<KernelLine>) -> Description
    ensures { result.kernels ≡ kernels }
{
    Description {
        version: 1,
        budget: 1_000_000,
        cache: 64,
        kernels,
        programs: Items::new(alloc),
        starts: Items::new(alloc),
        files: Items::new(alloc),
        plan: Plan {
            entries: Items::new(alloc),
        },
        evicts: Items::new(alloc),
    }
}

// A kernel that serves these domains.
fn kernel(alloc: Global, name: &[u8], serves: Items<Path>) -> Result<KernelLine, NoMemory>
    ensures { IfOk result (λ line. line.serves ≡ serves) }
{
    Ok(KernelLine {
        name: Bytes::of_slice(alloc, name)?,
        serves,
    })
}

// One domain.
fn one(alloc: Global, path: Path) -> Result<Items<Path>, NoMemory>
    ensures { IfOk result (λ paths. paths ≡ path ∷ []) }
{
    let mut paths = Items::new(alloc);
    paths.push(path)?;
    Ok(paths)
}

// Two domains.
fn two(alloc: Global, first: Path, second: Path) -> Result<Items<Path>, NoMemory>
    ensures { IfOk result (λ paths. paths ≡ first ∷ second ∷ []) }
{
    let mut paths = Items::new(alloc);
    paths.push(first)?;
    paths.push(second)?;
    Ok(paths)
}

// A kernel that serves one domain.
fn serving(alloc: Global, name: &[u8], path: Path) -> Result<KernelLine, NoMemory>
    ensures { IfOk result (λ line. line.serves ≡ path ∷ []) }
{
    let serves = one(alloc, path)?;
    kernel(alloc, name, serves)
}

// The path of a text.
fn path(alloc: Global, text: &[u8]) -> Result<Path, NoMemory> {
    Path::clean(alloc, &Path::root(alloc), text).or(Err(NoMemory))
}

// Paths, each with the place of its longest domain and the number of that domain's server, where the kernels serve `/`;
// `/a`; nothing; and `/a/b` and `/b`.
static DOMAINS: [(&[u8], usize, u8); 9] = [
    (b"/", 0, 1),
    (b"/x/a", 0, 1),
    (b"/ab", 0, 1),
    (b"/a", 1, 2),
    (b"/a/c/b", 1, 2),
    (b"/a/bb", 1, 2),
    (b"/a/b", 2, 4),
    (b"/a/b/c", 2, 4),
    (b"/b/a", 3, 4),
];

// Those kernels.
fn kernels(alloc: Global) -> Result<Items<KernelLine>, NoMemory>
    ensures root { IfOk result (λ lines. IsTrue (begins_domain (roots_of lines) [])) }
    ensures four { IfOk result (λ lines. length (roots_of lines) ≡ 4) }
{
    let mut lines = Vec::with_capacity(alloc, 4)?;
    lines.push_reserved(serving(alloc, b"s1", Path::root(alloc))?);
    lines.push_reserved(serving(alloc, b"s2", path(alloc, b"/a")?)?);
    lines.push_reserved(kernel(alloc, b"c1", Items::new(alloc))?);
    let serves = two(alloc, path(alloc, b"/a/b")?, path(alloc, b"/b")?)?;
    lines.push_reserved(kernel(alloc, b"s3", serves)?);
    Ok(Items::of_vec(lines))
}

// Whether the path has that domain and that server.
fn goes(alloc: Global, c: &Description, case: &(&[u8], usize, u8)) -> bool
    requires root { IsTrue (begins_domain (roots_of c.now.kernels) []) }
    requires four { length (roots_of c.now.kernels) ≡ 4 }
{
    let Ok(path) = path(alloc, case.0) else {
        return false;
    };
    let place = c.domain_of(&path);
    place == case.1 && c.server_at(place).number() == case.2
}

// Whether each path has its domain and its server.
fn all_go(alloc: Global, c: &Description) -> bool
    requires root { IsTrue (begins_domain (roots_of c.now.kernels) []) }
    requires four { length (roots_of c.now.kernels) ≡ 4 }
{
    for case in DOMAINS.iter() {
        if !goes(alloc, c, case) {
            return false;
        }
    }
    true
}

// The same of a cluster of those kernels.
fn cluster_goes(alloc: Global) -> bool {
    let Ok(kernels) = kernels(alloc) else {
        return false;
    };
    let c = cluster(alloc, kernels);
    let right = all_go(alloc, &c);
    std::mem::drop(c);
    right
}

#[test]
fn a_path_goes_to_the_server_of_its_longest_domain(rt: HostRuntime) {
    assert!(rt; cluster_goes(rt.alloc()));
}

// The process of that home and birth.
fn process(home: u8, birth: u32) -> Option<Pid> {
    Pid::new(Kernel::new(home)?, birth)
}

// A call that was answered.
fn answered(alloc: Global, pid: Pid) -> Entry {
    Entry {
        pid,
        number: 3,
        part: Part::Whole,
        call: Some(Call::Getpid),
        reply: Some(Reply::Value {
            first: 0,
            second: 0,
            bytes: Bytes::new(alloc),
        }),
    }
}

fn copies_entry(alloc: Global, entry: &Entry) -> bool {
    let Ok(copy) = entry.copy(alloc) else {
        return false;
    };
    std::mem::drop(copy);
    true
}

// Where there is memory, an entry is copied.
fn entry_is_copied(alloc: Global) -> bool {
    let Some(pid) = process(1, 2) else {
        return false;
    };
    let entry = answered(alloc, pid);
    let copied = copies_entry(alloc, &entry);
    std::mem::drop(entry);
    copied
}

fn copies_cluster(alloc: Global, c: &Description) -> bool {
    let Ok(copy) = c.copy(alloc) else {
        return false;
    };
    std::mem::drop(copy);
    true
}

// Where there is memory, a description is copied.
fn cluster_is_copied(alloc: Global) -> bool {
    let Ok(kernels) = kernels(alloc) else {
        return false;
    };
    let c = cluster(alloc, kernels);
    let copied = copies_cluster(alloc, &c);
    std::mem::drop(c);
    copied
}

#[test]
fn copies_are_made(rt: HostRuntime) {
    assert!(rt; entry_is_copied(rt.alloc()));
    assert!(rt; cluster_is_copied(rt.alloc()));
}
