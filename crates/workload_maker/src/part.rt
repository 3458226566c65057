ghost use Rattle.std.specs.Prelude.{◌≡◌};
ghost use Rattle.workload_maker.specs.Workloads.{text_of};

/// A part of a workload's cluster file that doesn't depend on a process's number.
#[derive(Clone, Copy)]
pub(crate) enum Part {
    /// The kernels.
    Kernels,
    /// Where a process begins, up to its client's number.
    Host,
    /// From there up to its program's number.
    Program,
    /// From there up to the number in the program's name.
    Name,
    /// From there up to the number in its file's path.
    Path,
    /// From there up to the number of the client that it moves to.
    Target,
    /// From there up to the length of the path.
    Length,
    /// From there on: its instructions.
    Work,
}

/// What the part says.
#[tactic(auto, unfolding(crate::specs::Workloads::text_of))]
pub(crate) fn text_of(part: Part) -> &'static [u8]
    ensures { result.now ≡ text_of part }
{
    match part {
        Part::Kernels =>
            b"version = 1\nbudget = 4000000\n[[kernel]]\nname = \"c1\"\n[[kernel]]\nname = \"c2\"\n[[kernel]]\nname = \"c3\"\n[[kernel]]\nname = \"c4\"\n[[kernel]]\nname = \"s1\"\nserves = [\"/\"]\n",
        Part::Host => b"[[start]]\nhost = \"c",
        Part::Program => b"\"\nprogram = \"w",
        Part::Name => b"\"\n[[program]]\nname = \"w",
        Part::Path => b"\"\ntext = '''\npages 2\ntext 0 \"/f",
        Part::Target => b"\"\ntext 8 \"c",
        Part::Length => b"\"\ntext 16 \"ok\\n\"\nsys open 0 ",
        Part::Work =>
            b" 7\nset r6 0\nset r7 16\nput:\nsys write 0 0 4096\naddi r6 1\njlt r6 r7 put\nsys migrate 8 2\nsys seek 0 0\nset r6 0\nget:\nsys read 0 4096 4096\nadd r6 r1\njne r1 r5 get\nset r7 65536\njne r6 r7 bad\nsys print 16 3\nbad:\nsys exit 0\n'''\n",
    }
}
