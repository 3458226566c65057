//! The clusters, and the records of short traces, by which the rule on files that several kernels use at a time is tried (this project).

// Two clients and the server of all names. A process on the first client opens a file for both, moves its offset, reads, writes and asks
// for the size.
pub(crate) const CLUSTER: &str =
    "version = 1\n[[kernel]]\nname = \"c1\"\n[[kernel]]\nname = \"c2\"\n[[kernel]]\nname = \"s1\"\nserves = [\"/\"]\n[[program]]\nname = \"p\"\ntext = '''\npages 1\ntext 0 \"/f\"\nsys open 0 2 3\nsys seek 0 1\nsys read 0 64 1\nsys write 0 64 1\nsys size 0\nsys exit 0\n'''\n[[start]]\nhost = \"c1\"\nprogram = \"p\"\n[[file]]\npath = \"/f\"\ntext = \"abc\"\n";

// The same, without caches.
pub(crate) const UNCACHED: &str =
    "version = 1\ncache = 0\n[[kernel]]\nname = \"c1\"\n[[kernel]]\nname = \"c2\"\n[[kernel]]\nname = \"s1\"\nserves = [\"/\"]\n[[program]]\nname = \"p\"\ntext = '''\npages 1\ntext 0 \"/f\"\nsys open 0 2 3\nsys seek 0 1\nsys exit 0\n'''\n[[start]]\nhost = \"c1\"\nprogram = \"p\"\n[[file]]\npath = \"/f\"\ntext = \"abc\"\n";

// The process truncates the file as it opens it for writing.
pub(crate) const TRUNCATING: &str =
    "version = 1\n[[kernel]]\nname = \"c1\"\n[[kernel]]\nname = \"c2\"\n[[kernel]]\nname = \"s1\"\nserves = [\"/\"]\n[[program]]\nname = \"p\"\ntext = '''\npages 1\ntext 0 \"/f\"\nsys open 0 2 10\nsys exit 0\n'''\n[[start]]\nhost = \"c1\"\nprogram = \"p\"\n[[file]]\npath = \"/f\"\ntext = \"abc\"\n";

// A record. The number behind a name is that of the client that is named; the file is that of the process unless it is said to be
// another one.
#[derive(Clone, Copy, Debug, PartialEq, Eq)]
pub(crate) enum Line {
    End,
    Read1,
    Write1,
    Both1,
    ReadAgain1,
    WriteAgain1,
    Read2,
    Write2,
    Both2,
    Moved2,
    OtherRead1,
    OtherWrite2,
    CloseRead1,
    CloseWrite1,
    CloseAgain1,
    CloseWrite2,
    GrantOff1,
    GrantOff2,
    GrantOn2,
    OtherOff1,
    Stop1,
    Recall1,
    OtherStop1,
    Shares,
    OtherShares,
    TakesOn1,
    TakesOff1,
    TakesOff2,
    TakesOlder2,
    TakesStop1,
    TakesOther1,
    Learns1,
    Enter,
    EnterCut,
    SeekThere,
    SeekHere,
    ReadThere,
    WriteThere,
    SizeThere,
}

pub(crate) fn text_of(line: Line) -> &'static str {
    match line {
        Line::End => "",
        Line::Read1 => "3 Opened 3:1 1:1 1 read\n",
        Line::Write1 => "3 Opened 3:1 1:1 1 write\n",
        Line::Both1 => "3 Opened 3:1 1:1 1 both\n",
        Line::ReadAgain1 => "3 Opened 3:1 1:2 1 read\n",
        Line::WriteAgain1 => "3 Opened 3:1 1:2 1 write\n",
        Line::Read2 => "3 Opened 3:1 2:1 2 read\n",
        Line::Write2 => "3 Opened 3:1 2:1 2 write\n",
        Line::Both2 => "3 Opened 3:1 2:1 2 both\n",
        Line::Moved2 => "3 Opened 3:1 1:1 2 write\n",
        Line::OtherRead1 => "3 Opened 3:2 1:9 1 read\n",
        Line::OtherWrite2 => "3 Opened 3:2 2:9 2 write\n",
        Line::CloseRead1 => "3 Closed 3:1 1:1 1 read\n",
        Line::CloseWrite1 => "3 Closed 3:1 1:1 1 write\n",
        Line::CloseAgain1 => "3 Closed 3:1 1:2 1 read\n",
        Line::CloseWrite2 => "3 Closed 3:1 2:1 2 write\n",
        Line::GrantOff1 => "3 Grant 3:1 1 1 off\n",
        Line::GrantOff2 => "3 Grant 3:1 2 2 off\n",
        Line::GrantOn2 => "3 Grant 3:1 2 2 on\n",
        Line::OtherOff1 => "3 Grant 3:2 1 1 off\n",
        Line::Stop1 => "3 Callback 3:1 1 3 stop\n",
        Line::Recall1 => "3 Callback 3:1 1 3 recall\n",
        Line::OtherStop1 => "3 Callback 3:2 1 3 stop\n",
        Line::Shares => "3 Shared 3:1 1:1\n",
        Line::OtherShares => "3 Shared 3:2 1:1\n",
        Line::TakesOn1 => "1 Mode 3:1 1 on\n",
        Line::TakesOff1 => "1 Mode 3:1 1 off\n",
        Line::TakesOff2 => "2 Mode 3:1 2 off\n",
        Line::TakesOlder2 => "2 Mode 3:1 1 off\n",
        Line::TakesStop1 => "1 Mode 3:1 3 off\n",
        Line::TakesOther1 => "1 Mode 3:2 1 off\n",
        Line::Learns1 => "1 Learned \"/\" 3\n",
        Line::Enter => "3 Enter 1001 1 whole open \"/f\" 3 -> ok 0 0 \"\"\n",
        Line::EnterCut => "3 Enter 1001 1 whole open \"/f\" 10 -> ok 0 0 \"\"\n",
        Line::SeekThere => "3 Enter 1001 2 whole seek 0 1 -> ok 1 0 \"\"\n",
        Line::SeekHere => "1 Enter 1001 2 whole seek 0 1 -> ok 1 0 \"\"\n",
        Line::ReadThere => "3 Enter 1001 3 whole read 0 1 -> ok 1 0 \"b\"\n",
        Line::WriteThere => "3 Enter 1001 4 whole write 0 \"b\" -> ok 1 0 \"\"\n",
        Line::SizeThere => "3 Enter 1001 5 whole size 0 -> ok 3 0 \"\"\n",
    }
}

// A trace of at most seven records, and whether the rule is kept.
pub(crate) type Row = (Line, Line, Line, Line, Line, Line, Line, bool);
