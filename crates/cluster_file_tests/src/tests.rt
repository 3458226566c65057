mod worked;

use cluster_file::{FileEnd, read_description};
use sprite_ids::NoMemory;
use std::alloc::Global;
use std::test::Fail;
use worked::WORKED;

// What stands before the texts of a table: two clients and a server, and nothing.
const NOTHING: &[u8] = b"";

const VERSION_ONE: &[u8] =
    b"version = 1\nkernel = [{name = \"c1\"}, {name = \"c2\"}, {name = \"s1\", serves = [\"/\", \"/d\"]}]\n";

const VERSION_TWO: &[u8] =
    b"version = 2\nkernel = [{name = \"c1\"}, {name = \"c2\"}, {name = \"s1\", serves = [\"/\", \"/d\"]}]\n";

// Cluster files, and the number and the place of their refusals; number 0 where they describe a cluster.
const WHOLE: [(&[u8], u8, &[u8]); 46] = [
    (b"", 4, b"version"),
    (b"version = 1", 4, b"kernel"),
    (b"\xff", 2, b""),
    (b"version = 1\nversion = 1", 2, b""),
    (b"version = 9223372036854775808", 2, b""),
    (b"version", 2, b""),
    (b"Version = 1", 3, b"Version"),
    (b"a.b = 1\nversion = 1", 3, b"a"),
    (b"\"a\\nb\" = 1", 3, b"a\\0ab"),
    (b"\"\\\\\" = 1", 3, b"\\5c"),
    (b"\"\xc3\xa9\" = 1", 3, b"\\c3\\a9"),
    (b"b = 1\nB = 1\na = 1", 3, b"B"),
    (b"kernel = [{x = 1}]\ny = 1", 3, b"y"),
    (b"kernel = [{x = 1}]", 3, b"kernel 1 x"),
    (b"link = [{x = 1}]\nfile = [{x = 1}]", 3, b"file 1 x"),
    (b"kernel = [1, {x = 1}]", 3, b"kernel 2 x"),
    (b"kernel = {x = 1}", 4, b"version"),
    (b"version = 2\nfile = [{append = true}]", 4, b"kernel"),
    (
        b"version = 1\nfile = [{append = true}]",
        3,
        b"file 1 append",
    ),
    (
        b"version = \"2\"\nfile = [{append = true}]",
        3,
        b"file 1 append",
    ),
    (
        b"version = 2.0\nfile = [{append = true}]",
        3,
        b"file 1 append",
    ),
    (b"kernel = [{}]\nversion = 1", 4, b"kernel 1 name"),
    (b"version = 1.0\nkernel = [{name = \"a\"}]", 5, b"version"),
    (b"version = 1979-05-27\nkernel = []", 5, b"version"),
    (b"version = 1\nkernel = {}", 5, b"kernel"),
    (b"version = 1\nkernel = [1]", 5, b"kernel"),
    (
        b"version = 1\nkernel = [{name = 1}]\nstart = 1",
        5,
        b"start",
    ),
    (b"version = 1\nkernel = [{name = 1}]", 5, b"kernel 1 name"),
    (
        b"version = 1\nkernel = [{name = \"a\", serves = \"/\"}]",
        5,
        b"kernel 1 serves",
    ),
    (
        b"version = 1\nkernel = [{name = \"a\", serves = [1]}]",
        5,
        b"kernel 1 serves",
    ),
    (b"version = 0\nkernel = []", 6, b"version"),
    (b"version = 3\nkernel = []", 6, b"version"),
    (b"version = 1\nkernel = []", 6, b"kernel"),
    (
        b"version = 1\nkernel = [{name=\"k0\"},{name=\"k1\"},{name=\"k2\"},{name=\"k3\"},{name=\"k4\"},{name=\"k5\"},{name=\"k6\"},{name=\"k7\"},{name=\"k8\"},{name=\"k9\"},{name=\"k10\"},{name=\"k11\"},{name=\"k12\"},{name=\"k13\"},{name=\"k14\"},{name=\"k15\"},{name=\"k16\"}]",
        6,
        b"kernel",
    ),
    (
        b"version = 1\nkernel = [{name = \"a\", serves = []}]",
        6,
        b"kernel 1 serves",
    ),
    (
        b"version = 1\nkernel = [{name = \"A\", serves = []}]",
        6,
        b"kernel 1 name",
    ),
    (
        b"version = 1\nkernel = [{name = \"a\", serves = [\"/\",\"/a\",\"/b\",\"/c\",\"/d\",\"/e\",\"/f\",\"/g\",\"/h\",\"/i\",\"/j\",\"/k\",\"/l\",\"/m\",\"/n\",\"/o\",\"/p\"]}]",
        6,
        b"kernel 1 serves",
    ),
    (
        b"version = 1\nkernel = [{name = \"a\", serves = [\"/\",\"/a\",\"/b\",\"/c\",\"/d\",\"/e\",\"/f\",\"/g\",\"/h\",\"/i\",\"/j\",\"/k\",\"/l\",\"/m\",\"/n\",\"/o\"]}, {name = \"b\", serves = [\"/z\"]}]",
        6,
        b"kernel 2 serves",
    ),
    (
        b"version = 1\nkernel = [{name = \"a\", serves = [\"/\",\"/a\",\"/b\",\"/c\",\"/d\",\"/e\",\"/f\",\"/g\",\"/h\",\"/i\",\"/j\",\"/k\",\"/l\",\"/m\",\"/n\",\"/o\"]}]",
        0,
        b"",
    ),
    (
        b"version = 1\nkernel = [{name = \"a\"}, {name = \"a\", serves = [\"/\"]}]",
        7,
        b"kernel 2",
    ),
    (
        b"version = 1\nkernel = [{name = \"a\", serves = [\"/\", \"/b\", \"/b\"]}]",
        7,
        b"kernel 1",
    ),
    (
        b"version = 1\nkernel = [{name = \"a\", serves = [\"/\"]}, {name = \"b\", serves = [\"/\"]}]",
        7,
        b"kernel 2",
    ),
    (b"version = 1\nkernel = [{name = \"a\"}]", 8, b""),
    (
        b"version = 1\nkernel = [{name = \"a\", serves = [\"//\"]}]",
        8,
        b"",
    ),
    (
        b"version = 1\nkernel = [{name = \"a\", serves = [\"/\", \"b\"]}]",
        10,
        b"kernel 1 serves",
    ),
    (
        b"version = 1\nkernel = [{name = \"a\"}, {name = \"b\", serves = [\"/\", \"/b/\"]}]",
        10,
        b"kernel 2 serves",
    ),
];

// The same, behind the kernels of version 1.
const ONE: [(&[u8], u8, &[u8]); 54] = [
    (b"", 0, b""),
    (b"budget = 0\ncache = 7", 6, b"budget"),
    (b"budget = 4000001", 6, b"budget"),
    (b"budget = 4000000", 0, b""),
    (b"cache = 7", 6, b"cache"),
    (b"cache = 8", 0, b""),
    (b"cache = 4096", 0, b""),
    (b"cache = 4097", 6, b"cache"),
    (b"cache = 0", 0, b""),
    (b"program = 1", 5, b"program"),
    (b"start = [[]]", 5, b"start"),
    (b"program = [{name = \"p\"}]", 4, b"program 1 text"),
    (b"start = [{host = \"c1\"}]", 4, b"start 1 program"),
    (b"file = [{}]", 4, b"file 1 path"),
    (b"link = [{from = \"*\"}]", 4, b"link 1 to"),
    (b"evict = [{host = \"c1\"}]", 4, b"evict 1 after"),
    (
        b"start = [{host = \"c1\", program = \"p\", arg = \"1\"}]",
        5,
        b"start 1 arg",
    ),
    (
        b"file = [{path = \"/f\", repeat = 1.5}]",
        5,
        b"file 1 repeat",
    ),
    (
        b"link = [{from = \"*\", to = \"*\", fate = 1}]",
        5,
        b"link 1 fate",
    ),
    (
        b"program = [{name = \"p\", text = \"\"}, {name = \"P\", text = \"\"}]",
        6,
        b"program 2 name",
    ),
    (
        b"program = [{name = \"abcdefghijklmnopq\", text = \"\"}]",
        6,
        b"program 1 name",
    ),
    (
        b"program = [{name = \"abcdefghijklmnop\", text = \"\"}]",
        0,
        b"",
    ),
    (
        b"program = [{name = \"1a\", text = \"\"}]",
        6,
        b"program 1 name",
    ),
    (
        b"start = [{host = \"c1\", program = \"p\", arg = -1}]",
        6,
        b"start 1 arg",
    ),
    (
        b"program = [{name = \"p\", text = \"sys exit 0\"}]\nstart = [{host = \"c2\", program = \"p\", arg = 9223372036854775807}]",
        0,
        b"",
    ),
    (b"file = [{path = \"/f\", repeat = 0}]", 6, b"file 1 repeat"),
    (
        b"file = [{path = \"/f\", repeat = 262145}]",
        6,
        b"file 1 repeat",
    ),
    (
        b"file = [{path = \"/f\", text = \"ab\", repeat = 131072}]",
        0,
        b"",
    ),
    (
        b"file = [{path = \"/f\", text = \"ab\", repeat = 131073}]",
        6,
        b"file 1 repeat",
    ),
    (
        b"link = [{from = \"*\", to = \"*\", first = 0, every = 0}]",
        6,
        b"link 1 first",
    ),
    (
        b"link = [{from = \"s1\", to = \"*\", first = 2147483648}]",
        0,
        b"",
    ),
    (
        b"link = [{from = \"*\", to = \"*\", every = 2147483649}]",
        6,
        b"link 1 every",
    ),
    (
        b"link = [{from = \"*\", to = \"*\", count = 0, fate = \"\"}]",
        6,
        b"link 1 count",
    ),
    (
        b"link = [{from = \"*\", to = \"*\", fate = \"Lost\"}]",
        6,
        b"link 1 fate",
    ),
    (b"evict = [{host = \"c1\", after = 1000000}]", 0, b""),
    (
        b"evict = [{host = \"c1\", after = 1000001}]\nfile = [{path = \"\", repeat = 0}]",
        6,
        b"file 1 repeat",
    ),
    (
        b"evict = [{host = \"c1\", after = 1000001}]",
        6,
        b"evict 1 after",
    ),
    (
        b"program = [{name = \"p\", text = \"sys exit 0\"}, {name = \"p\", text = \"x\"}]\n",
        7,
        b"program 2",
    ),
    (
        b"start = [{host = \"s1\", program = \"p\"}]\nlink = [{from = \"x\", to = \"*\"}]",
        9,
        b"start 1 host",
    ),
    (
        b"link = [{from = \"*\", to = \"*\"}, {from = \"x\", to = \"y\"}]",
        9,
        b"link 2 from",
    ),
    (b"link = [{from = \"c1\", to = \"y\"}]", 9, b"link 1 to"),
    (
        b"evict = [{host = \"s1\", after = 1}]\nfile = [{path = \"x\"}]",
        9,
        b"evict 1 host",
    ),
    (
        b"file = [{path = \"f\"}]\nprogram = [{name = \"p\", text = \"x\"}]",
        10,
        b"file 1 path",
    ),
    (b"file = [{path = \"/\"}]", 10, b"file 1 path"),
    (b"file = [{path = \"/d\"}]", 10, b"file 1 path"),
    (b"file = [{path = \"/d/x\"}]", 0, b""),
    (
        b"file = [{path = \"/a\"}, {path = \"/a/b\"}]",
        10,
        b"file 1 path",
    ),
    (
        b"file = [{path = \"/a/b\"}, {path = \"/a\"}]",
        10,
        b"file 2 path",
    ),
    (b"file = [{path = \"/a\"}, {path = \"/ab\"}]", 0, b""),
    (
        b"file = [{path = \"/a\"}, {path = \"/a\"}]",
        10,
        b"file 2 path",
    ),
    (
        b"file = [{path = \"/a\"}, {path = \"/a/b/\"}]",
        10,
        b"file 2 path",
    ),
    (
        b"program = [{name = \"p\", text = \"\"}, {name = \"q\", text = \"\\nx\"}]\nstart = [{host = \"c1\", program = \"r\"}]",
        11,
        b"program 2 line 2",
    ),
    (
        b"program = [{name = \"p\", text = \"sys rexec 0 1 8 2\"}]",
        11,
        b"program 1 line 1",
    ),
    (
        b"program = [{name = \"p\", text = \"sys exit 0\"}]\nstart = [{host = \"c1\", program = \"p\"}, {host = \"c1\", program = \"q\"}]",
        12,
        b"start 2 program",
    ),
];

// The same, behind the kernels of version 2.
const TWO: [(&[u8], u8, &[u8]); 9] = [
    (b"file = [{path = \"/a\", append = 1}]", 5, b"file 1 append"),
    (
        b"file = [{path = \"/a\", append = true}]",
        10,
        b"file 1 path",
    ),
    (
        b"file = [{path = \"/a\"}, {path = \"/a\", append = true}]",
        0,
        b"",
    ),
    (
        b"file = [{path = \"/a\"}, {path = \"/a\", append = false}]",
        10,
        b"file 2 path",
    ),
    (
        b"file = [{path = \"/a\", repeat = 4194305}]",
        6,
        b"file 1 repeat",
    ),
    (b"file = [{path = \"/a\", repeat = 4194304}]", 0, b""),
    (
        b"file = [{path = \"/a\", text = \"ab\", repeat = 2097152}, {path = \"/a\", text = \"c\", append = true}]",
        6,
        b"file 2 repeat",
    ),
    (
        b"file = [{path = \"/e\", text = \"ab\", repeat = 2097152}, {path = \"/f\", text = \"ab\", repeat = 2097152}, {path = \"/g\", text = \"ab\", repeat = 2097152}, {path = \"/h\", text = \"ab\", repeat = 2097152}, {path = \"/i\", text = \"ab\", repeat = 2097152}, {path = \"/j\", text = \"ab\", repeat = 2097152}, {path = \"/k\", text = \"ab\", repeat = 2097152}, {path = \"/l\", text = \"ab\", repeat = 2097152}, {path = \"/m\", text = \"ab\", repeat = 2097152}, {path = \"/n\", text = \"ab\", repeat = 2097152}, {path = \"/o\", text = \"ab\", repeat = 2097152}, {path = \"/p\", text = \"ab\", repeat = 2097152}, {path = \"/q\", text = \"ab\", repeat = 2097152}, {path = \"/r\", text = \"ab\", repeat = 2097152}, {path = \"/s\", text = \"ab\", repeat = 2097152}, {path = \"/t\", text = \"ab\", repeat = 2097152}, {path = \"/u\", text = \"ab\", repeat = 2097152}]",
        6,
        b"file 17 repeat",
    ),
    (
        b"program = [{name = \"p\", text = \"sys rexec 0 1 8 2\"}]",
        0,
        b"",
    ),
];

// Whether the bytes have the refusal of that number and place, or describe a cluster where the number is 0.
fn is_as_wanted(alloc: Global, bytes: &[u8], number: u8, at: &[u8]) -> Result<bool, NoMemory> {
    match read_description(alloc, bytes) {
        Ok(_) => Ok(number == 0),
        Err(FileEnd::Refused(refusal)) => {
            Ok(refusal.number == number && refusal.at.as_slice() == at)
        }
        Err(FileEnd::NoMemory) => Err(NoMemory),
    }
}

// The place of the first row that is read otherwise.
fn wrong_row(
    alloc: Global,
    head: &[u8],
    rows: &[(&[u8], u8, &[u8])],
) -> Result<Option<usize>, NoMemory> {
    for (place, (text, number, at)) in rows.iter().enumerate() {
        let mut bytes = Vec::from_slice(alloc, head)?;
        bytes.extend_from_slice(*text)?;
        if !is_as_wanted(alloc, bytes.as_slice(), *number, *at)? {
            return Ok(Some(place));
        }
    }
    Ok(None)
}

#[test]
fn files_are_read_or_refused(rt: HostRuntime) -> Result<(), Fail> {
    let alloc = rt.alloc();
    assert_eq!(rt; wrong_row(alloc, NOTHING, &WHOLE)?, None);
    assert_eq!(rt; wrong_row(alloc, VERSION_ONE, &ONE)?, None);
    assert_eq!(rt; wrong_row(alloc, VERSION_TWO, &TWO)?, None);
    Ok(())
}

#[test]
fn worked_files_are_read(rt: HostRuntime) -> Result<(), Fail> {
    assert_eq!(rt; wrong_row(rt.alloc(), NOTHING, &WORKED)?, None);
    Ok(())
}

// So many `#`, which are a comment.
fn comment(alloc: Global, count: usize) -> Result<Vec<u8>, NoMemory> {
    let mut bytes = Vec::new(alloc);
    bytes.resize(count, b'#')?;
    Ok(bytes)
}

#[test]
fn long_files_are_refused(rt: HostRuntime) -> Result<(), Fail> {
    let alloc = rt.alloc();
    let most = comment(alloc, 1_048_576)?;
    let more = comment(alloc, 1_048_577)?;
    assert!(rt; is_as_wanted(alloc, most.as_slice(), 4, b"version")?);
    assert!(rt; is_as_wanted(alloc, more.as_slice(), 1, b"")?);
    Ok(())
}
