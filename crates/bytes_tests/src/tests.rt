ghost use Rattle.std.specs.Prelude.{◌≤◌};

use sprite_bytes::{
    Failed, MemSink, MemSource, Message, NullSink, PlainSource, ReadEnd, Sink, Source, StdSink,
    StdSource, WriteEnd, read_all, write_all,
};
use sprite_ids::{Bytes, NoMemory};
use std::alloc::{AllocError, Global};
use std::io;
use std::io::{ErrorKind, Read, Write};
use std::process::Abort;

// Asserts that no row is another, and tells the place of the one that is.
fn is_none(rt: &impl Abort, other: Option<usize>) {
    assert_eq!(rt; other, None);
}

// Bytes 0, 1, .. up to 250, and then the same again.
fn numbered_at(place: usize) -> u8 {
    (place % 251) as u8
}

fn numbered(alloc: Global, count: usize) -> Result<Vec<u8>, AllocError> {
    let mut bytes = Vec::new(alloc);
    for place in 0..count {
        bytes.push(numbered_at(place))?;
    }
    Ok(bytes)
}

// Whether these are numbered bytes from that place on.
fn are_numbered(bytes: &[u8], from: usize) -> bool {
    for (place, byte) in bytes.iter().enumerate() {
        if *byte != numbered_at(from.saturating_add(place)) {
            return false;
        }
    }
    true
}

// A reader and a writer whose calls go wrong in this order: the first moves one byte, the second meets an error, the
// third is interrupted, the fourth moves nothing, and every later one moves one byte.
#[derive(Drop)]
struct Faulty {
    calls: u8,
}

impl Faulty {
    fn moves(&mut self, length: usize) -> io::Result<usize> {
        self.calls = self.calls.saturating_add(1);
        match self.calls {
            2 => Err(ErrorKind::Other.into()),
            3 => Err(ErrorKind::Interrupted.into()),
            4 => Ok(0),
            _ => Ok(length.min(1)),
        }
    }
}

impl Read for Faulty {
    fn read(&mut self, buf: &mut [u8]) -> io::Result<usize> {
        let count = self.moves(buf.len())?;
        Ok(count.min(buf.len()))
    }
}

impl Write for Faulty {
    fn write(&mut self, buf: &[u8]) -> io::Result<usize> {
        let count = self.moves(buf.len())?;
        Ok(count.min(buf.len()))
    }

    fn flush(&mut self) -> io::Result<()> {
        Ok(())
    }
}

// Whether reading the source of numbered bytes answers so, as the count of bytes, from the first byte on.
fn reads<S: Source>(
    alloc: Global,
    source: &mut S,
    limit: usize,
    answer: Result<usize, ReadEnd>,
) -> bool {
    match read_all(alloc, source, limit) {
        Ok(all) => answer == Ok(all.len()) && are_numbered(&all, 0),
        Err(end) => answer == Err(end),
    }
}

// What is left in the source. It is read again, and once more where the read that fails comes only then.
fn rest(alloc: Global, source: &mut MemSource) -> Result<Vec<u8>, ReadEnd> {
    match read_all(alloc, source, usize::MAX) {
        Ok(rest) => Ok(rest),
        Err(_) => read_all(alloc, source, usize::MAX),
    }
}

// Whether the last so many of the source's numbered bytes are left in it.
fn has_left(alloc: Global, source: &mut MemSource, count: usize, left: usize) -> bool {
    match rest(alloc, source) {
        Ok(rest) => rest.len() == left && are_numbered(&rest, count.saturating_sub(left)),
        Err(_) => false,
    }
}

const FAULT: ReadEnd = ReadEnd::Fault { before: 0, now: 1 };

// Bytes in the source, bytes per read, number of the read that fails, limit, answer, bytes left in the source.
type ReadRow = (usize, usize, u64, usize, Result<usize, ReadEnd>, usize);

static READS: [ReadRow; 19] = [
    (0, 1, 0, 0, Ok(0), 0),
    (0, 1, 1, 0, Err(FAULT), 0),
    (10, 1, 0, 10, Ok(10), 0),
    (10, 1, 0, 11, Ok(10), 0),
    (10, 1, 0, 9, Err(ReadEnd::TooLong), 0),
    (10, 1, 0, 8, Err(ReadEnd::TooLong), 1),
    (10, 1, 0, 0, Err(ReadEnd::TooLong), 9),
    (10, 1, 10, 8, Err(ReadEnd::TooLong), 1),
    (10, 1, 9, 8, Err(FAULT), 2),
    (10, 3, 3, 10, Err(FAULT), 4),
    (10, 3, 4, 10, Err(FAULT), 1),
    (10, 3, 5, 10, Err(FAULT), 0),
    (10, 3, 6, 10, Ok(10), 0),
    (10, 3, 0, 7, Err(ReadEnd::TooLong), 2),
    (10, usize::MAX, 2, usize::MAX, Err(FAULT), 0),
    (10, usize::MAX, 3, usize::MAX, Ok(10), 0),
    (5000, usize::MAX, 0, 5000, Ok(5000), 0),
    (5000, usize::MAX, 0, 4999, Err(ReadEnd::TooLong), 0),
    (5000, usize::MAX, 0, 4000, Err(ReadEnd::TooLong), 999),
];

// A source of so many numbered bytes, that gives so many per read and fails at that one.
fn source(alloc: Global, count: usize, piece: usize, failing: u64) -> Result<MemSource, AllocError>
    requires { 1 ≤ piece }
{
    let bytes = numbered(alloc, count)?;
    let failing = Vec::from_slice(alloc, &[failing])?;
    Ok(MemSource::in_pieces(bytes, piece, failing))
}

fn is_read(alloc: Global, row: &ReadRow) -> bool {
    let (count, piece, failing, limit, answer, left) = row;
    if *piece == 0 {
        return false;
    }
    let Ok(mut source) = source(alloc, *count, *piece, *failing) else {
        return false;
    };
    reads(alloc, &mut source, *limit, *answer) && has_left(alloc, &mut source, *count, *left)
}

// The place of the first row that is read otherwise.
fn first_other_read(alloc: Global, rows: &[ReadRow]) -> Option<usize> {
    for (place, row) in rows.iter().enumerate() {
        if !is_read(alloc, row) {
            return Some(place);
        }
    }
    None
}

#[test]
fn sources_are_read_to_their_end(rt: HostRuntime) {
    is_none(&rt, first_other_read(rt.alloc(), &READS));
}

// Ten bytes that are read one by one, where each of the eleven reads fails in turn.
static FAILING: [ReadRow; 11] = [
    (10, 1, 1, 10, Err(FAULT), 10),
    (10, 1, 2, 10, Err(FAULT), 9),
    (10, 1, 3, 10, Err(FAULT), 8),
    (10, 1, 4, 10, Err(FAULT), 7),
    (10, 1, 5, 10, Err(FAULT), 6),
    (10, 1, 6, 10, Err(FAULT), 5),
    (10, 1, 7, 10, Err(FAULT), 4),
    (10, 1, 8, 10, Err(FAULT), 3),
    (10, 1, 9, 10, Err(FAULT), 2),
    (10, 1, 10, 10, Err(FAULT), 1),
    (10, 1, 11, 10, Err(FAULT), 0),
];

#[test]
fn each_read_may_fail(rt: HostRuntime) {
    is_none(&rt, first_other_read(rt.alloc(), &FAILING));
}

const fn stopped(written: usize) -> WriteEnd {
    WriteEnd {
        written,
        before: 0,
        now: 1,
    }
}

// Bytes to write, room, bytes per write, number of the write that fails, whether all are written, bytes in the sink.
type WriteRow = (usize, usize, usize, u64, bool, usize);

static WRITES: [WriteRow; 18] = [
    (0, 0, 1, 1, true, 0),
    (33, 1000, 10, 0, true, 33),
    (33, 1000, 10, 1, false, 0),
    (33, 1000, 10, 2, false, 10),
    (33, 1000, 10, 3, false, 20),
    (33, 1000, 10, 4, false, 30),
    (33, 1000, 10, 5, true, 33),
    (4, 4, 1, 1, false, 0),
    (4, 4, 1, 2, false, 1),
    (4, 4, 1, 3, false, 2),
    (4, 4, 1, 4, false, 3),
    (4, 4, 1, 5, true, 4),
    (33, 33, 10, 0, true, 33),
    (33, 32, 10, 0, false, 32),
    (33, 30, 10, 4, false, 30),
    (33, 0, 10, 0, false, 0),
    (33, 33, usize::MAX, 0, true, 33),
    (33, 12, usize::MAX, 0, false, 12),
];

// An empty sink with such a room, that takes so many bytes per write and fails at that one.
fn sink(alloc: Global, room: usize, piece: usize, failing: u64) -> Result<MemSink, NoMemory>
    requires { 1 ≤ piece }
{
    let failing = Vec::from_slice(alloc, &[failing])?;
    MemSink::new(alloc, room, piece, failing)
}

// Whether writing so many numbered bytes ends so.
fn writes(alloc: Global, sink: &mut MemSink, count: usize, wanted: Result<(), WriteEnd>) -> bool {
    match numbered(alloc, count) {
        Ok(bytes) => write_all(sink, &bytes) == wanted,
        Err(_) => false,
    }
}

fn is_written(alloc: Global, row: &WriteRow) -> bool {
    let (count, room, piece, failing, whole, written) = row;
    if *piece == 0 {
        return false;
    }
    let wanted = if *whole {
        Ok(())
    } else {
        Err(stopped(*written))
    };
    let Ok(mut sink) = sink(alloc, *room, *piece, *failing) else {
        return false;
    };
    let ends_so = writes(alloc, &mut sink, *count, wanted);
    let held = sink.into_vec();
    ends_so && held.len() == *written && are_numbered(&held, 0)
}

// The place of the first row that is written otherwise.
fn first_other_write(alloc: Global, rows: &[WriteRow]) -> Option<usize> {
    for (place, row) in rows.iter().enumerate() {
        if !is_written(alloc, row) {
            return Some(place);
        }
    }
    None
}

#[test]
fn bytes_are_written_to_the_last(rt: HostRuntime) {
    is_none(&rt, first_other_write(rt.alloc(), &WRITES));
}

fn faults_in(alloc: Global, source: &mut MemSource, before: u64, now: u64) -> bool {
    reads(alloc, source, 3, Err(ReadEnd::Fault { before, now }))
}

// A source of three numbered bytes, whose first two reads fail.
fn failing_source(alloc: Global) -> Result<MemSource, AllocError> {
    let bytes = numbered(alloc, 3)?;
    let failing = Vec::from_slice(alloc, &[1, 2])?;
    Ok(MemSource::new(bytes, failing))
}

fn source_counts_on(alloc: Global) -> bool {
    let Ok(mut source) = failing_source(alloc) else {
        return false;
    };
    faults_in(alloc, &mut source, 0, 1)
        && faults_in(alloc, &mut source, 1, 2)
        && reads(alloc, &mut source, 3, Ok(3))
        && source.faults() == 2
}

// The counts go on from call to call.
#[test]
fn faults_of_a_source_are_counted_on(rt: HostRuntime) {
    assert!(rt; source_counts_on(rt.alloc()));
}

fn stops_in(sink: &mut MemSink, written: usize, before: u64, now: u64) -> bool {
    let end = WriteEnd {
        written,
        before,
        now,
    };
    write_all(sink, b"abcd") == Err(end)
}

// An empty sink with room for four bytes, that takes one per write and fails at the second and third.
fn failing_sink(alloc: Global) -> Result<MemSink, NoMemory> {
    let failing = Vec::from_slice(alloc, &[2, 3])?;
    MemSink::new(alloc, 4, 1, failing)
}

fn sink_counts_on(alloc: Global) -> bool {
    let Ok(mut sink) = failing_sink(alloc) else {
        return false;
    };
    let is_counted = stops_in(&mut sink, 1, 0, 1)
        && stops_in(&mut sink, 0, 1, 2)
        && stops_in(&mut sink, 3, 2, 3)
        && stops_in(&mut sink, 0, 3, 4)
        && write_all(&mut sink, b"") == Ok(());
    let held = sink.into_vec();
    is_counted && held.as_slice() == b"aabc".as_slice()
}

#[test]
fn faults_of_a_sink_are_counted_on(rt: HostRuntime) {
    assert!(rt; sink_counts_on(rt.alloc()));
}

fn plain_never_fails(alloc: Global) -> bool {
    let Ok(bytes) = numbered(alloc, 3000) else {
        return false;
    };
    let mut source = PlainSource::new(bytes);
    reads(alloc, &mut source, 3000, Ok(3000))
        && reads(alloc, &mut source, 0, Ok(0))
        && source.faults() == 0
}

fn null_never_fails() -> bool {
    let mut sink = NullSink;
    write_all(&mut sink, b"abc") == Ok(()) && sink.faults() == 0
}

#[test]
fn plain_and_null_never_fail(rt: HostRuntime) {
    assert!(rt; plain_never_fails(rt.alloc()) && null_never_fails());
}

fn slice_is_too_long(alloc: Global) -> bool {
    let mut slice = StdSource::new(b"sprite".as_slice());
    match read_all(alloc, &mut slice, 5) {
        Ok(_) => false,
        Err(end) => end == ReadEnd::TooLong,
    }
}

fn slice_is_read(alloc: Global) -> bool {
    let mut slice = StdSource::new(b"sprite".as_slice());
    let Ok(all) = read_all(alloc, &mut slice, 6) else {
        return false;
    };
    all.as_slice() == b"sprite".as_slice() && slice.faults() == 0 && slice.into_inner().is_empty()
}

#[test]
fn std_readers_are_sources(rt: HostRuntime) {
    assert!(rt; slice_is_too_long(rt.alloc()) && slice_is_read(rt.alloc()));
}

fn reads_on(source: &mut StdSource<Faulty>, answer: Result<usize, Failed>, faults: u64) -> bool {
    let mut buf = [0; 8];
    source.read(&mut buf) == answer && source.faults() == faults
}

fn reader_is_counted() -> bool {
    let mut faulty = StdSource::new(Faulty { calls: 0 });
    let is_counted = reads_on(&mut faulty, Ok(1), 0)
        && reads_on(&mut faulty, Err(Failed), 1)
        && reads_on(&mut faulty, Err(Failed), 2)
        && reads_on(&mut faulty, Ok(0), 2)
        && reads_on(&mut faulty, Ok(1), 2);
    is_counted && faulty.into_inner().calls == 5
}

#[test]
fn std_readers_faults_are_counted(rt: HostRuntime) {
    assert!(rt; reader_is_counted());
}

fn vector_is_written(alloc: Global) -> bool {
    let mut vector = StdSink::new(Vec::new(alloc));
    let is_whole = write_all(&mut vector, b"spr") == Ok(())
        && write_all(&mut vector, b"ite") == Ok(())
        && vector.faults() == 0;
    let held = vector.into_inner();
    is_whole && held.as_slice() == b"sprite".as_slice()
}

fn faulty_is_stopped() -> bool {
    let mut faulty = StdSink::new(Faulty { calls: 0 });
    write_all(&mut faulty, b"abcd") == Err(stopped(1))
}

#[test]
fn std_writers_are_sinks(rt: HostRuntime) {
    assert!(rt; vector_is_written(rt.alloc()) && faulty_is_stopped());
}

fn writes_on(
    sink: &mut StdSink<Faulty>,
    piece: &[u8],
    answer: Result<usize, Failed>,
    faults: u64,
) -> bool {
    sink.write(piece) == answer && sink.faults() == faults
}

fn writer_is_counted() -> bool {
    let mut faulty = StdSink::new(Faulty { calls: 0 });
    writes_on(&mut faulty, b"ab", Ok(1), 0)
        && writes_on(&mut faulty, b"b", Err(Failed), 1)
        && writes_on(&mut faulty, b"b", Err(Failed), 2)
        && writes_on(&mut faulty, b"b", Err(Failed), 3)
        && writes_on(&mut faulty, b"", Ok(0), 3)
        && writes_on(&mut faulty, b"b", Ok(1), 3)
}

#[test]
fn std_writers_faults_are_counted(rt: HostRuntime) {
    assert!(rt; writer_is_counted());
}

// Whether the bytes are read as that message.
fn is_message(alloc: Global, bytes: &[u8], message: &Bytes) -> bool {
    match Bytes::read(alloc, bytes) {
        Ok(Some(read)) => read == *message,
        _ => false,
    }
}

fn is_read_again(alloc: Global, message: &Bytes) -> bool {
    match message.spell(alloc) {
        Ok(bytes) => is_message(alloc, bytes.as_slice(), message),
        Err(_) => false,
    }
}

fn ask_is_read_again(alloc: Global) -> bool {
    match Bytes::of_slice(alloc, b"ask") {
        Ok(message) => is_read_again(alloc, &message),
        Err(_) => false,
    }
}

#[test]
fn a_message_is_read_again(rt: HostRuntime) {
    assert!(rt; ask_is_read_again(rt.alloc()));
}
