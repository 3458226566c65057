ghost use Rattle.std.specs.Prelude.{◌≡◌, ◌++◌, IfOk, IfErr, OnOk};
ghost use Rattle.field_reader.specs.Reads.{Takes};
ghost use Rattle.history_text.specs.Listings.{is_end};
ghost use Rattle.trace_text.specs.Traces.{IsTrace, TellsBad, line_of, record_line, trace_of};

use crate::event::{put_event, read_event};
use crate::field::TraceField;
use crate::trace_error::TraceError;
use call_journal::Trace;
use field_reader::{FieldEnd, Reader};
use sprite_ids::{Kernel, NoMemory};
use std::alloc::Global;
use unix_calls::Rec;

/// The printed trace: each record's line, one behind another (this project).
///
/// A line is the kernel's number, the event's name and its fields, each behind a space, and byte 10. Numbers are decimal. A
/// file or a stream is its kernel's number, a colon and its own number; the call for whose sake a packet goes is its
/// process, a slash and its number, or `-` where there is none; a bool is `0` or `1`. A prefix is its text in double
/// quotes, with the escapes of a printed history. Calls, replies and entries are printed as in a history.
///
/// Each record is printed, also the two kinds that no run makes and that `read_trace` refuses: a fault of fate `once`, and
/// an entry whose parts don't belong together, of which the process, the number and a space are printed. The one error is
/// want of memory.
pub fn print_trace(alloc: Global, records: &[Rec]) -> Result<Vec<u8>, NoMemory>
    ensures { IfOk result (λ text. text.items ≡ trace_of records.now) }
{
    let mut out = Vec::new(alloc);
    for record in records {
        put_record(alloc, &mut out, record)?;
    }
    Ok(out)
}

/// The trace whose records are printed so, behind which one last line `budget` or `stalled` may stand (this project).
///
/// A text is read exactly where it is the print of records that have a line, apart from that last line: numbers have no zero
/// before other digits and are in their ranges, a prefix is a path's cleaned text, only what needs an escape has one, single
/// spaces stand between the parts, and each line ends with byte 10. `Line` tells the first line, counted from 1, that is no
/// record's. It takes time in proportion to the text.
pub fn read_trace(alloc: Global, text: &[u8]) -> Result<Trace, TraceError>
    ensures ok { IfOk result (λ trace. IsTrace text.now trace) }
    ensures err { IfErr result (TellsBad text.now) }
{
    let mut trace = Trace::new(alloc);
    let mut from = Reader::new(text);
    while !is_end(from.rest()) {
        match read_line(alloc, &mut from) {
            Ok(rec) => trace.push(rec)?,
            Err(FieldEnd::NotSpelled) => return Err(TraceError::Line(trace.records().len() + 1)),
            Err(FieldEnd::NoMemory) => return Err(TraceError::NoMemory),
        }
    }
    Ok(trace)
}

// Puts a record's line at the end.
fn put_record(alloc: Global, out: &mut Vec<u8>, trace_record: &Rec) -> Result<(), NoMemory>
    ensures { OnOk result (out.new.items ≡ out.old.items ++ line_of trace_record.now) }
{
    trace_record.kernel.put_field(alloc, out)?;
    out.push(b' ')?;
    put_event(alloc, out, &trace_record.event)?;
    out.push(b'\n')?;
    Ok(())
}

// Reads the record whose line stands at the front.
fn read_line(alloc: Global, from: &mut Reader) -> Result<Rec, FieldEnd>
    ensures { Takes (record_line.read from.old) result from.new }
{
    let kernel = Kernel::read_field(alloc, from)?;
    from.sign(b" ")?;
    let event = read_event(alloc, from)?;
    from.sign(b"\n")?;
    Ok(Rec { kernel, event })
}

// Whether a trace ends there: no line is left, or the one that tells why the run stopped.
fn is_end(rest: &[u8]) -> bool
    ensures { result ≡ is_end rest.now }
{
    rest.is_empty() || rest == b"budget\n".as_slice() || rest == b"stalled\n".as_slice()
}
