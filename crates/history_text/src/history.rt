ghost use Rattle.std.specs.Prelude.{◌≡◌, IfOk, IfErr};
ghost use Rattle.std.specs.List.{AllByRecursion};
ghost use Rattle.history_text.specs.Histories.{HasLine, history_of, IsHistory, TellsBad, TellsUnprinted};
ghost use Rattle.history_text.specs.Listings.{is_end};

use crate::entry::{put_line, read_line};
use crate::history_error::HistoryError;
use field_reader::{FieldEnd, Reader};
use std::alloc::Global;
use unix_calls::Entry;

/// The printed history: each entry's line, one behind another (this project).
///
/// A line is the process, the call's number and `whole`, `ask` or `done`, the call's name and its values, ` -> ` and the
/// reply: `ok`, two values and the bytes, or `err` and the error's number; behind an ask stands `-`. A death is the process,
/// the number and `death`. Numbers are decimal; texts and bytes stand in double quotes, where bytes 32 to 126 but the quote
/// and the backslash are as they are and the others a backslash and two hexadecimal digits in lower case.
///
/// An entry has a line exactly where its parts belong together: a whole or done call has a call and a reply, an ask a call
/// alone, a death neither. `Line` tells the first entry, counted from 1, that has none; nothing is printed then.
pub fn print_history(alloc: Global, entries: &[Entry]) -> Result<Vec<u8>, HistoryError>
    ensures text { IfOk result (λ text. text.items ≡ history_of entries.now) }
    ensures lines { IfOk result (λ _. AllByRecursion HasLine entries.now) }
    ensures err { IfErr result (TellsUnprinted entries.now) }
{
    let mut out = Vec::new(alloc);
    for (place, entry) in entries.iter().enumerate() {
        match put_line(alloc, &mut out, entry) {
            Ok(()) => {}
            Err(FieldEnd::NotSpelled) => return Err(HistoryError::Line(place + 1)),
            Err(FieldEnd::NoMemory) => return Err(HistoryError::NoMemory),
        }
    }
    Ok(out)
}

/// The entries of a printed history, behind which one last line `budget` or `stalled` may stand (this project).
///
/// A text is read exactly where it is the print of entries, apart from that last line: numbers have no zero before other
/// digits and are in their ranges, only what needs an escape has one, single spaces stand between the parts, and each line
/// ends with byte 10. `Line` tells the first line, counted from 1, that is no entry's. It takes time in proportion to the
/// text.
pub fn read_history(alloc: Global, text: &[u8]) -> Result<Vec<Entry>, HistoryError>
    ensures ok { IfOk result (λ entries. IsHistory text.now entries.items) }
    ensures err { IfErr result (TellsBad text.now) }
{
    let mut entries = Vec::new(alloc);
    let mut from = Reader::new(text);
    while !is_end(from.rest()) {
        match read_line(alloc, &mut from) {
            Ok(entry) => entries.push(entry)?,
            Err(FieldEnd::NotSpelled) => return Err(HistoryError::Line(entries.len() + 1)),
            Err(FieldEnd::NoMemory) => return Err(HistoryError::NoMemory),
        }
    }
    Ok(entries)
}

/// Whether a history ends there: no line is left, or the one that tells why the run stopped.
fn is_end(rest: &[u8]) -> bool
    ensures { result ≡ is_end rest.now }
{
    rest.is_empty() || rest == b"budget\n".as_slice() || rest == b"stalled\n".as_slice()
}
