ghost use Rattle.std.specs.Fmt.{decimal};
ghost use Rattle.std.specs.Prelude.{codes, ◌≡◌, ◌<◌, ◌≤◌, ◌+◌, ◌-◌, ◌++◌, length, take, IfOk, OnOk};
ghost use Rattle.picture_drawing.specs.Places.{lane_left, row_top};
ghost use Rattle.picture_drawing.specs.Records.{AddsRow, Grows, hint_of, shown_by, shown_line, shown_of};

use crate::label::{entry_label, label};
use crate::layout::SPINE;
use crate::view::{NOBODY, View, put_dot, put_line, put_mark, put_text};
use picture_plan::{Deed, Facing, Note, Seen, across_of, is_followed, seen_of};
use picture_print::{Figure, Group, Mark, Role};
use sprite_ids::{FileId, NoMemory};
use std::alloc::Global;
use trace_text::print_trace;
use unix_calls::{Entry, Event, Rec};

/// How many bytes of a record's line its hint tells.
const HINT: usize = 300;

/// A record's group, for its number and its row. The one error is want of memory.
pub(crate) fn group_of(
    alloc: Global,
    view: &View,
    notes: &[Note],
    file: Option<FileId>,
    rec: &Rec,
    number: u64,
    row: u16,
) -> Result<Group, NoMemory>
    ensures { IfOk result (λ g. shown_by g ≡ shown_of view.now.layout.legend row number rec.now) }
{
    let hint = hint_of(alloc, rec, number)?;
    let mut figures = Vec::new(alloc);
    put_record(
        alloc,
        &mut figures,
        view,
        note_of(notes, row),
        file,
        rec,
        number,
        row,
    )?;
    Ok(Group {
        number,
        hint,
        figures,
    })
}

// What a record's hint tells: its number and its line in the trace.
fn hint_of(alloc: Global, rec: &Rec, number: u64) -> Result<Vec<u8>, NoMemory>
    ensures { IfOk result (λ hint. hint.items ≡ hint_of number rec.now) }
{
    let mut hint = format!(in alloc; "{number}: ")?.into_bytes();
    let line = print_trace(alloc, std::slice::from_ref(rec))?;
    put_line_of(alloc, &mut hint, line.as_slice())?;
    Ok(hint)
}

// Puts a line of a trace, without its byte 10; of more than 300 bytes the first, and how many there are.
#[tactic(auto, using(crate::proofs::RowLaws::long_line))]
fn put_line_of(alloc: Global, out: &mut Vec<u8>, line: &[u8]) -> Result<(), NoMemory>
    ensures { OnOk result (out.new.items ≡ out.old.items ++ shown_line line.now) }
{
    let length = line.len().saturating_sub(1);
    if length <= HINT {
        return put_first(out, line, length);
    }
    put_first(out, line, HINT)?;
    let rest = rest_words(alloc, length)?;
    out.extend_from_slice(rest.as_slice())?;
    Ok(())
}

// Puts so many bytes of a line.
fn put_first(out: &mut Vec<u8>, line: &[u8], count: usize) -> Result<(), NoMemory>
    requires { count ≤ length line.now }
    ensures { OnOk result (out.new.items ≡ out.old.items ++ take count line.now) }
{
    out.extend_from_slice(&line[..count])?;
    Ok(())
}

// What stands in place of the rest of a line of so many bytes.
fn rest_words(alloc: Global, count: usize) -> Result<Vec<u8>, NoMemory>
    ensures { IfOk result (λ text. text.items ≡ codes " .. (" ++ (decimal count ++ codes " bytes)")) }
{
    Ok(format!(in alloc; " .. ({count} bytes)")?.into_bytes())
}

fn note_of(notes: &[Note], row: u16) -> Note {
    match notes.get(usize::from(row)) {
        Some(note) => *note,
        None => Note {
            slot: 0,
            entry: 0,
            facing: Facing {
                other: None,
                pid: None,
            },
        },
    }
}

// Puts a record's figures: its number, its marks and what it says.
#[tactic(auto, using(crate::proofs::RowLaws::row_added))]
fn put_record(
    alloc: Global,
    out: &mut Vec<Figure>,
    view: &View,
    note: Note,
    file: Option<FileId>,
    rec: &Rec,
    number: u64,
    row: u16,
) -> Result<(), NoMemory>
    ensures { OnOk result (AddsRow number (lane_left (rec.now.kernel - 1) + 86) (row_top view.now.layout.legend row + 11) out.old.items out.new.items) }
{
    let seen = seen_of(rec);
    let base = view.layout.base(row);
    let digits = format!(in alloc; "{number}")?.into_bytes();
    put_text(alloc, out, Role::Number, 2, base, digits)?;
    put_marks(alloc, out, view, &seen, note, rec, view.layout.middle(row))?;
    let words = label(alloc, &rec.event)?;
    let role = if is_followed(file, seen.file) {
        Role::Followed
    } else {
        Role::Label
    };
    put_text(alloc, out, role, view.layout.words(rec.kernel), base, words)?;
    Ok(())
}

// Puts a record's mark, and an entry beside the history's line.
#[tactic(auto, using(crate::proofs::RowLaws::grows_on))]
fn put_marks(
    alloc: Global,
    out: &mut Vec<Figure>,
    view: &View,
    seen: &Seen,
    note: Note,
    rec: &Rec,
    y: u64,
) -> Result<(), NoMemory>
    requires { y < 16777224 }
    ensures { OnOk result (Grows out.old.items out.new.items) }
{
    match &rec.event {
        Event::Enter { entry } => {
            let x = view.layout.left(rec.kernel) + 72;
            put_entry(alloc, out, view, entry, note.entry, x, y)?;
            put_mark_of(alloc, out, view, seen, note, y)
        }
        _ => put_mark_of(alloc, out, view, seen, note, y),
    }
}

// Puts an entry beside the history's line, and ties it to its mark.
#[tactic(auto, using(crate::proofs::RowLaws::grows_on, crate::proofs::RowLaws::adds_grow))]
fn put_entry(
    alloc: Global,
    out: &mut Vec<Figure>,
    view: &View,
    entry: &Entry,
    number: u64,
    x: u64,
    y: u64,
) -> Result<(), NoMemory>
    requires { y < 16777224 }
    ensures { OnOk result (Grows out.old.items out.new.items) }
{
    let colour = view.colour(Some(entry.pid));
    put_dot(alloc, out, Role::Filled, colour, SPINE, y, 4)?;
    let words = entry_label(alloc, number, entry)?;
    let behind = SPINE + 18 + 7 * words.len() as u64;
    put_text(alloc, out, Role::Entry, SPINE + 12, y + 4, words)?;
    let steps = format!(in alloc; "M{behind} {y}H{x}")?;
    put_line(alloc, out, Role::Tie, colour, steps)
}

// Puts a record's mark.
#[tactic(auto, using(crate::proofs::RowLaws::adds_grow))]
fn put_mark_of(
    alloc: Global,
    out: &mut Vec<Figure>,
    view: &View,
    seen: &Seen,
    note: Note,
    y: u64,
) -> Result<(), NoMemory>
    ensures { OnOk result (Grows out.old.items out.new.items) }
{
    let left = view.layout.left(seen.kernel);
    let Facing { other, pid: sender } = note.facing;
    let port = view
        .layout
        .port(seen.kernel, other.unwrap_or(seen.kernel), 0);
    let (role, pid, x) = match seen.deed {
        Deed::Runs | Deed::Issues | Deed::Thaws => (
            Role::Filled,
            seen.pid(),
            left + u64::from(across_of(note.slot)),
        ),
        Deed::Returns | Deed::Freezes => (
            Role::Hollow,
            seen.pid(),
            left + u64::from(across_of(note.slot)),
        ),
        Deed::Enters { .. } => (Role::Filled, seen.pid(), left + 70),
        Deed::Sends { .. } | Deed::Comes { .. } => (Role::Filled, sender, port),
        Deed::Expires { .. } | Deed::Faults { .. } => (Role::Alarm, sender, port),
        Deed::Caches { .. } | Deed::Works | Deed::Learns => (Role::Filled, None, left + 78),
    };
    let colour = view.colour(pid);
    let mark = match seen.deed {
        Deed::Runs => Mark::Burst,
        Deed::Issues => Mark::Issue,
        Deed::Returns => Mark::Return,
        Deed::Freezes | Deed::Thaws => Mark::Pause,
        Deed::Enters { .. } => Mark::Entry,
        Deed::Caches { .. } | Deed::Works | Deed::Learns | Deed::Faults { .. } => {
            return put_dot(alloc, out, role, colour, x, y, 2);
        }
        _ => return put_dot(alloc, out, role, colour, x, y, 3),
    };
    put_mark(alloc, out, role, colour, mark, x, y)
}
