ghost use Rattle.std.specs.Prelude.{◌≡◌, ◌<◌, ◌≤◌, ◌+◌, ◌-◌, IfOk, length, take, drop};
ghost use Rattle.picture_print.specs.WellFormed.{IsDocument};
ghost use Rattle.picture_drawing.specs.Records.{AreDrawn, IsDrawn, IsPicture};

use crate::arrows::put_arrows;
use crate::layout::Layout;
use crate::legend::{ITEMS, put_legend};
use crate::marks::group_of;
use crate::scene::{put_bars, put_end, put_headers, put_heading, put_lanes, put_rules};
use crate::style::style;
use crate::view::View;
use picture_plan::{Note, Plan, Span, plan_of};
use picture_print::{Drawing, Figure, Group, svg};
use sprite_ids::{Bytes, FileId, NoMemory};
use std::alloc::Global;
use unix_calls::Rec;

/// What a picture is drawn of (this project).
#[derive(Drop)]
pub struct Wanted<'a> {
    /// The number of the first record that is shown, counted from 1.
    pub first: usize,
    /// How many are shown, at most 20,000.
    pub count: u16,
    /// A file whose caching is shown.
    pub file: Option<FileId>,
    /// The kernels' names, by their numbers, as far as they are known.
    pub names: &'a [Bytes],
    /// The word that tells why the run stopped; empty where it ended.
    pub stop: &'a [u8],
}

/// The picture of a trace as an SVG: all its records are read, and those that are wanted are drawn, each once, in their order (this
/// project). It is well-formed. The one error is want of memory.
pub fn picture(alloc: Global, records: &[Rec], wanted: &Wanted) -> Result<Vec<u8>, NoMemory>
    requires { (1 ≤ wanted.now.first) × (wanted.now.first + wanted.now.count ≤ length records.now + 1) }
    ensures drawn { IfOk result (λ text. IsPicture wanted.now.first (take wanted.now.count (drop (wanted.now.first - 1) records.now)) text.items) }
    ensures document { IfOk result (λ text. IsDocument text.items) }
{
    let span = Span {
        first: wanted.first - 1,
        count: wanted.count,
    };
    let plan = plan_of(alloc, records, span, wanted.file)?;
    let shown = &records[span.first..];
    let shown = &shown[..usize::from(wanted.count)];
    let drawing = drawing_of(alloc, &plan, span, wanted, records.len() as u64, shown)?;
    svg(alloc, &drawing)
}

// The drawing of the records that are shown.
fn drawing_of(
    alloc: Global,
    plan: &Plan,
    span: Span,
    wanted: &Wanted,
    total: u64,
    shown: &[Rec],
) -> Result<Drawing, NoMemory>
    requires { (length shown.now < 65536) × (wanted.now.first + length shown.now ≤ 18446744073709551616) }
    ensures { IfOk result (λ d. IsDrawn wanted.now.first shown.now d.groups.items) }
{
    let items = ITEMS + plan.pids.len().min(32767) as u16;
    let view = View {
        layout: Layout::new(plan.kernels.as_slice(), items),
        span,
        pids: plan.pids.as_slice(),
    };
    let mut figures = Vec::new(alloc);
    put_scene(alloc, &mut figures, &view, plan, wanted, total)?;
    Ok(Drawing {
        width: view.layout.width(),
        height: view.layout.bottom(span.count) + 30,
        style: style(alloc)?,
        figures,
        groups: groups_of(alloc, &view, plan.notes.as_slice(), wanted, shown)?,
    })
}

// Puts what stands around and behind the records.
fn put_scene(
    alloc: Global,
    out: &mut Vec<Figure>,
    view: &View,
    plan: &Plan,
    wanted: &Wanted,
    total: u64,
) -> Result<(), NoMemory> {
    put_heading(alloc, out, view, total, wanted.file)?;
    put_legend(alloc, out, view)?;
    put_lanes(alloc, out, view, plan.kernels.as_slice())?;
    put_rules(alloc, out, view)?;
    put_bars(alloc, out, view, plan.cachings.as_slice())?;
    put_arrows(alloc, out, view, plan.moves.as_slice())?;
    put_bars(alloc, out, view, plan.stays.as_slice())?;
    put_arrows(alloc, out, view, plan.packets.as_slice())?;
    put_headers(alloc, out, view, plan.kernels.as_slice(), wanted.names)?;
    put_end(alloc, out, view, total, wanted.stop)
}

// The groups of the records that are shown.
fn groups_of(
    alloc: Global,
    view: &View,
    notes: &[Note],
    wanted: &Wanted,
    shown: &[Rec],
) -> Result<Vec<Group>, NoMemory>
    requires { (length shown.now < 65536) × (wanted.now.first + length shown.now ≤ 18446744073709551616) }
    ensures { IfOk result (λ groups. AreDrawn view.now.layout.legend wanted.now.first shown.now groups.items) }
{
    let first = wanted.first as u64;
    let mut groups = Vec::new(alloc);
    for (row, rec) in shown.iter().enumerate() {
        let number = first + row as u64;
        groups.push(group_of(alloc, view, notes, wanted.file, rec, number, row as u16)?)?;
    }
    Ok(groups)
}
