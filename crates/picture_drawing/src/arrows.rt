use crate::layout::Layout;
use crate::view::{View, put_dot, put_mark};
use picture_plan::{Arrow, Kind};
use picture_print::{Figure, Mark, Outline, Role, Subject};
use sprite_ids::{Kernel, NoMemory};
use std::alloc::Global;

/// Puts what goes from lane to lane: a move of a process is a band from its freeze to its thaw; a request's head is filled, a reply's white,
/// a lost packet breaks off at a cross, and what is late or comes once more is dashed. The one error is want of memory.
pub(crate) fn put_arrows(
    alloc: Global,
    out: &mut Vec<Figure>,
    view: &View,
    arrows: &[Arrow],
) -> Result<(), NoMemory> {
    for arrow in arrows {
        put_arrow(alloc, out, view, arrow)?;
    }
    Ok(())
}

fn put_arrow(
    alloc: Global,
    out: &mut Vec<Figure>,
    view: &View,
    arrow: &Arrow,
) -> Result<(), NoMemory> {
    let from = view.span.row(arrow.first);
    let to = view.span.row(arrow.last);
    let role = match arrow.kind {
        Kind::Move => Role::Move,
        Kind::Lost => Role::Lost,
        Kind::Request | Kind::Reply => Role::Arrow,
    };
    let colour = view.colour(arrow.pid);
    let Some(steps) = steps_of(alloc, &view.layout, arrow, from, to)? else {
        return Ok(());
    };
    let mut steps = steps.into_bytes();
    if let Kind::Move = arrow.kind {
        put_slots(alloc, &mut steps, &view.layout, arrow, from, to)?;
    }
    put_path(alloc, out, arrow, role, colour, steps)?;
    put_ends(alloc, out, view, arrow, colour)
}

fn put_path(
    alloc: Global,
    out: &mut Vec<Figure>,
    arrow: &Arrow,
    role: Role,
    colour: u8,
    steps: Vec<u8>,
) -> Result<(), NoMemory> {
    out.push(Figure {
        role,
        colour,
        subject: Subject::Between {
            first: (arrow.first as u64).saturating_add(1),
            last: (arrow.last as u64).saturating_add(1),
            repeated: arrow.repeated,
        },
        outline: Outline::Line { steps },
        hint: Vec::new(alloc),
    })?;
    Ok(())
}

// Puts a packet's ends: a dot where it leaves, which isn't a mark of its record there, and its head, or a cross where it is lost.
fn put_ends(
    alloc: Global,
    out: &mut Vec<Figure>,
    view: &View,
    arrow: &Arrow,
    colour: u8,
) -> Result<(), NoMemory> {
    let layout = &view.layout;
    let (role, mark, x) = match arrow.kind {
        Kind::Move => return Ok(()),
        Kind::Lost => (
            Role::Alarm,
            Mark::Cross,
            layout.port(arrow.source, arrow.target, 20),
        ),
        Kind::Request => (
            Role::Filled,
            head_of(arrow),
            layout.port(arrow.target, arrow.source, 0),
        ),
        Kind::Reply => (
            Role::Hollow,
            head_of(arrow),
            layout.port(arrow.target, arrow.source, 0),
        ),
    };
    if let Some(row) = view.span.row(arrow.first) {
        let x = layout.port(arrow.source, arrow.target, 0);
        put_dot(alloc, out, Role::Filled, colour, x, layout.middle(row), 2)?;
    }
    match view.span.row(arrow.last) {
        Some(row) => put_mark(alloc, out, role, colour, mark, x, layout.middle(row)),
        None => Ok(()),
    }
}

// The head of an arrow.
fn head_of(arrow: &Arrow) -> Mark {
    if arrow.source.number() < arrow.target.number() {
        Mark::HeadRight
    } else {
        Mark::HeadLeft
    }
}

// The way from a kernel's row to another kernel's: down the gap beside the first lane, and level along the last row, in which no other lane
// has words. Where only one row is shown, the end there; None where none is.
fn steps_of(
    alloc: Global,
    layout: &Layout,
    arrow: &Arrow,
    from: Option<u16>,
    to: Option<u16>,
) -> Result<Option<String>, NoMemory> {
    match (arrow.kind, from, to) {
        (Kind::Lost, _, Some(to)) => lost_steps(alloc, layout, arrow, from.unwrap_or(to), to),
        (_, Some(from), Some(to)) => whole_steps(alloc, layout, arrow, from, to),
        (Kind::Request | Kind::Reply | Kind::Move, None, Some(to)) => {
            let inside = level(alloc, layout, arrow.target, arrow.source, to, [24, 0])?;
            Ok(Some(inside))
        }
        (Kind::Request | Kind::Reply | Kind::Move, Some(from), None) => {
            let outside = level(alloc, layout, arrow.source, arrow.target, from, [0, 16])?;
            Ok(Some(outside))
        }
        _ => Ok(None),
    }
}

fn whole_steps(
    alloc: Global,
    layout: &Layout,
    arrow: &Arrow,
    from: u16,
    to: u16,
) -> Result<Option<String>, NoMemory> {
    let start = layout.middle(from);
    let end = layout.middle(to);
    let a = layout.port(arrow.source, arrow.target, 0);
    let gap = layout.port(arrow.source, arrow.target, 24);
    let b = layout.port(arrow.target, arrow.source, 0);
    Ok(Some(format!(in alloc; "M{a} {start}L{gap} {end}H{b}")?))
}

fn lost_steps(
    alloc: Global,
    layout: &Layout,
    arrow: &Arrow,
    from: u16,
    to: u16,
) -> Result<Option<String>, NoMemory> {
    let start = layout.middle(from);
    let end = layout.middle(to);
    let a = layout.port(arrow.source, arrow.target, 0);
    let b = layout.port(arrow.source, arrow.target, 20);
    Ok(Some(format!(in alloc; "M{a} {start}L{b} {end}")?))
}

// Puts the way of a process within the lanes: from its slot to the edge, and from the edge to its slot.
fn put_slots(
    alloc: Global,
    out: &mut Vec<u8>,
    layout: &Layout,
    arrow: &Arrow,
    from: Option<u16>,
    to: Option<u16>,
) -> Result<(), NoMemory> {
    if let Some(row) = from {
        let start = layout.left(arrow.source) + u64::from(arrow.start);
        put_level(
            alloc,
            out,
            start,
            layout.port(arrow.source, arrow.target, 0),
            layout.middle(row),
        )?;
    }
    if let Some(row) = to {
        let end = layout.left(arrow.target) + u64::from(arrow.end);
        put_level(
            alloc,
            out,
            end,
            layout.port(arrow.target, arrow.source, 0),
            layout.middle(row),
        )?;
    }
    Ok(())
}

fn put_level(alloc: Global, out: &mut Vec<u8>, a: u64, b: u64, y: u64) -> Result<(), NoMemory> {
    let steps = format!(in alloc; "M{a} {y}H{b}")?;
    out.extend_from_slice(steps.as_bytes())?;
    Ok(())
}

// A level line outside a lane, from so far to so far from its edge.
fn level(
    alloc: Global,
    layout: &Layout,
    kernel: Kernel,
    other: Kernel,
    row: u16,
    ends: [u8; 2],
) -> Result<String, NoMemory> {
    let y = layout.middle(row);
    let a = layout.port(kernel, other, ends[0]);
    let b = layout.port(kernel, other, ends[1]);
    Ok(format!(in alloc; "M{a} {y}H{b}")?)
}
