use crate::layout::SPINE;
use crate::view::{NOBODY, View, put, put_line, put_text};
use history_text::Field;
use picture_plan::{Bar, BarKind};
use picture_print::{Figure, Outline, Role, Subject};
use sprite_ids::{Bytes, FileId, Kernel, NoMemory};
use std::alloc::Global;

/// Puts which records are shown, of how many, and which file is followed. The one error is want of memory.
pub(crate) fn put_heading(
    alloc: Global,
    out: &mut Vec<Figure>,
    view: &View,
    total: u64,
    file: Option<FileId>,
) -> Result<(), NoMemory> {
    let first = (view.span.first as u64).saturating_add(1);
    let last = (view.span.first as u64).saturating_add(u64::from(view.span.count));
    let mut told = format!(in alloc; "records {first} to {last} of {total}")?.into_bytes();
    if let Some(file) = file {
        told.extend_from_slice(b", following ")?;
        file.server.number().put(alloc, &mut told)?;
        told.push(b':')?;
        file.number.put(alloc, &mut told)?;
    }
    put_text(alloc, out, Role::Bold, 46, 20, told)
}

/// Puts, below the records, why the run stopped, or where the picture is cut. The one error is want of memory.
pub(crate) fn put_end(
    alloc: Global,
    out: &mut Vec<Figure>,
    view: &View,
    total: u64,
    stop: &[u8],
) -> Result<(), NoMemory> {
    let last = (view.span.first as u64).saturating_add(u64::from(view.span.count));
    let told = if last < total {
        format!(in alloc; "cut behind record {last}")?.into_bytes()
    } else if stop.is_empty() {
        Vec::from_slice(alloc, b"the run ended")?
    } else {
        let mut told = Vec::from_slice(alloc, b"the run stopped: ")?;
        told.extend_from_slice(stop)?;
        told
    };
    let y = view.layout.bottom(view.span.count) + 18;
    put_text(alloc, out, Role::Plain, 46, y, told)
}

/// Puts the kernels' lanes and the line of their one history. The one error is want of memory.
pub(crate) fn put_lanes(
    alloc: Global,
    out: &mut Vec<Figure>,
    view: &View,
    kernels: &[Kernel],
) -> Result<(), NoMemory> {
    for kernel in kernels {
        put_lane(alloc, out, view, *kernel)?;
    }
    let top = view.layout.row_top(0);
    let bottom = view.layout.bottom(view.span.count);
    put_upright(alloc, out, Role::Spine, NOBODY, SPINE, top, bottom)
}

fn put_lane(
    alloc: Global,
    out: &mut Vec<Figure>,
    view: &View,
    kernel: Kernel,
) -> Result<(), NoMemory> {
    let y = view.layout.row_top(0) - 20;
    out.push(Figure {
        role: Role::Lane,
        colour: NOBODY,
        subject: Subject::Kernel(u64::from(kernel.number())),
        outline: Outline::Box {
            x: view.layout.left(kernel),
            y,
            width: 274,
            height: view.layout.bottom(view.span.count).saturating_sub(y),
        },
        hint: Vec::new(alloc),
    })?;
    Ok(())
}

/// Puts a thin line below the row of each tenth record. The one error is want of memory.
pub(crate) fn put_rules(alloc: Global, out: &mut Vec<Figure>, view: &View) -> Result<(), NoMemory> {
    let width = view.layout.width();
    let before = view.span.first % 10;
    for row in 0..view.span.count {
        if (before + usize::from(row) + 1) % 10 == 0 {
            let y = view.layout.row_top(row) + 14;
            let steps = format!(in alloc; "M46 {y}H{width}")?;
            put_line(alloc, out, Role::Rule, NOBODY, steps)?;
        }
    }
    Ok(())
}

/// Puts what stands along lanes from record to record. The one error is want of memory.
pub(crate) fn put_bars(
    alloc: Global,
    out: &mut Vec<Figure>,
    view: &View,
    bars: &[Bar],
) -> Result<(), NoMemory> {
    for bar in bars {
        let x = view.layout.left(bar.kernel) + u64::from(bar.across);
        let from = view.layout.row_top(view.span.row_from(bar.first)) + 2;
        let to = view.layout.row_top(view.span.row_from(bar.last)) + 12;
        put_upright(
            alloc,
            out,
            role_of(bar.kind),
            view.colour(bar.pid),
            x,
            from,
            to,
        )?;
    }
    Ok(())
}

fn role_of(kind: BarKind) -> Role {
    match kind {
        BarKind::CachingOn => Role::CachingOn,
        BarKind::CachingOff => Role::CachingOff,
        BarKind::Stay => Role::Stay,
        BarKind::Call => Role::Call,
    }
}

fn put_upright(
    alloc: Global,
    out: &mut Vec<Figure>,
    role: Role,
    colour: u8,
    x: u64,
    from: u64,
    to: u64,
) -> Result<(), NoMemory> {
    let steps = format!(in alloc; "M{x} {from}V{to}")?;
    put_line(alloc, out, role, colour, steps)
}

/// Puts the lanes' names above every fortieth record. The one error is want of memory.
pub(crate) fn put_headers(
    alloc: Global,
    out: &mut Vec<Figure>,
    view: &View,
    kernels: &[Kernel],
    names: &[Bytes],
) -> Result<(), NoMemory> {
    for row in 0..view.span.count {
        if row % 40 == 0 {
            put_header(alloc, out, view, kernels, names, row)?;
        }
    }
    Ok(())
}

fn put_header(
    alloc: Global,
    out: &mut Vec<Figure>,
    view: &View,
    kernels: &[Kernel],
    names: &[Bytes],
    row: u16,
) -> Result<(), NoMemory> {
    let y = view.layout.row_top(row) - 20;
    let ground = Outline::Box {
        x: 0,
        y,
        width: view.layout.width(),
        height: 20,
    };
    put(alloc, out, Role::Header, NOBODY, ground)?;
    let words = Vec::from_slice(alloc, b"one kernel's history")?;
    put_text(alloc, out, Role::Bold, SPINE + 12, y + 14, words)?;
    for kernel in kernels {
        let name = name_of(alloc, *kernel, names)?;
        let x = view.layout.left(*kernel) + 10;
        put_text(alloc, out, Role::Bold, x, y + 14, name)?;
    }
    Ok(())
}

// A kernel's number, and its name where it is known.
fn name_of(alloc: Global, kernel: Kernel, names: &[Bytes]) -> Result<Vec<u8>, NoMemory> {
    let number = kernel.number();
    let mut name = format!(in alloc; "kernel {number}")?.into_bytes();
    if let Some(known) = names.get(usize::from(number) - 1) {
        name.push(b' ')?;
        name.extend_from_slice(known.as_slice())?;
    }
    Ok(name)
}
