ghost use Rattle.std.specs.Prelude.{OnOk};
ghost use Rattle.picture_drawing.specs.Records.{Adds, Grows};

use crate::layout::Layout;
use picture_plan::Span;
use picture_print::{Figure, Mark, Outline, Role, Subject};
use sprite_ids::{NoMemory, Pid};
use std::alloc::Global;

/// Where a picture's records stand, and in which colours (this project).
#[derive(Drop)]
pub(crate) struct View<'a> {
    pub(crate) layout: Layout,
    pub(crate) span: Span,
    /// The processes that appear, ascending.
    pub(crate) pids: &'a [Pid],
}

/// The place among the colours of what is for no process's sake.
pub(crate) const NOBODY: u8 = 7;

impl<'a> View<'a> {
    /// A process's place among the seven colours, which the processes take in turn.
    pub(crate) fn colour(&self, pid: Option<Pid>) -> u8 {
        let Some(pid) = pid else {
            return NOBODY;
        };
        let place = self
            .pids
            .iter()
            .position(|other| other.number() == pid.number());
        match place {
            Some(place) => (place % 7) as u8,
            None => NOBODY,
        }
    }
}

/// Puts a figure that is of nothing and has no hint. The one error is want of memory.
pub(crate) fn put(
    alloc: Global,
    out: &mut Vec<Figure>,
    role: Role,
    colour: u8,
    outline: Outline,
) -> Result<(), NoMemory>
    ensures { OnOk result (Adds outline out.old.items out.new.items) }
{
    out.push(Figure {
        role,
        colour,
        subject: Subject::Nothing,
        outline,
        hint: Vec::new(alloc),
    })?;
    Ok(())
}

/// Puts a mark about a place. The one error is want of memory.
pub(crate) fn put_mark(
    alloc: Global,
    out: &mut Vec<Figure>,
    role: Role,
    colour: u8,
    mark: Mark,
    x: u64,
    y: u64,
) -> Result<(), NoMemory>
    ensures { OnOk result (Adds (Outline.Mark mark x y) out.old.items out.new.items) }
{
    put(alloc, out, role, colour, Outline::Mark { mark, x, y })
}

/// Puts a dot about a place. The one error is want of memory.
pub(crate) fn put_dot(
    alloc: Global,
    out: &mut Vec<Figure>,
    role: Role,
    colour: u8,
    x: u64,
    y: u64,
    radius: u64,
) -> Result<(), NoMemory>
    ensures { OnOk result (Adds (Outline.Dot x y radius) out.old.items out.new.items) }
{
    put(alloc, out, role, colour, Outline::Dot { x, y, radius })
}

/// Puts a text whose base line begins there. The one error is want of memory.
pub(crate) fn put_text(
    alloc: Global,
    out: &mut Vec<Figure>,
    role: Role,
    x: u64,
    y: u64,
    words: Vec<u8>,
) -> Result<(), NoMemory>
    ensures { OnOk result (Adds (Outline.Text x y words) out.old.items out.new.items) }
{
    put(alloc, out, role, NOBODY, Outline::Text { x, y, words })
}

/// Puts a line, by its steps. The one error is want of memory.
#[tactic(auto, using(crate::proofs::RowLaws::adds_grow))]
pub(crate) fn put_line(
    alloc: Global,
    out: &mut Vec<Figure>,
    role: Role,
    colour: u8,
    steps: String,
) -> Result<(), NoMemory>
    ensures { OnOk result (Grows out.old.items out.new.items) }
{
    let steps = steps.into_bytes();
    put(alloc, out, role, colour, Outline::Line { steps })
}
