ghost use Rattle.std.specs.Prelude.{◌≡◌, IfOk, OnOk};
ghost use Rattle.call_journal.specs.WriteBacks.{blocks_are_written_back_for_a_cause, writes_back_well};
ghost use Rattle.write_rules.specs.Marks.{mark_of, marks_each, marks_from, marks_of};
ghost use Rattle.write_rules.specs.WriteBacks.{TellsWrites, WritesOn, has_cause};
ghost use Rattle.write_rules.specs.WriteBackLaws.{write_backs_told, writes_told_on};

use crate::ages::Ages;
use crate::held::{Held, counts_at, hold_on, is_pressed};
use indexmap::IndexMap;
use sprite_ids::NoMemory;
use std::alloc::Global;
use trace_rules::{BlockAt, LooksBackTold, each_keeps_told};
use unix_calls::{Description, Event, Rec, SendKind};

/// Whether a kernel of the trace writes a block back only for a cause: its cache is full and at most four of its blocks are clean,
/// a `sync` of the file is due there, or it made the block dirty thirty of its steps ago or longer (Nelson, Welch and Ousterhout
/// 1988; the numbers are this project's). `marks` tells of each record what the one-kernel Unix tells of it. The one error is want
/// of memory.
pub fn blocks_are_written_back_for_a_cause(
    alloc: Global,
    c: &Description,
    trace: &[Rec],
    marks: &[bool],
) -> Result<bool, NoMemory>
    requires { marks.now ≡ marks_of c.now trace.now }
    ensures { IfOk result (λ kept. kept ≡ blocks_are_written_back_for_a_cause c.now trace.now) }
{
    let mut judge = WriteBacks {
        held: Held::new(alloc),
        ages: Ages {
            steps: IndexMap::new(alloc),
            dirtied: IndexMap::new(alloc),
        },
    };
    each_keeps_told(alloc, c, &mut judge, trace, marks)
}

/// The blocks that the kernels hold, and how old the dirty ones are (this project).
#[derive(Drop)]
pub(crate) struct WriteBacks {
    pub(crate) held: Held,
    pub(crate) ages: Ages,
}

impl LooksBackTold<bool> for WriteBacks {
    ghost told_of = { mark_of };

    ghost told_from = { marks_from };

    ghost test = { λ c trace past rec. writes_back_well c past rec.kernel rec.event };

    ghost tells = { λ c trace judge past. TellsWrites judge past.records };

    ghost fits = { λ c judge rec mark. has_cause c judge rec.kernel rec.event mark };

    ghost goes_on = { λ c rec mark old new. WritesOn rec old new };

    fn fits(
        &self,
        _alloc: Global,
        c: &Description,
        rec: &Rec,
        mark: &bool,
    ) -> Result<bool, NoMemory> {
        match &rec.event {
            Event::Send {
                kind: SendKind::WriteBack { file, block },
                ..
            } => {
                let at = BlockAt {
                    kernel: rec.kernel,
                    file: *file,
                    block: *block,
                };
                Ok(
                    is_pressed(c, counts_at(&self.held.kernels, rec.kernel))
                        || *mark
                        || self.ages.is_old(at),
                )
            }
            _ => Ok(true),
        }
    }

    fn go_on(
        &mut self,
        _alloc: Global,
        _c: &Description,
        rec: &Rec,
        _mark: &bool,
    ) -> Result<(), NoMemory> {
        hold_on(&mut self.held, rec)?;
        self.ages.go_on(rec)
    }

    ghost each = { marks_each };

    ghost is_told = { write_backs_told };

    ghost tells_on = { writes_told_on };
}
