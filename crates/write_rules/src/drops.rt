ghost use Rattle.std.specs.Prelude.{◌≡◌, IfOk, OnOk};
ghost use Rattle.call_journal.specs.Drops.{blocks_are_dropped_for_a_cause, drops_well};
ghost use Rattle.write_rules.specs.Drops.{DropsOn, TellsDrops, has_drop_cause, is_drop_cause};
ghost use Rattle.write_rules.specs.DropLaws.{drops_told, drops_told_on};
ghost use Rattle.write_rules.specs.Marks.{mark_of, marks_each, marks_from, marks_of};

use crate::held::{Held, counts_at, hold_on};
use crate::versions::{Versions, is_off, is_old_version, no_versions, version_on};
use sprite_ids::NoMemory;
use std::alloc::Global;
use trace_rules::{BlockAt, FileAt, LooksBackTold, each_keeps_told};
use unix_calls::{Description, DropCause, Event, Rec};

/// Whether a block leaves a kernel's cache in the trace only for its cause: with a full cache, with the file's mode off, or with an
/// old version: since the block came in, another kernel opened the file for writing, or it was opened with truncation, or the kernel
/// itself opened it for writing by a grant that it never takes (Nelson, Welch and Ousterhout 1988; the causes are this project's).
/// `marks` tells of each record what the one-kernel Unix tells of it. The one error is want of memory.
pub fn blocks_are_dropped_for_a_cause(
    alloc: Global,
    c: &Description,
    trace: &[Rec],
    marks: &[bool],
) -> Result<bool, NoMemory>
    requires { marks.now ≡ marks_of c.now trace.now }
    ensures { IfOk result (λ kept. kept ≡ blocks_are_dropped_for_a_cause c.now trace.now) }
{
    let versions = no_versions(alloc, trace)?;
    let held = Held::new(alloc);
    let mut judge = Drops { held, versions };
    each_keeps_told(alloc, c, &mut judge, trace, marks)
}

/// The blocks that the kernels hold, and their versions (this project).
#[derive(Drop)]
pub(crate) struct Drops {
    pub(crate) held: Held,
    pub(crate) versions: Versions,
}

impl LooksBackTold<bool> for Drops {
    ghost told_of = { mark_of };

    ghost told_from = { marks_from };

    ghost test = { λ c trace past rec. drops_well c past rec.kernel rec.event trace };

    ghost tells = { λ c trace judge past. TellsDrops trace judge past };

    ghost fits = { λ c judge rec mark. has_drop_cause c judge rec.kernel rec.event };

    ghost goes_on = { λ c rec mark old new. DropsOn rec mark old new };

    fn fits(
        &self,
        _alloc: Global,
        c: &Description,
        rec: &Rec,
        _mark: &bool,
    ) -> Result<bool, NoMemory> {
        match &rec.event {
            Event::Dropped { file, block, cause } => {
                let at = BlockAt {
                    kernel: rec.kernel,
                    file: *file,
                    block: *block,
                };
                Ok(is_cause(c, self, &at, *cause))
            }
            _ => Ok(true),
        }
    }

    fn go_on(
        &mut self,
        _alloc: Global,
        _c: &Description,
        rec: &Rec,
        mark: &bool,
    ) -> Result<(), NoMemory> {
        hold_on(&mut self.held, rec)?;
        version_on(&mut self.versions, rec, *mark)
    }

    ghost each = { marks_each };

    ghost is_told = { drops_told };

    ghost tells_on = { drops_told_on };
}

// Whether a block is dropped for that cause.
fn is_cause(c: &Description, judge: &Drops, at: &BlockAt, cause: DropCause) -> bool
    ensures { result ≡ is_drop_cause c.now judge.now at.now cause }
{
    match cause {
        DropCause::Full => counts_at(&judge.held.kernels, at.kernel).held == u64::from(c.cache),
        DropCause::Stop => is_off(
            &judge.versions.modes,
            &FileAt {
                kernel: at.kernel,
                file: at.file,
            },
        ),
        DropCause::Version => is_old_version(&judge.versions, at),
    }
}
