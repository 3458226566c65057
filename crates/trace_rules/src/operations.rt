ghost use Rattle.std.specs.Prelude.{◌≡◌, IfOk, OnOk};
ghost use Rattle.call_journal.specs.Operations.{goes_out_well, operations_go_out_uncached};
ghost use Rattle.trace_tables.specs.Ties.{ties_from, ties_of};
ghost use Rattle.trace_rules.specs.Judging.{tie_of, ties_each};
ghost use Rattle.trace_rules.specs.Modes.{GoesOut, TellsUses, is_off_in, is_shared_tied, may_go_out};
ghost use Rattle.trace_rules.specs.ModeLaws.{operations_told, uses_told_on};

use crate::judging_told::{LooksBackTold, each_keeps_told};
use crate::place::FileAt;
use indexmap::{IndexMap, IndexSet};
use sprite_ids::{CacheMode, NoMemory, StreamNo};
use std::alloc::Global;
use trace_tables::Tied;
use unix_calls::{Description, Event, Rec, SendKind};

/// Whether an operation on a file goes out to its server only from a kernel whose last mode of the file is off, or by a stream that
/// is shared (Nelson, Welch and Ousterhout 1988). `ties` tells of each record the file and the stream of its call. The one error is
/// want of memory.
pub fn operations_go_out_uncached(
    alloc: Global,
    c: &Description,
    trace: &[Rec],
    ties: &[Option<Tied>],
) -> Result<bool, NoMemory>
    requires { ties.now ≡ ties_of c.now trace.now }
    ensures { IfOk result (λ kept. kept ≡ operations_go_out_uncached c.now trace.now) }
{
    let mut judge = Operations {
        modes: IndexMap::new(alloc),
        shared: IndexSet::new(alloc),
    };
    each_keeps_told(alloc, c, &mut judge, trace, ties)
}

/// The modes that the kernels took last, and the streams that are shared so far (this project).
#[derive(Drop)]
pub(crate) struct Operations {
    pub(crate) modes: IndexMap<FileAt, CacheMode>,
    pub(crate) shared: IndexSet<StreamNo>,
}

impl LooksBackTold<Option<Tied>> for Operations {
    ghost told_of = { λ c past rec. tie_of past rec };

    ghost told_from = { ties_from };

    ghost test = { λ c trace past rec. goes_out_well past rec.kernel rec.event };

    ghost tells = { λ c trace judge past. TellsUses judge.modes.entries judge.shared.keys past };

    ghost fits = { λ c judge rec tied. may_go_out judge.modes.entries judge.shared.keys rec.kernel rec.event tied };

    ghost goes_on = { λ c rec tied old new. GoesOut rec old.modes.entries old.shared.keys new.modes.entries new.shared.keys };

    fn fits(
        &self,
        _alloc: Global,
        _c: &Description,
        rec: &Rec,
        tied: &Option<Tied>,
    ) -> Result<bool, NoMemory> {
        match &rec.event {
            Event::Send {
                kind: SendKind::Op { file },
                ..
            } => {
                let at = FileAt {
                    kernel: rec.kernel,
                    file: *file,
                };
                Ok(is_off(&self.modes, at) || is_shared(&self.shared, tied))
            }
            _ => Ok(true),
        }
    }

    fn go_on(
        &mut self,
        _alloc: Global,
        _c: &Description,
        rec: &Rec,
        _tied: &Option<Tied>,
    ) -> Result<(), NoMemory> {
        match &rec.event {
            Event::Mode { file, mode, .. } => {
                let at = FileAt {
                    kernel: rec.kernel,
                    file: *file,
                };
                self.modes.insert(at, *mode)?;
            }
            Event::Shared { stream, .. } => {
                self.shared.insert(*stream)?;
            }
            _ => {}
        }
        Ok(())
    }

    ghost each = { ties_each };

    ghost is_told = { λ c trace judge past rec. operations_told c judge past rec };

    ghost tells_on = { λ c trace old new past rec. uses_told_on c old new past rec };
}

// Whether the kernel's last mode of the file is off.
fn is_off(modes: &IndexMap<FileAt, CacheMode>, at: FileAt) -> bool
    ensures { result ≡ is_off_in modes.now.entries at }
{
    match modes.get(&at) {
        Some(CacheMode::Off) => true,
        _ => false,
    }
}

// Whether the stream, if there is one, is shared.
fn is_shared(shared: &IndexSet<StreamNo>, tied: &Option<Tied>) -> bool
    ensures { result ≡ is_shared_tied shared.now.keys tied.now }
{
    match tied {
        Some(tied) => shared.contains(&tied.stream),
        None => false,
    }
}
