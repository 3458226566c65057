use crate::seen::{Deed, Seen};
use crate::shapes::{Bar, BarKind};
use crate::span::Span;
use sprite_ids::{CacheMode, FileId, Kernel, NoMemory};
use std::alloc::Global;

/// How each kernel uses the followed file, by the records so far: from a change of its use to the next one (this project).
#[derive(Drop)]
pub(crate) struct Cachings {
    pub(crate) bars: Vec<Bar>,
    /// What goes on, by the kernel's number.
    open: [Option<Bar>; 17],
    file: Option<FileId>,
    span: Span,
}

impl Cachings {
    pub(crate) fn new(alloc: Global, file: Option<FileId>, span: Span) -> Cachings {
        Cachings {
            bars: Vec::new(alloc),
            open: [None; 17],
            file,
            span,
        }
    }

    /// Takes the record of that place. The one error is want of memory.
    pub(crate) fn take(&mut self, place: usize, seen: &Seen) -> Result<(), NoMemory> {
        let Deed::Caches { mode } = seen.deed else {
            return Ok(());
        };
        if !is_followed(self.file, seen.file) {
            return Ok(());
        }
        self.end(place, seen.kernel)?;
        let kind = match mode {
            CacheMode::On => BarKind::CachingOn,
            CacheMode::Off => BarKind::CachingOff,
            CacheMode::None => return Ok(()),
        };
        self.open[usize::from(seen.kernel.number())] = Some(Bar {
            kind,
            pid: None,
            kernel: seen.kernel,
            across: 4,
            first: place,
            last: place,
        });
        Ok(())
    }

    /// Ends what goes on at the trace's end. The one error is want of memory.
    pub(crate) fn close(&mut self, place: usize) -> Result<(), NoMemory> {
        for number in 1..17u8 {
            if let Some(kernel) = Kernel::new(number) {
                self.end(place, kernel)?;
            }
        }
        Ok(())
    }

    fn end(&mut self, place: usize, kernel: Kernel) -> Result<(), NoMemory> {
        let Some(mut bar) = self.open[usize::from(kernel.number())] else {
            return Ok(());
        };
        self.open[usize::from(kernel.number())] = None;
        bar.last = place;
        if self.span.touches(bar.first, place) {
            self.bars.extend_from_slice(&[bar])?;
        }
        Ok(())
    }
}

/// Whether a file is the followed one.
pub fn is_followed(followed: Option<FileId>, file: Option<FileId>) -> bool {
    match (followed, file) {
        (Some(followed), Some(file)) => {
            followed.server.number() == file.server.number() && followed.number == file.number
        }
        _ => false,
    }
}
