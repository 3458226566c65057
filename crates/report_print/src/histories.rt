ghost use Rattle.std.specs.Prelude.{◌≡◌, ◌++◌, IfOk};
ghost use Rattle.std.specs.List.{AllByRecursion};
ghost use Rattle.unix_calls.specs.Output.{last_line};
ghost use Rattle.history_text.specs.Laws.{IsTogether};
ghost use Rattle.history_text.specs.Histories.{history_of};

use crate::printing::last_line;
use history_text::{HistoryError, print_history};
use sprite_ids::{Finish, NoMemory};
use std::alloc::Global;
use unix_calls::Entry;

/// What is printed of a journal: a line for each entry, and why the run stopped where a process lives (this project). The parts of each
/// entry belong together, as those of every legal journal do. The one error is want of memory.
pub fn history(alloc: Global, journal: &[Entry], finish: Finish) -> Result<Vec<u8>, NoMemory>
    requires { AllByRecursion IsTogether journal.now }
    ensures { IfOk result (λ out. out.items ≡ history_of journal.now ++ last_line finish) }
{
    let mut out = lines(alloc, journal)?;
    out.extend_from_slice(last_line(finish))?;
    Ok(out)
}

// The lines of entries whose parts belong together, so that each has one.
fn lines(alloc: Global, entries: &[Entry]) -> Result<Vec<u8>, NoMemory>
    requires { AllByRecursion IsTogether entries.now }
    ensures { IfOk result (λ out. out.items ≡ history_of entries.now) }
{
    match print_history(alloc, entries) {
        Ok(text) => Ok(text),
        Err(HistoryError::Line(number)) => {
            let never = number == 0;
            prove!(never);
            Err(NoMemory)
        }
        Err(HistoryError::NoMemory) => Err(NoMemory),
    }
}
