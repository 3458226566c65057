ghost use Rattle.std.specs.Prelude.{◌≡◌, IfOk};
ghost use Rattle.trace_picture.specs.Top.{line_of, numbered_line, status_of};

use crate::outcome::Outcome;
use crate::status::Status;
use report_print::refusal_line;
use sprite_ids::NoMemory;
use std::alloc::Global;

/// The status of what a text came to.
pub(crate) fn status_of(outcome: &Outcome) -> Status
    ensures { result ≡ status_of outcome.now }
{
    match outcome {
        Outcome::Drawn(_) => Status::Drawn,
        Outcome::Refused(_) | Outcome::BadLine(_) => Status::Refused,
        Outcome::Few(_) | Outcome::Many(_) => Status::Refused,
    }
}

/// What is due for what a text came to: the picture, or a line that says why there is none. The one error is want of memory.
pub(crate) fn line_of(alloc: Global, outcome: Outcome) -> Result<Vec<u8>, NoMemory>
    ensures { IfOk result (λ line. line.items ≡ line_of outcome) }
{
    match outcome {
        Outcome::Drawn(text) => Ok(text),
        Outcome::Refused(refusal) => refusal_line(alloc, &refusal),
        Outcome::BadLine(number) => {
            numbered_line(alloc, b"refused: no record in line ", number as u64)
        }
        Outcome::Few(total) => numbered_line(alloc, b"refused: none of the records 1 to ", total),
        Outcome::Many(count) => {
            numbered_line(alloc, b"refused: more than 20000 records, ", count)
        }
    }
}

// A line that ends with a number.
fn numbered_line(alloc: Global, words: &[u8], number: u64) -> Result<Vec<u8>, NoMemory>
    ensures { IfOk result (λ line. line.items ≡ numbered_line words.now number) }
{
    let mut line = Vec::from_slice(alloc, words)?;
    let digits = format!(in alloc; "{number}")?;
    line.extend_from_slice(digits.as_bytes())?;
    line.push(b'\n')?;
    Ok(line)
}
