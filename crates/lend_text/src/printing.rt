ghost use Rattle.std.specs.Prelude.{◌≡◌, ◌++◌, codes, IfOk, OnOk};
ghost use Rattle.std.specs.Fmt.{decimal};
ghost use Rattle.lend_text.specs.Events.{answer_line, answers_text};

use host_lending::LendAnswer;
use sprite_ids::NoMemory;
use std::alloc::Global;

// Puts a number in decimal.
fn put_number(alloc: Global, out: &mut Vec<u8>, number: usize) -> Result<(), NoMemory>
    ensures { OnOk result (out.new.items ≡ out.old.items ++ decimal number) }
{
    let digits = format!(in alloc; "{number}")?;
    out.extend_from_slice(digits.as_bytes())?;
    Ok(())
}

// Puts a name, a number, and the end of the line.
fn put_numbered(
    alloc: Global,
    out: &mut Vec<u8>,
    name: &[u8],
    number: usize,
) -> Result<(), NoMemory>
    ensures { OnOk result (out.new.items ≡ out.old.items ++ name.now ++ decimal number ++ codes "\n") }
{
    out.extend_from_slice(name)?;
    put_number(alloc, out, number)?;
    out.push(b'\n')?;
    Ok(())
}

// Puts the line of an answer.
fn put_answer(alloc: Global, out: &mut Vec<u8>, answer: &LendAnswer) -> Result<(), NoMemory>
    ensures { OnOk result (out.new.items ≡ out.old.items ++ answer_line answer.now) }
{
    match *answer {
        LendAnswer::Noted => out.extend_from_slice(b"noted\n")?,
        LendAnswer::Revoked(borrower) => {
            return put_numbered(alloc, out, b"revoked ", usize::from(borrower.number()));
        }
        LendAnswer::Lent(host) => {
            return put_numbered(alloc, out, b"lent ", usize::from(host.number()));
        }
        LendAnswer::Moved { host, from } => {
            out.extend_from_slice(b"moved ")?;
            put_number(alloc, out, usize::from(host.number()))?;
            return put_numbered(alloc, out, b" ", usize::from(from.number()));
        }
        LendAnswer::NoHost => out.extend_from_slice(b"no host\n")?,
        LendAnswer::Returned => out.extend_from_slice(b"returned\n")?,
        LendAnswer::NotHeld => out.extend_from_slice(b"not held\n")?,
        LendAnswer::Left(count) => return put_numbered(alloc, out, b"left ", count),
    }
    Ok(())
}

/// The lines of the answers, one behind another. The one error is want of memory.
pub(crate) fn answers_text(alloc: Global, answers: &[LendAnswer]) -> Result<Vec<u8>, NoMemory>
    ensures { IfOk result (λ text. text.items ≡ answers_text answers.now) }
{
    let mut out = Vec::new(alloc);
    for answer in answers {
        put_answer(alloc, &mut out, answer)?;
    }
    Ok(out)
}
