ghost use Rattle.std.specs.Prelude.{◌≡◌};
ghost use Rattle.program_text.specs.Words.{words_of};
ghost use Rattle.program_text.specs.Operands.{register_of, operand_of, operands_of};

use super::words::{is_blank, next_word};
use process_machine::{Operand, Register};
use text_lines::number;

/// The register that the word names, `r0` to `r7`; None exactly where it names none.
pub fn register(word: &[u8]) -> Option<Register>
    ensures { result ≡ register_of word.now }
{
    match word {
        [b'r', digit] => Register::new(digit.checked_sub(b'0')?),
        _ => None,
    }
}

/// The operand that the word writes: a register's name or a number; None exactly where it is neither.
fn operand(word: &[u8]) -> Option<Operand>
    ensures { result ≡ operand_of word.now }
{
    if let Some(register) = register(word) {
        return Some(Operand::Register(register));
    }
    Some(Operand::Number(number(word)?))
}

/// The operands of a call, which are the words there; None exactly where one is no operand or there are over four.
pub fn operands(rest: &[u8]) -> Option<[Option<Operand>; 4]>
    ensures { result ≡ operands_of (words_of rest.now) }
{
    let Some((word, rest)) = next_word(rest) else {
        return Some([None, None, None, None]);
    };
    let first = Some(operand(word)?);
    let Some((word, rest)) = next_word(rest) else {
        return Some([first, None, None, None]);
    };
    let second = Some(operand(word)?);
    let Some((word, rest)) = next_word(rest) else {
        return Some([first, second, None, None]);
    };
    let third = Some(operand(word)?);
    let Some((word, rest)) = next_word(rest) else {
        return Some([first, second, third, None]);
    };
    let fourth = Some(operand(word)?);
    if is_blank(rest) {
        Some([first, second, third, fourth])
    } else {
        None
    }
}
