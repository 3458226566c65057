ghost use Rattle.std.specs.Prelude.{◌≡◌};
ghost use Rattle.std.specs.Option.{option_map};
ghost use Rattle.unix_calls.specs.Answers.{program_at};

use process_machine::Program;
use unix_calls::ProgramLine;

/// The program at that place, from 1.
pub fn program_at(lines: &[ProgramLine], place: u8) -> Option<&Program>
    ensures { option_map (λ program. program.now) result ≡ program_at lines.now place }
{
    if place == 0 {
        return None;
    }
    let at = usize::from(place - 1);
    if at < lines.len() {
        Some(&lines[at].program)
    } else {
        None
    }
}
