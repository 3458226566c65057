ghost use Rattle.std.specs.Prelude.{◌≤◌};
ghost use Rattle.trace_bursts.specs.Going.{Goes, IsLimit};

use process_machine::{BurstEnd, Image, Program, burst};

/// What became of an image that is to do so many instructions (this project).
#[derive(Clone, Copy, Debug, PartialEq, Eq)]
pub(crate) enum Went {
    /// It did them; a call or a bad step may come within so many more.
    On(u64),
    /// A call or a bad step comes before, after so many.
    Called(u64),
    /// None comes within the bound.
    Never,
}

/// Has the image do `count` instructions, where a call may come within `left`.
pub(crate) fn go_on(program: &Program, image: &mut Image, left: u64, count: u64) -> Went
    ensures { Goes program.now image.old left count result image.new }
{
    let mut rest = left;
    let mut due = count;
    while due > 0 {
        let limit = limit_of(rest, due);
        let (done, end) = burst(program, image, limit);
        match end {
            BurstEnd::Limit => {
                if rest == 0 {
                    return Went::Never;
                }
                rest -= u64::from(limit);
                due -= u64::from(limit);
            }
            BurstEnd::Call | BurstEnd::BadStep => {
                return Went::Called(count - due + u64::from(done));
            }
            BurstEnd::PageNeeded(_) => return Went::Never,
        }
    }
    Went::On(rest)
}

// How many instructions the next burst may do: one to look at where none is left.
fn limit_of(rest: u64, due: u64) -> u32
    requires { 1 ≤ due }
    ensures { IsLimit rest due result }
{
    let most = due.min(10_000);
    if rest == 0 {
        1
    } else if rest < most {
        rest as u32
    } else {
        most as u32
    }
}
