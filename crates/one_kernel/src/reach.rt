ghost use Rattle.std.specs.Prelude.{◌≡◌, ◌≤◌};
ghost use Rattle.one_kernel.specs.Ways.{Reaches, stopped_at};

use process_machine::{BurstEnd, Image, Program, burst};

/// What a run to the next call came to (this project).
#[derive(Clone, Copy, Debug, PartialEq, Eq)]
pub enum Reach {
    /// The image stands at its next call after so many instructions.
    Call(u64),
    /// The image stands at a bad step after so many instructions.
    BadStep(u64),
    /// More instructions come before it than were allowed.
    TooFar,
    /// A page is away before it.
    NoCall,
}

/// Runs the image to its next call, or a bad step, which may take at most `most` instructions (this project).
///
/// `TooFar` comes exactly where the way is longer, and `NoCall` where a page is away before a call; the image is then somewhere on its way.
pub fn go_to_call(program: &Program, image: &mut Image, most: u64) -> Reach
    requires { most ≤ 40000000000 }
    ensures { Reaches program.now image.old most result image.new }
{
    let mut done: u64 = 0;
    while done <= most {
        let (count, end) = burst(program, image, 10_000);
        done += u64::from(count);
        match end {
            BurstEnd::Limit => {}
            BurstEnd::PageNeeded(_) => return stopped(done, most, Reach::NoCall),
            BurstEnd::Call => return stopped(done, most, Reach::Call(done)),
            BurstEnd::BadStep => return stopped(done, most, Reach::BadStep(done)),
        }
    }
    Reach::TooFar
}

// What a run that stopped came to.
fn stopped(done: u64, most: u64, reach: Reach) -> Reach
    ensures { result ≡ stopped_at done most reach }
{
    if done > most { Reach::TooFar } else { reach }
}
