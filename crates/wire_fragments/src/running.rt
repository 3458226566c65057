ghost use Rattle.std.specs.Prelude.{◌≡◌, ◌≤◌, IfOk, List, [], length};
ghost use Rattle.std.specs.List.{AllByRecursion};
ghost use Rattle.wire_fragments.specs.Gathering.{answers_from, empty_gather};
ghost use Rattle.wire_fragments.specs.Runs.{AreAllGiven, AreCuts, AreGathered, Cut, IsFrameOf};

use crate::gather::Gather;
use crate::gathered::Gathered;
use sprite_ids::{Bytes, NoMemory};
use std::alloc::Global;

/// The answers to frames that come one after another, from nothing on, with room for so many messages in part.
///
/// Where all of them are frames of cut messages with different names, in any order, left out or repeated: each message that
/// is given is one of these, byte for byte; it is given at the first place where each of its frames has come with another
/// answer than `Full`, and so at most once; and no answer is `Bad` or `Differs`. With room for as many messages as were cut no
/// answer is `Full`, and those are given of which each frame came. The one error is want of memory.
#[tactic(auto, using(crate::proofs::RunLaws::gathered_of, crate::proofs::FullLaws::all_given))]
pub fn gather_all(alloc: Global, room: u16, frames: &[Bytes]) -> Result<Vec<Gathered>, NoMemory>
    requires { 1 ≤ room }
    ensures answers { IfOk result (λ answers. answers.items ≡ answers_from (empty_gather room) frames.now) }
    ensures gathered { IfOk result (λ answers. (cuts : List Cut) → AreCuts cuts → AllByRecursion (IsFrameOf cuts) frames.now → AreGathered cuts [] frames.now answers.items) }
    ensures all_given { IfOk result (λ answers. (cuts : List Cut) → AreCuts cuts → AllByRecursion (IsFrameOf cuts) frames.now → length cuts ≤ room → AreAllGiven cuts frames.now answers.items) }
{
    let answers = answer_all(alloc, room, frames)?;
    Ok(answers)
}

// The answers to the frames.
#[tactic(auto, using(crate::proofs::TakeLaws::answers_more))]
fn answer_all(alloc: Global, room: u16, frames: &[Bytes]) -> Result<Vec<Gathered>, NoMemory>
    requires { 1 ≤ room }
    ensures { IfOk result (λ answers. answers.items ≡ answers_from (empty_gather room) frames.now) }
{
    let mut gather = Gather::new(alloc, room);
    let mut answers = Vec::with_capacity(alloc, frames.len())?;
    for frame in frames {
        answers.push(gather.take(alloc, frame.as_slice())?)?;
    }
    Ok(answers)
}
