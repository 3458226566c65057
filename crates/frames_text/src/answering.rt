ghost use Rattle.std.specs.Prelude.{◌≡◌, ◌≤◌, ◌++◌, ◌∷◌, [], codes, IfOk, length};
ghost use Rattle.std.specs.Fmt.{decimal};
ghost use Rattle.report_print.specs.Refused.{refusal_line};
ghost use Rattle.frames_text.specs.Texts.{Answers, BodyAnswers};
ghost use Rattle.frames_text.specs.declared.answering.FramesAnswer.TheVariants.{Refused as IsRefused};

use crate::reading::read_parcels;
use crate::reporting::send_parcels;
use cluster_file::Refusal;
use link_plan::Link;
use parted_text::{PartsEnd, read_parts};
use report_print::refusal_line;
use sprite_ids::{Bytes, NoMemory};
use std::alloc::Global;
use text_rows::LineError;
use unix_calls::Description;

/// What is due for a text that is to hold a cluster file and packets (this project).
#[derive(Drop)]
pub enum FramesAnswer {
    /// The lines that tell what came of the packets.
    Lines(Bytes),
    /// The line of the text's refusal.
    Refused(Bytes),
}

/// Sends the packets of a text in frames over the link, which is loaded with the faults of the text's cluster file (this project).
///
/// The cluster file is what stands before the first line that is exactly `=====`, the packets what stands behind it, one a line, as
/// `read_parcels` reads them. Without such a line the text is refused by `refused: 14`; then a cluster file is refused as ever; then the
/// first line that is no packet's is told, `refused: 15 line N`. Only then the link is loaded and asked. The one error is want of
/// memory.
#[tactic(auto, using(crate::proofs::TextLaws::body_short, crate::proofs::TextLaws::from_none, crate::proofs::TextLaws::from_described, crate::proofs::TextLaws::from_refused))]
pub fn send_text<L: Link>(
    alloc: Global,
    link: &mut L,
    text: &[u8],
) -> Result<FramesAnswer, NoMemory>
    requires { length text.now ≤ 67108864 }
    ensures { IfOk result (Answers L.faults L.asked link.old link.new text.now) }
{
    match read_parts(alloc, text) {
        Ok((cluster, body)) => answer_body(alloc, link, &cluster, body),
        Err(PartsEnd::NoBody) => refuse(alloc, b"refused: 14\n"),
        Err(PartsEnd::Refused(refusal)) => answer_refusal(alloc, &refusal),
        Err(PartsEnd::NoMemory) => Err(NoMemory),
    }
}

// What is due for a cluster file that is refused.
fn answer_refusal(alloc: Global, refusal: &Refusal) -> Result<FramesAnswer, NoMemory>
    ensures { IfOk result (λ answer. answer ≡ IsRefused (refusal_line refusal.now)) }
{
    let line = refusal_line(alloc, refusal)?;
    Ok(FramesAnswer::Refused(Bytes::of_vec(line)))
}

// What is due for packets between the kernels of a cluster.
#[tactic(auto, using(crate::proofs::TextLaws::loaded_before))]
fn answer_body<L: Link>(
    alloc: Global,
    link: &mut L,
    cluster: &Description,
    body: &[u8],
) -> Result<FramesAnswer, NoMemory>
    requires { length body.now ≤ 67108864 }
    ensures { IfOk result (BodyAnswers L.faults L.asked link.old link.new (length cluster.now.kernels) body.now) }
{
    match read_parcels(alloc, cluster.kernels.len(), body) {
        Ok(parcels) => {
            link.load(alloc, &cluster.plan)?;
            let lines = send_parcels(alloc, link, parcels.as_slice())?;
            Ok(FramesAnswer::Lines(Bytes::of_vec(lines)))
        }
        Err(LineError::Line(number)) => answer_bad_line(alloc, number),
        Err(LineError::NoMemory) => Err(NoMemory),
    }
}

// What is due for a line that is no packet's.
fn answer_bad_line(alloc: Global, number: usize) -> Result<FramesAnswer, NoMemory>
    ensures { IfOk result (λ answer. answer ≡ IsRefused (codes "refused: 15 line " ++ decimal number ++ 10 ∷ [])) }
{
    let line = format!(in alloc; "refused: 15 line {number}\n")?;
    refuse(alloc, line.as_bytes())
}

// A refusal with that line.
fn refuse(alloc: Global, line: &[u8]) -> Result<FramesAnswer, NoMemory>
    ensures { IfOk result (λ answer. answer ≡ IsRefused line.now) }
{
    Ok(FramesAnswer::Refused(Bytes::of_slice(alloc, line)?))
}
