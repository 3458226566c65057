ghost use Rattle.std.specs.Prelude.{◌≡◌, ◌&&◌, IfOk, IsTrue};
ghost use Rattle.unix_calls.specs.Lawful.{Lawful};
ghost use Rattle.call_journal.specs.WorthPackets.{expires_are_worth};
ghost use Rattle.packet_worth.specs.Faults.{faults_are_few};
ghost use Rattle.packet_worth.specs.Losses.{losses_are_met};
ghost use Rattle.echo_worth.specs.Known.{KnowsPackets};

use crate::judging::tries_end;
use packet_worth::{faults_are_few, losses_are_met};
use sprite_ids::NoMemory;
use std::alloc::Global;
use unix_calls::{Description, Rec};

/// Whether the packets of the trace go and come for a cause: a try is over only where a packet was lost since it went out, the link
/// makes no more faults than there are packets, and the tries of an echo or a broadcast are eight, behind which nothing goes there for
/// the sake of the call any more (this project). `known` tells that the first two are known of the trace, so that they aren't asked. The
/// one error is want of memory.
pub fn expires_are_worth(
    alloc: Global,
    c: &Description,
    trace: &[Rec],
    known: bool,
) -> Result<bool, NoMemory>
    requires lawful { Lawful c.now }
    requires known { IsTrue known → KnowsPackets c.now trace.now }
    ensures { IfOk result (λ worth. worth ≡ expires_are_worth c.now trace.now) }
{
    let packets = packets_have_causes(alloc, c, trace, known)?;
    let tries = tries_end(alloc, c, trace)?;
    Ok(are_both(packets, tries))
}

// Whether tries are over behind losses, and faults are of packets.
fn packets_have_causes(
    alloc: Global,
    c: &Description,
    trace: &[Rec],
    known: bool,
) -> Result<bool, NoMemory>
    requires known { IsTrue known → KnowsPackets c.now trace.now }
    ensures { IfOk result (λ caused. caused ≡ (losses_are_met c.now trace.now && faults_are_few c.now trace.now)) }
{
    if known {
        return Ok(true);
    }
    if !losses_are_met(alloc, c, trace)? {
        return Ok(false);
    }
    faults_are_few(alloc, c, trace)
}

// Whether both parts are kept.
fn are_both(packets: bool, tries: bool) -> bool
    ensures { result ≡ (packets && tries) }
{
    packets && tries
}
