ghost use Rattle.kernel_rpc.specs.Runs.{GivenUpForCause, RepliesAtMostOnce, RequestsAtMostOnce, StaysUntilAnswered};
ghost use Rattle.kernel_rpc.specs.Histories.{CopiesDiffer, FourRepliesEach, GivenUpAtEighth, LostBeforeExpiry, NumbersAreNew, TwoRepliesEach, TwoRequestsEach};
ghost use Rattle.kernel_rpc.specs.Steps.{AnswerIsStep, BeginIsStep, BroadcastIsStep, DeliverIsStep, ExpireIsStep, SilentIsStep};

use link_plan::Link;
use sprite_bytes::Message;

/// A law: whatever the link does to packets, a request is handed to a receiver at most once.
pub fn requests_come_at_most_once()
    ensures { RequestsAtMostOnce }
{}

/// A law: whatever the link does to packets, a reply is handed to its caller at most once.
pub fn replies_come_at_most_once()
    ensures { RepliesAtMostOnce }
{}

/// A law: in each run, a call is given up only after eight lost tries of an echo or a broadcast; the fault counts of its
/// caller and its owner as it began and then differ by at least eight.
pub fn given_up_for_cause()
    ensures { GivenUpForCause }
{}

/// A law: an unfinished call stays until its reply is handed to its caller, or it is given up.
pub fn unfinished_calls_stay()
    ensures { StaysUntilAnswered }
{}

/// A law: each call of a wire is a step of a run, so that what holds of runs holds of a wire's calls. Where a call answers want
/// of memory, nothing was done, and there is no step.
pub fn calls_are_steps<M: Message, L: Link>()
    ensures begin { BeginIsStep L.faults L.asked }
    ensures broadcast { BroadcastIsStep L.faults L.asked }
    ensures deliver { DeliverIsStep M.reading L.faults L.asked }
    ensures answer { AnswerIsStep L.faults L.asked }
    ensures silent { SilentIsStep L.faults L.asked }
    ensures expire { ExpireIsStep L.faults L.asked }
{}

/// A law: after each run the copies in flight have numbers that differ, and a number is given once: what isn't in flight any
/// more never is again.
pub fn copies_have_numbers_of_their_own()
    ensures differ { CopiesDiffer }
    ensures new { NumbersAreNew }
{}

/// A law: in each run, a call is given up exactly at the eighth time that its timer fires.
pub fn given_up_at_the_eighth_try()
    ensures { GivenUpAtEighth }
{}

/// A law: in each run, where the timer of a call may fire, a packet of that call between its caller and its owner was lost since
/// its request was sent last, that sending included.
pub fn a_packet_is_lost_before_a_timer_fires()
    ensures { LostBeforeExpiry }
{}

/// A law: in each run, at most two copies of a call's request come to a kernel for each time that it was sent, and at most two of
/// its reply to the caller for each time that that was sent; so at most four copies of the reply come for each time that the
/// request was sent.
pub fn packets_come_a_few_times_at_most()
    ensures requests { TwoRequestsEach }
    ensures replies { TwoRepliesEach }
    ensures four { FourRepliesEach }
{}
