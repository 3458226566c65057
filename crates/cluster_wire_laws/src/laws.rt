ghost use Rattle.cluster_wire_laws.specs.Traces.{EndingsAreCounted, FewPacketsCome, LossBeforeEachExpiry, RepliesAreCounted, RepliesWereAsked, RequestsAreCounted, SendingsAreCounted, SendingsWereAsked, SixCopiesEach, SixPacketsEach, TurnKeepsOrder};
ghost use Rattle.cluster_wire_laws.specs.Turns.{EndIsTold, HappeningIsTold};

use link_plan::Link;

/// A law: whatever happens at a kernel, of copies that come and timers that fire it tells exactly the acts of its turn, in their
/// order.
pub fn happenings_are_told<L: Link>()
    ensures { HappeningIsTold L.faults L.asked }
{}

/// A law: whatever becomes of a burst, of copies that come and timers that fire its kernel tells exactly the acts of its turn, in
/// their order.
pub fn ends_are_told<L: Link>()
    ensures { EndIsTold L.faults L.asked }
{}

/// A law: where each turn of a run is told so, the run's trace tells its acts in their order, and so counts them: the records that
/// a copy of a call's request or reply came to a kernel, that its request was sent again, and that it was given up.
pub fn records_are_acts<L: Link>()
    ensures turn { TurnKeepsOrder L.faults L.asked }
    ensures requests { RequestsAreCounted L.faults L.asked }
    ensures replies { RepliesAreCounted L.faults L.asked }
    ensures sendings { SendingsAreCounted L.faults L.asked }
    ensures endings { EndingsAreCounted L.faults L.asked }
{}

/// A law: a trace has, of each call and kernel, at most six records that a copy of a packet of the call came there for each time
/// that its request was sent (Welch 1986: a request is sent again until it is answered).
pub fn six_copies_each<L: Link>()
    ensures { SixCopiesEach L.faults L.asked }
{}

/// A law: a trace has a record that a timer fired only where a packet of that call between its caller and its owner was lost
/// since its request was sent last (Welch 1986: a client sends again where no answer comes in time).
pub fn expiries_follow_losses<L: Link>()
    ensures { LossBeforeEachExpiry L.faults L.asked }
{}

/// A law: between any two of the sixteen kernels that there may be, the link was asked since the boot at least as often as the
/// trace has records that a packet of a new call was sent between the two; its count stays at `u64::MAX` where it would pass that
/// (this project).
pub fn sendings_were_asked<L: Link>()
    ensures { SendingsWereAsked L.faults L.asked }
{}

/// A law: between any two of the sixteen kernels that there may be, the link was asked since the boot at least as often as the
/// trace has records that a packet of a new call was sent between the two, and once more for each call of which the trace has a
/// record that its reply came between the two; its count stays at `u64::MAX` where it would pass that (this project).
pub fn replies_were_asked<L: Link>()
    ensures { RepliesWereAsked L.faults L.asked }
{}

/// A law: a trace has, of each call and receiver, at most six records that a packet of the call came between its sender and that
/// receiver for the packet to it with which the call began, if there was one, and for each record that its request was sent again
/// (Welch 1986).
pub fn six_packets_each<L: Link>()
    ensures { SixPacketsEach L.faults L.asked }
{}

/// A law: so few packets come, of each call and receiver, for each record that the call was sent to the receiver and each that its
/// timer fired (Welch 1986).
pub fn few_packets_come<L: Link>()
    ensures { FewPacketsCome L.faults L.asked }
{}
