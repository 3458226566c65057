ghost use Rattle.packet_laws.specs.Deliveries.{EachWasSent};
ghost use Rattle.packet_laws.specs.Expiries.{EachHasLoss, EachLastIsWorth};
ghost use Rattle.packet_laws.specs.Faults.{EachFaultHasPacket};
ghost use Rattle.packet_laws.specs.Worth.{AllGoWell};
ghost use Rattle.reached_laws.specs.Packets.{OfWires};
ghost use Rattle.reached_laws.specs.Records.{RecordsAreByKernels};

use link_plan::Link;

/// A law: each record of the trace of a reached cluster is by one of the kernels 1 to 16 (this project).
pub fn records_are_by_kernels<L: Link>()
    ensures { RecordsAreByKernels L.faults L.asked }
{}

/// A law: in the trace of each run a record that a timer fired stands behind one that a packet between the timer's kernel and a
/// receiver of its call was lost, told since the call's request was sent last (Welch 1986: a client sends again where no answer comes
/// in time); the last record of a timer that gives up is its eighth; and a record that a packet between two kernels met a fault stands
/// behind more packets that may have met one there than faults (this project).
pub fn timers_and_faults_have_causes<L: Link>()
    ensures losses { OfWires L.faults L.asked EachHasLoss }
    ensures last { OfWires L.faults L.asked EachLastIsWorth }
    ensures faults { OfWires L.faults L.asked EachFaultHasPacket }
{}

/// A law: in the trace of each run a record that a packet of a call came between its sender and a receiver stands behind records enough
/// that one went out to the receiver, at its send and at each try that was over: for each at most six came, that one counted (Welch
/// 1986: a request is sent again until it is answered).
pub fn deliveries_have_sendings<L: Link>()
    ensures { OfWires L.faults L.asked EachWasSent }
{}

/// A law: so in the trace of each run every record that a timer fired, that a packet met a fault or that one came is one that a trace of
/// some worth may have, as far as that doesn't look at what a request is for (this project).
pub fn timers_and_faults_are_worth<L: Link>()
    ensures { OfWires L.faults L.asked AllGoWell }
{}
