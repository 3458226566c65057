ghost use Rattle.packet_laws.specs.Deliveries.{EachWasSent};
ghost use Rattle.packet_laws.specs.Expiries.{EachHasLoss, EachLastIsEighth, EachLastIsWorth, OfRuns};
ghost use Rattle.packet_laws.specs.Faults.{EachFaultHasPacket};
ghost use Rattle.packet_laws.specs.Worth.{AllGoWell};

/// A law: of each run, a trace that tells the run's packets and timers has a record that a timer fired only behind one that a
/// packet between the timer's kernel and a receiver of its call was lost, told since the call's request was sent last (Welch 1986:
/// a client sends again where no answer comes in time).
pub fn tries_are_over_behind_losses()
    ensures { OfRuns EachHasLoss }
{}

/// A law: such a trace has a record that a timer fired for the last time only as the eighth of that timer (this project), so that
/// it is one that a trace of some worth may have.
pub fn last_tries_are_the_eighth()
    ensures eighth { OfRuns EachLastIsEighth }
    ensures worth { OfRuns EachLastIsWorth }
{}

/// A law: such a trace has a record that a packet between two kernels met a fault only where it tells before of more packets that
/// may have met one there than of faults: sends, resends, and requests that came and may be answered (this project).
pub fn faults_are_of_packets()
    ensures { OfRuns EachFaultHasPacket }
{}

/// A law: such a trace has a record that a packet of a call came between its sender and a receiver only where, with that one, it tells
/// of at most six such for each time that it tells before that one went out to the receiver, at its send and at each try that was over
/// (Welch 1986: a request is sent again until it is answered).
pub fn deliveries_are_of_sendings()
    ensures { OfRuns EachWasSent }
{}

/// A law: so each record of such a trace that a timer fired, that a packet met a fault or that one came is one that a trace of some
/// worth may have, as far as that doesn't look at what a request is for (this project).
pub fn timers_and_faults_are_worth()
    ensures { OfRuns AllGoWell }
{}
