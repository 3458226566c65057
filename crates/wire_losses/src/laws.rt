ghost use Rattle.wire_losses.specs.Losses.{GivenUpBehindEight};

/// A law: in each run a call is given up only behind eight losses of packets of that very call between its caller and its owner:
/// of its request, sent for the first time or again, and of its reply (Welch 1986: eight tries without an answer).
pub fn given_up_behind_eight_losses()
    ensures { GivenUpBehindEight }
{}
