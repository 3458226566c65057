ghost use Rattle.client_rounds.specs.Rounds.{BeginsSo, ImagesKeepThis, RoundsAreEnough, RoundsKeepThis};

/// A law: where at most one thing is on its way to each process that is here, and to no other, the streams of processes that leave
/// move one at a time, and the turns of the files' side are enough, the rounds of a step are enough: nothing is ready then, no reply
/// is to be given and no report to be taken (this project).
pub fn rounds_are_enough()
    ensures { RoundsAreEnough }
{}

/// A law: and the rounds keep this.
pub fn rounds_keep_this()
    ensures { RoundsKeepThis }
{}

/// A law: so it is when the cluster begins.
pub fn begins_so()
    ensures { BeginsSo }
{}

/// A law: and what a process does between two calls keeps it.
pub fn images_keep_this()
    ensures { ImagesKeepThis }
{}
