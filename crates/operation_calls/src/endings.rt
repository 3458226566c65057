ghost use Rattle.operation_calls.specs.Endings.{EndedAreGone};

/// A law: behind the step in which a remote call ends that was begun before it, no operation's call is kept under its number, and no
/// write-back is out under it, where each call was kept once (this project). It ends where it is answered, or given up, which no
/// write-back is.
pub fn ended_are_gone()
    ensures { EndedAreGone }
{}
