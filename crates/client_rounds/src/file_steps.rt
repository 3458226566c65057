ghost use Rattle.client_rounds.specs.Rounds.{FileStepsAreEnough, FileStepsKeepThis};

/// A law: in a step in which a callback, an answer to a remote call of the files' side, the end of one that is given up or a due
/// block comes the rounds are enough, where what they need was so before it.
pub fn file_steps_are_enough()
    ensures { FileStepsAreEnough }
{}

/// A law: and such a step keeps it.
pub fn file_steps_keep_this()
    ensures { FileStepsKeepThis }
{}
