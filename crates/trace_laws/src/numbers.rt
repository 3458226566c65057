ghost use Rattle.trace_laws.specs.Numbers.{EntriesCount, ProgressTellsNumbers, OnceTellsNumbers};
ghost use Rattle.trace_laws.specs.Issues.{ProgressTellsCalls};

/// A law: each entry of a history counts for its own process, by its part, and leaves how all others stand; at most 200 processes
/// start (this project).
pub fn entries_count()
    ensures { EntriesCount }
{}

/// A law: how far a process is with its calls in a trace whose journal is a history tells how many of them the one-kernel Unix has
/// counted, whether the process is in an ask there and whether it has ended (this project).
pub fn progress_tells_numbers()
    ensures { ProgressTellsNumbers }
{}

/// A law: so it is with each process of a trace whose calls come once (this project).
pub fn once_tells_numbers()
    ensures { OnceTellsNumbers }
{}

/// A law: how far a process is with its calls in a trace tells which of them stand there as issued, entered and returned, the number
/// of the last one and the call that is out (this project).
pub fn progress_tells_calls()
    ensures { ProgressTellsCalls }
{}
