use report_print::Tally;
use sprite_ids::Bytes;
use trace_judge::Rule;

/// What a run that has come to its end comes to (this project).
#[derive(Debug, PartialEq, Eq, Drop)]
pub enum JudgedRun {
    /// It keeps what is promised of it, this is printed of it, and its processes came to that.
    Judged { output: Bytes, tally: Tally },
    /// It doesn't.
    Refuted(Refutation),
    /// Before this entry of its journal, counted from 1, a process's way to its call passes the bound of instructions; behind the last
    /// one, the way of a process that is to be blocked.
    Steps(u32),
}

/// The first promise that a run breaks (this project).
#[derive(Clone, Copy, Debug, PartialEq, Eq)]
pub enum Refutation {
    /// One Unix kernel gives the entries of its journal before this one, counted from 1, and not this one.
    Legal(u32),
    /// A call of it isn't issued, entered and returned once, in this order.
    Once,
    /// Each process is to have ended, and one lives; or one is to live, and none does; or the run hasn't come to an end.
    End,
    /// It is to have stalled, and a process that lives isn't blocked.
    Stall,
    /// Its trace breaks that rule.
    Rule(Rule),
}
