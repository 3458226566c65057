use process_machine::{BurstEnd, Image, Program};
use sprite_ids::Pid;

/// A process that is to do some instructions (this project).
#[derive(Debug, Drop)]
pub struct Job {
    /// The process.
    pub pid: Pid,
    /// What it runs.
    pub program: Program,
    /// As it is.
    pub from: Image,
    /// The same, to be changed by the instructions.
    pub to: Image,
}

/// A process that has done some instructions (this project).
#[derive(Debug, Drop)]
pub struct Burst {
    /// The process.
    pub pid: Pid,
    /// What it runs.
    pub program: Program,
    /// As it was.
    pub from: Image,
    /// As it is now.
    pub to: Image,
    /// How many instructions it did, 0 to 10,000.
    pub count: u32,
    /// Why it did no more.
    pub end: BurstEnd,
}
