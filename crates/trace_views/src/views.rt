use sharing_rules::EntryFacts;
use trace_bursts::Counts;
use trace_tables::{Caller, Tied};
use unix_calls::Stream;

/// What one walk along a trace tells of its records, in their order (this project).
#[derive(Drop)]
pub struct Views {
    /// Of each record the stream of a file that its entry makes.
    pub openings: Vec<Option<Stream>>,
    /// Of each record the file and the stream that its call goes by.
    pub ties: Vec<Option<Tied>>,
    /// Of each record what its process is.
    pub callers: Vec<Caller>,
    /// The mark of each record: of a block that is written back whether a `sync` of its file is due at its kernel, of an entry whether it
    /// makes a stream of a file.
    pub marks: Vec<bool>,
    /// Of each record what its entry does to files.
    pub facts: Vec<EntryFacts>,
    /// What is kept of the bursts of all records.
    pub counts: Counts,
}
