use cluster_file::Refusal;

/// What a text comes to (this project).
#[derive(Drop)]
pub(crate) enum Outcome {
    /// Its cluster file is refused.
    Refused(Refusal),
    /// That line of its trace, counted from 1, is the first that is no record's.
    BadLine(usize),
    /// Its trace has so many records, and none of them is wanted.
    Few(u64),
    /// So many records are wanted, more than a picture shows.
    Many(u64),
    /// A picture is drawn.
    Drawn(Vec<u8>),
}
