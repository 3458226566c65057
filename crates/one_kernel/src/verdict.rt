/// What a history comes to (this project).
#[derive(Clone, Copy, Debug, PartialEq, Eq)]
pub enum Verdict {
    /// One Unix kernel gives it.
    Legal,
    /// One Unix kernel gives the entries before this one, counted from 1, and not this one.
    NotLegal(u32),
    /// One Unix kernel gives the entries before this one, counted from 1, and its process's way to its call passes the bound of
    /// instructions.
    Steps(u32),
}
