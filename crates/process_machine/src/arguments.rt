/// The values of the four arguments that a system call can have, first to last.
#[derive(Clone, Copy, Debug, PartialEq, Eq)]
pub struct Arguments {
    pub first: u64,
    pub second: u64,
    pub third: u64,
    pub fourth: u64,
}
