use sprite_ids::Kernel;
use unix_calls::About;

/// Where a process goes that is frozen.
#[derive(Clone, Copy, Debug, PartialEq, Eq)]
pub struct Route {
    /// The kernel that it goes to.
    pub to: Kernel,
    /// Its own `migrate` or `rexec`; None where it is evicted.
    pub about: Option<About>,
    /// The program that it starts there; None where it goes on as it is.
    pub program: Option<u8>,
}
