use packet_bodies::Request;
use sprite_ids::{Items, Kernel, Tries};
use unix_calls::About;

/// A remote call that a step begins (Welch 1986).
#[derive(Debug, Drop)]
pub struct Sending {
    /// The kernels that the request goes to: one, or for the broadcast of a prefix all that may serve it (Welch and
    /// Ousterhout 1986).
    pub to: Items<Kernel>,
    /// How often it is tried.
    pub tries: Tries,
    /// The call of a process for whose sake it goes; None where it goes for none.
    pub about: Option<About>,
    /// What is asked.
    pub body: Request,
}
