//! One pseudo-device: the operations on it that its master is to answer, in the order in which they came (Welch and
//! Ousterhout 1988).
#![tactic(auto)]

mod ask;
mod device;
mod end;

pub use ask::{Answer, Ask};
pub use device::Device;
pub use end::{PutEnd, TakeEnd};
