//! What a step of a kernel is given and what it says, and the lists and tables of which a kernel's state is made: the base
//! of the kernels of clients and servers.
#![tactic(auto)]

mod input;
mod queue;
mod sending;
mod table;
mod writer;

pub use input::Input;
pub use queue::Queue;
pub use sending::Sending;
pub use table::Table;
pub use writer::Out;
