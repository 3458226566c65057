//! What the rules of a trace look back on in the one-kernel Unix, for each record of the trace (this project).
#![tactic(auto)]

mod call_at;
mod caller;
mod calling;
mod known;
mod telling;
mod tied;

pub use call_at::{CallAt, call_of};
pub use caller::Caller;
pub use telling::Telling;
pub use tied::Tied;
