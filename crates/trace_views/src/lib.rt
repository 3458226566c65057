//! What the rules of a trace look at in the one-kernel Unix, all of it told by one walk along the trace (this project).
#![tactic(auto)]

mod viewing;
mod views;

pub use viewing::{Viewed, view};
pub use views::Views;
