//! A walk along a trace while one Unix kernel makes its entries: whether its journal is a history, and what is told of its records on the
//! way (this project).
#![tactic(auto)]

mod both;
mod walking;
mod watching;

pub use both::Both;
pub use walking::{End, Walked, walk};
pub use watching::Watches;
