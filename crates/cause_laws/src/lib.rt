//! Laws of what causes have to be found behind an entry that calls a server unreachable (this project).
#![tactic(auto)]

mod laws;

pub use laws::unreachable_follows_losses;
