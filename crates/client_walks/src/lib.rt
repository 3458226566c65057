//! The walk through the functions of a client's kernel for any fact of it; that each process stands in at most one place of it, and that
//! its answers send no call on.
#![tactic(auto)]

mod answers;
mod places;

pub use answers::clients_send_none_on;
pub use places::{begins_with_places, image_keeps_places, step_keeps_places};
