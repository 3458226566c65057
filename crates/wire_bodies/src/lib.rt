//! What a remote call asks stays the same, whatever becomes of the wire.
#![tactic(auto)]

mod laws;

pub use laws::bodies_stay;
