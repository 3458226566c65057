//! What a kernel of a cluster takes: one step of it, whose remote calls begin and whose answers go out over the wire.
#![tactic(auto)]

mod receivers;
mod taking;

pub use taking::take;
