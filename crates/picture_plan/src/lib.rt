//! What there is to draw of a trace: which process stands where, what goes from kernel to kernel, and how a file is cached (this project).
#![tactic(auto)]

mod caching;
mod packets;
mod plan;
mod seen;
mod shapes;
mod span;
mod stays;

pub use caching::is_followed;
pub use packets::Facing;
pub use plan::{Note, Plan, plan_of};
pub use seen::{Deed, Seen, seen_of};
pub use shapes::{Arrow, Bar, BarKind, Kind};
pub use span::Span;
pub use stays::across_of;
