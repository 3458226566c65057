//! What the link between kernels does to packets, by a plan (this project).
#![tactic(auto)]

mod counts;
mod fates;
mod link;
mod perfect_link;
mod plan;
mod plan_link;

pub use link::Link;
pub use perfect_link::PerfectLink;
pub use plan::{Fate, Plan, PlanEntry};
pub use plan_link::PlanLink;

#[cfg(test)]
mod tests;
