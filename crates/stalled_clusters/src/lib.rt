//! What is left of a run that stands stalled (Nelson, Welch and Ousterhout 1988; Welch 1986; Douglis and Ousterhout 1991): only waits, gets and
//! asks.
#![tactic(auto)]

mod laws;

pub use laws::{stalled_has_no_operation, stalled_has_only_waits};
