//! Whether a server is called unreachable in a trace only for a cause: packets to it or from it were lost in that call (this project).
#![tactic(auto)]

mod causes;
mod giving_up;
mod matching;
mod serving;

pub use causes::are_for_cause;
