//! How many of a call's packets were lost before it is given up.
#![tactic(auto)]

mod laws;

pub use laws::given_up_behind_eight_losses;
