//! A file whose server stops and comes back: what its clients keep meanwhile, the steps that change it, and laws of the moves that
//! the server then makes (versions and caching: Nelson, Welch and Ousterhout 1988; the rules are this project's).
#![tactic(auto)]

mod kept;
mod laws;
mod outcome;
mod restart_step;
mod restarted;

pub use kept::Kept;
pub use laws::{
    answers_are_current, cold_steps_stay, due_stays, restarts_stay, runs_stay, server_moves_stay,
};
pub use outcome::Outcome;
pub use restart_step::RestartStep;
pub use restarted::Restarted;
