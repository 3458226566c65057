//! One file whose server stops and comes back: it forgets who has the file open, and its clients tell it again (versions and
//! caching: Nelson, Welch and Ousterhout 1988; the rules of a stop and of a claim are this project's).
#![tactic(auto)]

mod barring;
mod claiming;
mod keeping;
mod lists;
mod restartable;
mod stepping;

pub use restartable::Restartable;
