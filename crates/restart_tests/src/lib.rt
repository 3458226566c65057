//! Small runs of one file whose server stops and comes back, and texts of them, each with what is to come of it, worked out by hand.
#![tactic(auto)]

#[cfg(test)]
mod runs;
#[cfg(test)]
mod script;
#[cfg(test)]
mod tests;
#[cfg(test)]
mod texts;
