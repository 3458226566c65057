//! Tests of `wire_fragments`: lengths of cut frames, answers to frames in every order, and heads that spell no frame, by hand.
#![tactic(auto)]

#[cfg(test)]
mod cutting;
#[cfg(test)]
mod frames;
#[cfg(test)]
mod gathering;
#[cfg(test)]
mod heads;
