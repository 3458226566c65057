//! Small runs of one file, played by `file_coherence`, each with what is to take effect in it, worked out by hand.
#![tactic(auto)]

#[cfg(test)]
mod runs;
#[cfg(test)]
mod script;
#[cfg(test)]
mod tests;
