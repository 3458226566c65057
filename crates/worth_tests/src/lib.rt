//! Traces, written out, that are worth their units or not, part by part (this project).
#![tactic(auto)]

#[cfg(test)]
mod block_moves;
#[cfg(test)]
mod bursts;
#[cfg(test)]
mod deliveries;
#[cfg(test)]
mod kills;
#[cfg(test)]
mod records;
#[cfg(test)]
mod repeated;
#[cfg(test)]
mod sends;
#[cfg(test)]
mod tries;
