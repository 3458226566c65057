//! Traces, written out, that keep or break a rule, and what the calls of their records go by (this project).
#![tactic(auto)]

#[cfg(test)]
mod forms;
#[cfg(test)]
mod places;
#[cfg(test)]
mod shared_files;
#[cfg(test)]
mod shared_lines;
#[cfg(test)]
mod shared_rows;
#[cfg(test)]
mod sharing;
#[cfg(test)]
mod tests;
#[cfg(test)]
mod writes;
