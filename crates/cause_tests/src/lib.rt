//! Small traces, right ones and wrong ones, of which `cause_judge` tells whether a server is called unreachable only for a cause (this
//! project), and a trace whose records and units are counted.
#![tactic(auto)]

#[cfg(test)]
mod tests;
#[cfg(test)]
mod traces;
