//! Tests of runs by threads, by one thread and by seeds, over small values: kernels that count down together, and kernels that wait for
//! each other; and of the gate alone, through which threads write to one ledger.
#![tactic(auto)]

#[cfg(test)]
mod countdown;
#[cfg(test)]
mod gate;
#[cfg(test)]
mod relay;
#[cfg(test)]
mod sleeping;
#[cfg(test)]
mod tests;
