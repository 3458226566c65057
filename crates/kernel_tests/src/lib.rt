//! Tests of `kernel_steps`: calls on a queue, on a table and on what a step says, one after the other, with what each gives; that
//! they succeed where there is plenty of memory.
#![tactic(auto)]

#[cfg(test)]
mod outs;
#[cfg(test)]
mod queues;
#[cfg(test)]
mod tables;
