//! Tests of `migrate_freeze`: a process is frozen, its streams move, a packet tells of it, and it is thawed from that; that all of
//! this succeeds where there is plenty of memory.
#![tactic(auto)]

#[cfg(test)]
mod moves;
