//! Tests of `client_files`, and of `client_names` and `client_streams` below it: name calls, opens, closes, arrivals and moves
//! of processes, and data, syncs, callbacks and grants through the whole step, each step by step, and what it says; that they
//! succeed where there is plenty of memory. The expected values are worked out by hand from the rules of prefixes, caching and
//! moves (Welch and Ousterhout 1986; Nelson, Welch and Ousterhout 1988; Douglis and Ousterhout 1991).
//!
//! Each state in which an operation waits is entered and left: a name call for who serves a prefix, for a sign of life and for
//! the answer to its request; a close and a move for the stream's lock and for the server; those of data for the lock, room, a
//! block and the server, and a `sync` for its own write-back and for another's; and for a turn in the tests of `client_data`.
//! Each answer is given: to a broadcast and an echo one, or none after eight tries; to an open, a name call and a make its value,
//! a refusal and a path that leads on; to a close and a move that it is done. Of what may cross: two processes that meet one
//! prefix, and two whose paths lead into one domain; an open's grant that a newer one overtook; a stop before the grant of a
//! stream that arrives; a stream of two processes that moves while the other closes, reads, or moves too; a stream that arrives
//! again while its close or its move has no answer; an append that waits while the file grows; and a recall while two processes
//! wait for one write-back.
#![tactic(auto)]

#[cfg(test)]
mod bodies;
#[cfg(test)]
mod calls;
#[cfg(test)]
mod data;
#[cfg(test)]
mod script;
#[cfg(test)]
mod tables;
#[cfg(test)]
mod told;
#[cfg(test)]
mod world;
