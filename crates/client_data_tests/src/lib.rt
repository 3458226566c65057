//! Tests of `client_data`: readings, writings, seeks and syncs of four processes step by step, with grants, callbacks, due
//! write-backs and answers between them; what each step says, and that it succeeds where there is plenty of memory. The
//! expected values are worked out by hand from the rules of caching (Nelson, Welch and Ousterhout 1988; Welch 1986).
//!
//! Each state in which an operation waits is entered and left: for the stream's lock, for its turn, for room, for a block and
//! for the server; a `sync` for another's write-back and for its own. Each answer is given: to a fetch a block, one that comes
//! too late and a grant; to an operation at the server a value, a refusal and a grant; to a write-back that it is done, the
//! same too late, and a grant. Of what may cross: a request of an older stamp and a callback; a grant that a callback or a
//! newer grant overtook; a grant that keeps a block whose write-back is out; and a stop while one operation waits for its block
//! or for room and another for its turn.
#![tactic(auto)]

#[cfg(test)]
mod script;
#[cfg(test)]
mod tables;
#[cfg(test)]
mod told;
#[cfg(test)]
mod world;
