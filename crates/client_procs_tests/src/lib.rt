//! Tests of `client_procs`, and of `client_homes`, `client_devices` and `client_moves` below it: forks, waits, ends, kills, moves,
//! evictions and pseudo-devices step by step, and what each step of the whole kernel says; that they succeed where there is plenty
//! of memory. The expected values are worked out by hand from the rules of homes, moves and devices (Douglis and Ousterhout 1991;
//! Welch and Ousterhout 1988; Nelson, Welch and Ousterhout 1988).
//!
//! Each state in which a process waits is entered and left: between two calls for a page; inside one for a file's server, for a home
//! or, for its `fork` and behind its own `migrate`, for a page; in a `wait`, here and for a process elsewhere; in a `pd_get`; in an
//! ask, here and elsewhere; as it arrives, for its home's word; as it dies, for its home; at its end, for its last close; and on its
//! way, for its pages and its streams. Each answer is given: to a page that is put or fetched, to a place, a transfer and a launch
//! one; to a home call and an ask a value and a refusal; to a kill that it is told, and that its process is gone. Of what may cross: a
//! kill and the `fork` that brings its process; a kill and a process that is frozen, that has come to another kernel meanwhile, that
//! comes home, or that waits for its home's word; a kill and a page on its way; a kill and a parked `wait`; an eviction and a process
//! that is frozen, inside its own `migrate`, not yet thawed, or killed too; an ask and the making of its device; asks behind the exit
//! of their master; and two masters that wait for one ask.
//!
//! Of what no right cluster brings to a kernel: a call of a process that is inside one, or whose number isn't the next; a page of such
//! a process, one that is here, and one that is none of the image's; and a process that is here already, or on its way from here.
#![tactic(auto)]

#[cfg(test)]
mod births;
#[cfg(test)]
mod bodies;
#[cfg(test)]
mod devices;
#[cfg(test)]
mod kills;
#[cfg(test)]
mod moves;
#[cfg(test)]
mod script;
#[cfg(test)]
mod strange;
#[cfg(test)]
mod told;
#[cfg(test)]
mod words;
#[cfg(test)]
mod world;
