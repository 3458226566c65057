//! The one-kernel Unix that a cluster looks like: what describes a cluster, what a run's trace says, and the definitions of
//! what one kernel answers to each call.
#![tactic(auto)]

mod description;
mod domains;
mod entry;
mod event;
pub mod judged;
mod laws;
mod state;

pub use description::{Description, EvictLine, FileLine, KernelLine, ProgramLine, StartLine};
pub use entry::{Entry, Part};
pub use event::{About, DropCause, Event, Rec, SendKind};
pub use laws::{
    death_is_of_killed, domain_is_longest, ended_is_silent, lawful_begins_within, others_stay,
    prefix_is_legal, refusal_changes_nothing, server_serves, sizes_stay_within, tests_tell,
};
pub use state::{Answer, Ask, Device, File, FileName, Flags, Named, Node, Object, Process, Stream};
