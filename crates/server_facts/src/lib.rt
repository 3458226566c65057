//! What every step of a file server keeps, whatever comes (Nelson, Welch and Ousterhout 1988): which files are busy, what waits for
//! them, which callbacks are out, which files have no name, and how many grants of shared streams are out.
#![tactic(auto)]

mod asking;
mod calls;
mod shared;
mod unlinked;

pub use asking::{
    asking_is_action, boot_has_asking, busy_is_asking, busy_is_waited_for, step_keeps_asking,
};
pub use calls::{
    boot_has_busy, boot_has_calls, busy_is_called, calls_are_out, step_keeps_busy, step_keeps_calls,
};
pub use shared::{boot_has_shared, shared_is_counted, step_keeps_shared};
pub use unlinked::{boot_has_unlinked, step_keeps_unlinked, unlinked_is_open};
