//! The turn gate: threads take one value in turns, by ticket, and each adds to the value's log under its own number. What
//! comes out at the end has all that the seats added, each once and in the order of its seat, and nothing else (this
//! project).
//!
//! The gate has three words and one slot: the number of tickets drawn, the ticket that is served, the count of items in the
//! log, and the value. A seat draws a ticket and looks at the second word until its ticket is served; then it alone has the
//! slot. A seat that waits sleeps after some looks. Who puts the value back wakes the seat with the next ticket, or, where none
//! was drawn, one that sleeps before it draws. Nothing is said of progress: a turn that is never put back holds all others up.
#![tactic(auto)]

mod book;
mod gate;
mod seat;
mod view;

pub use book::Book;
pub use gate::Gate;
pub use seat::{Seat, Turn};
pub use view::View;
