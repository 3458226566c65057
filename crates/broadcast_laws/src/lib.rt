//! In which broadcasts the operations of a client's kernel wait (Welch and Ousterhout 1986).
#![tactic(auto)]

mod broadcasts;

pub use broadcasts::clients_ask_so;
