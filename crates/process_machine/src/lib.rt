//! The machine that runs processes: programs, images, system calls and their answers (this project; Sprite's processes
//! are Unix processes, Nelson, Welch and Ousterhout 1988).
//!
//! An image has eight registers of 64 bits, a counter and 1 to 8 pages of 4,096 bytes, each present or away. `burst`
//! runs it up to its next system call, `call_of` reads that call and `give` puts the answer in.
#![tactic(auto)]

mod answering;
mod arguments;
mod call;
mod calling;
mod image;
mod instruction;
mod laws;
mod memory;
mod parts;
mod program;
mod register;
mod running;

pub use answering::give;
pub use call::{Call, Reply};
pub use calling::call_of;
pub use image::Image;
pub use instruction::{Instruction, Operand, SyscallName};
pub use laws::calls_are_within_limits;
pub use program::{Code, PageCount, Program, Text};
pub use register::Register;
pub use running::{BurstEnd, burst};
