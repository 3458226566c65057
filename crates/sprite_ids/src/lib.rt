//! The names and small plain types that every crate of the project shares: kernels, processes, files, streams, error
//! numbers, bytes and lists.
#![tactic(auto)]

mod bytes;
mod caching;
mod copying;
mod errno;
mod items;
mod kernel;
mod names;
mod no_memory;
mod pid;
mod running;

pub use bytes::Bytes;
pub use caching::{CacheMode, CallKind, Callback, Flushed, Grant};
pub use copying::Copying;
pub use errno::Errno;
pub use items::Items;
pub use kernel::Kernel;
pub use names::{AskKind, BlockNo, CopyNo, DeviceId, FileId, Mode, Object, StreamNo, TxNo};
pub use no_memory::NoMemory;
pub use pid::Pid;
pub use running::{Ending, Finish, Tries};
