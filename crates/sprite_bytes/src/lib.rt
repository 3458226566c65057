//! Where the bytes come from and where they go: sources and sinks that may fail, in memory and over std's readers and
//! writers, and the two calls that read all of a source and write all of some bytes. And what values that travel as bytes
//! are: messages, with one spelling each.
#![tactic(auto)]

mod calls;
mod failed;
mod message;
mod null_sink;
mod plain_source;
mod read_end;
mod reading;
mod sink;
mod sink_memory;
mod sink_std;
mod source;
mod source_memory;
mod source_std;
mod write_end;
mod writing;

pub use failed::Failed;
pub use message::Message;
pub use null_sink::NullSink;
pub use plain_source::PlainSource;
pub use read_end::ReadEnd;
pub use reading::read_all;
pub use sink::Sink;
pub use sink_memory::MemSink;
pub use sink_std::StdSink;
pub use source::Source;
pub use source_memory::MemSource;
pub use source_std::StdSource;
pub use write_end::WriteEnd;
pub use writing::write_all;
