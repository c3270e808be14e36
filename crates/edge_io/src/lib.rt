//! Sources and sinks that count their faults: what the program reads from and writes to, in memory or outside.
#![tactic(auto)]

pub mod adapter;
pub mod memory_sink;
pub mod memory_source;
mod numbered;
pub mod sink;
pub mod source;

pub use adapter::{Counted, FromRead, IntoWrite};
pub use memory_sink::MemSink;
pub use memory_source::MemSource;
pub use sink::{Sink, write_all};
pub use source::{ReadError, Source, read_all};
