//! Files and sinks: in memory, in a folder and on standard output.
#![tactic(auto)]

pub mod counts;
pub mod edge;
pub mod mem;
pub mod traits;

pub use counts::FileCounts;
pub use edge::{DirFiles, StdSink};
pub use mem::{MemFiles, MemSink};
pub use traits::{FileFault, Files, Sink, SinkFailed, WriteFailed};
