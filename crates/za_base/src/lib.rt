//! Where documents come from and texts go: a source of bytes and a sink for bytes that count their
//! faults, whole reads and writes over them, and both over memory and over std's readers and writers.
//!
//! What is said of bytes holds of sources and sinks that tell them. Those in memory do; standard input
//! and output don't, and of them the counts of faults alone are known.
#![tactic(auto)]

mod memory;
mod reading;
mod sink;
mod source;
mod std_ends;
mod writing;

pub use memory::{MemSink, MemSource};
pub use reading::{ReadEnd, read_all};
pub use sink::Sink;
pub use source::{Failed, Source};
pub use std_ends::{StdSink, StdSource};
pub use writing::write_all;
