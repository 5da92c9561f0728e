//! Files that are read whole, and sinks that bytes are written to, each as a trait.
//!
//! Files may tell the bytes of each name, and then a read answers exactly what they tell (`Finds`). A sink may
//! tell the bytes that it took, and then they grow by what each call says (`Appends`). Those in memory tell,
//! and fail at the calls that they are told to fail at. Those over the machine tell nothing. A call answers
//! `Failed` only where the object's count of faults rose in it (`HasCause`); `Memory` is always free to come.
#![tactic(auto)]

mod mem_files;
mod mem_sink;
mod reading;
mod std_files;
mod std_sink;
mod writing;

pub use mem_files::MemFiles;
pub use mem_sink::MemSink;
pub use reading::{Files, FilesFault, Got};
pub use std_files::StdFiles;
pub use std_sink::StdSink;
pub use writing::{Sink, SinkFault, write_all};
