//! The program's environment as traits: files that are read by name, a source of input and a sink for output, each
//! with a written meaning and a count of faults. The jobs above are generic over these traits, so their contracts can
//! say which bytes moved, and that a fault is answered only if a count rose.
#![tactic(auto)]

mod call_list;
mod job_errors;
mod mem_files;
mod mem_sink;
mod mem_source;
mod no_fault_source;
mod pieces;
mod ports;
mod real_files;
mod real_streams;
mod stored_file;

pub use call_list::CallList;
pub use job_errors::{AuditError, JobError};
pub use mem_files::MemFiles;
pub use mem_sink::MemSink;
pub use mem_source::MemSource;
pub use no_fault_source::NoFaultSource;
pub use ports::{Failed, FileError, FileText, Files, Sink, Source};
pub use real_files::RealFiles;
pub use real_streams::{RealIn, RealOut};

#[cfg(test)]
mod tests;
