//! Readers and writers that fail, for tests.
#![tactic(auto)]

mod failing_reader;
mod failing_writer;

pub use failing_reader::FailingReader;
pub use failing_writer::FailingWriter;
