//! The trace file: a trace as bytes, read and written.
#![tactic(auto)]

pub mod changes;
pub mod faults;
pub mod reader;
pub mod writer;
