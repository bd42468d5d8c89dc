//! The judge of traces, and whole runs of calls on it.
#![tactic(auto)]

pub mod calls;
pub mod judging;
pub mod running;
