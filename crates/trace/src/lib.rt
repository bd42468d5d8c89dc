//! A trace: what each processor read and wrote, in the order in which it did.
#![tactic(auto)]

pub mod operation;
pub mod refusal;
pub mod table;
