//! What it is for orders to explain a trace under a model.
#![tactic(auto)]

pub mod clauses;
pub mod finding;
pub mod inspection;
pub mod legality;
pub mod verdicts;
