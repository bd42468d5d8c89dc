//! The search for the first orders that explain a trace under a model.
#![tactic(auto)]

mod building;
pub mod first;
pub mod found;
pub mod tables;
