//! Memory models: the four questions that each answers of a trace, three base models, and two layers.
#![tactic(auto)]

pub mod agreement;
mod closure;
pub mod coherent;
pub mod model;
pub mod pram;
mod program_order;
mod ranked;
pub mod sequential;
pub mod write_into;
