//! The operations of a trace by rank: the lowest number has rank 0, the next rank 1, and so on.
#![tactic(auto)]

pub mod listing;
