//! The calls on a judge, as values, and what comes of each.
use trace_file::changes::Change;

/// A call on a judge.
#[derive(Drop)]
pub enum Call {
    /// Changes the trace.
    Change(Change),
    /// Asks for the verdict on the trace.
    Judge,
    /// Asks for the list of a view, counted from 1.
    View { view: u8, slots: Vec<u16> },
    /// Inspects orders in writing.
    Inspect { numbers: Vec<u16> },
    /// Writes the trace's file.
    Save { bytes: Vec<u8> },
}

/// A call that was played: its answer, and the call with everything that it handed in as it was left.
#[derive(Drop)]
pub struct Played {
    pub call: Call,
    pub refusal: u8,
    pub value: u16,
}
