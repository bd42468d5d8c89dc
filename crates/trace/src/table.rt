//! The table of a trace: at most 64 operations of at most 8 processors.
ghost use Rattle.std.specs.Prelude.{◌≡◌};

use crate::operation::Operation;
use fixed_list::FixedList;
use std::marker::Model;

mod calls;
mod completeness;
mod reads;

// The operations of one processor, first to last.
type Lane = FixedList<Operation, 64>;

/// A trace, in a table of fixed size: a lane for each processor. Contracts see it as the trace.
#[derive(Clone, Copy, PartialEq, Eq)]
pub struct Table {
    variables: u8,
    total: usize,
    lanes: FixedList<Lane, 8>,
}

impl Model for Table {
    ghost use Rattle.std.proofs.Common.{sym};
    ghost use Rattle.trace.specs.Traces.{Trace, operation_count};
    ghost use Rattle.trace.specs.Tables.{Kept};

    ghost Value = { Trace };

    ghost view = { λ t. record { variables = t.variables; lanes = t.lanes } };

    ghost invariant = { λ t. Kept t.total (record { variables = t.variables; lanes = t.lanes }) };

    ghost inverse = { λ t. record { variables = t.variables; total = operation_count t; lanes = t.lanes } };

    ghost inverse_ok = { λ t kept. λ i. record { variables = t.variables; total = sym kept.counted i; lanes = t.lanes } };
}
