//! The traces whose orders are inspected only here.
use trace::table::Table;
use worked_traces::sized;

/// 101 writes x 1; 201 reads it, 202 writes y 1; 301 reads that, 302 reads x from the start.
pub(crate) fn causality() -> Table {
    let mut table = sized(3, 2);
    let _ = table.record(1, 2, 1, 0, 1);
    let _ = table.record(2, 1, 1, 101, 1);
    let _ = table.record(2, 2, 2, 0, 1);
    let _ = table.record(3, 1, 2, 202, 1);
    let _ = table.record(3, 1, 1, 0, 0);
    table
}

/// 101 writes x 1, 102 reads it; 201 reads some variable, source and value.
pub(crate) fn reading(variable: u8, source: u16, value: u32) -> Table {
    let mut table = sized(2, 2);
    let _ = table.record(1, 2, 1, 0, 1);
    let _ = table.record(1, 1, 1, 101, 1);
    let _ = table.record(2, 1, variable, source, value);
    table
}
