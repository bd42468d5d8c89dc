//! The traces that are searched only here.
use trace::table::Table;
use worked_traces::sized;

/// Three processors write x; the fourth writes y five times, and then reads x from the start.
pub(crate) fn last_first() -> Table {
    let mut table = sized(4, 2);
    for processor in 1..4 {
        let _ = table.record(processor, 2, 1, 0, u32::from(processor));
    }
    for value in 1..6 {
        let _ = table.record(4, 2, 2, 0, value);
    }
    let _ = table.record(4, 1, 1, 0, 0);
    table
}

/// 101 writes x 1; 201 writes x 2, and 202 reads x 1 from 101.
pub(crate) fn overtaken() -> Table {
    let mut table = sized(2, 1);
    let _ = table.record(1, 2, 1, 0, 1);
    let _ = table.record(2, 2, 1, 0, 2);
    let _ = table.record(2, 1, 1, 101, 1);
    table
}

/// 101 writes x 1; 201 reads what is not there.
pub(crate) fn sourceless() -> Table {
    let mut table = sized(2, 1);
    let _ = table.record(1, 2, 1, 0, 1);
    let _ = table.record(2, 1, 1, 105, 1);
    table
}
