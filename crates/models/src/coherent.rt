//! Coherence: a view for each variable, of the operations on it, in program order.
ghost use Rattle.models.specs.Bases.{coherent};
ghost use Rattle.models.specs.BaseLaws.{coherent_laws};

use crate::model::MemoryModel;
use crate::program_order::in_program_order;
use trace::table::Table;

/// Coherence.
#[derive(Clone, Copy)]
pub struct Coherent;

impl MemoryModel for Coherent {
    ghost meaning = { λ _. coherent };

    ghost laws = { λ _. coherent_laws };

    fn views(&self, _processors: u8, variables: u8) -> u8 {
        variables
    }

    fn holds(&self, table: &Table, view: u8, number: u16) -> bool {
        (1..=table.variables()).contains(&view)
            && table
                .operation(number)
                .is_some_and(|operation| operation.variable == view)
    }

    fn before(&self, table: &Table, first: u16, second: u16) -> bool {
        in_program_order(table, first, second)
    }

    fn alike(&self, _table: &Table, _one: u16, _other: u16) -> bool {
        false
    }
}
