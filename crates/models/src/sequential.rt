//! Sequential consistency: one view of all operations, in program order.
ghost use Rattle.models.specs.Bases.{sequential};
ghost use Rattle.models.specs.BaseLaws.{sequential_laws};

use crate::model::MemoryModel;
use crate::program_order::in_program_order;
use trace::table::Table;

/// Sequential consistency.
#[derive(Clone, Copy)]
pub struct Sequential;

impl MemoryModel for Sequential {
    ghost meaning = { λ _. sequential };

    ghost laws = { λ _. sequential_laws };

    fn views(&self, _processors: u8, _variables: u8) -> u8 {
        1
    }

    fn holds(&self, table: &Table, view: u8, number: u16) -> bool {
        view == 1 && table.operation(number).is_some()
    }

    fn before(&self, table: &Table, first: u16, second: u16) -> bool {
        in_program_order(table, first, second)
    }

    fn alike(&self, _table: &Table, _one: u16, _other: u16) -> bool {
        false
    }
}
