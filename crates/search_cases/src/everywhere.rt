//! A model of this crate's own: 16 views, each of all operations, in program order.
ghost use Rattle.search_cases.specs.Everywhere.{everywhere, everywhere_laws};

use models::model::MemoryModel;
use models::sequential::Sequential;
use trace::table::Table;

/// The model with every operation in every view.
#[derive(Clone, Copy)]
pub struct Everywhere;

impl MemoryModel for Everywhere {
    ghost meaning = { λ _. everywhere };

    ghost laws = { λ _. everywhere_laws };

    fn views(&self, _processors: u8, _variables: u8) -> u8 {
        16
    }

    fn holds(&self, table: &Table, view: u8, number: u16) -> bool {
        1 <= view && view <= 16 && table.operation(number).is_some()
    }

    fn before(&self, table: &Table, first: u16, second: u16) -> bool {
        Sequential.before(table, first, second)
    }

    fn alike(&self, _table: &Table, _one: u16, _other: u16) -> bool {
        false
    }
}
