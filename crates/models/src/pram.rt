//! PRAM: a view for each processor, of its operations and of every write, in program order.
ghost use Rattle.models.specs.Bases.{pram};
ghost use Rattle.models.specs.BaseLaws.{pram_laws};

use crate::model::MemoryModel;
use crate::program_order::in_program_order;
use trace::operation::Kind;
use trace::table::Table;

/// PRAM, the parallel random access machine.
#[derive(Clone, Copy)]
pub struct Pram;

impl MemoryModel for Pram {
    ghost meaning = { λ _. pram };

    ghost laws = { λ _. pram_laws };

    fn views(&self, processors: u8, _variables: u8) -> u8 {
        processors
    }

    fn holds(&self, table: &Table, view: u8, number: u16) -> bool {
        (1..=table.processors()).contains(&view)
            && table.operation(number).is_some_and(|operation| {
                number / 100 == u16::from(view) || operation.kind == Kind::Write
            })
    }

    fn before(&self, table: &Table, first: u16, second: u16) -> bool {
        in_program_order(table, first, second)
    }

    fn alike(&self, _table: &Table, _one: u16, _other: u16) -> bool {
        false
    }
}
