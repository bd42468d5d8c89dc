//! A model of this crate's own: it has no views, and requires nothing.
ghost use Rattle.model_cases.specs.NoViews.{no_views, no_views_laws};

use models::model::MemoryModel;
use trace::table::Table;

/// The model without views.
#[derive(Clone, Copy)]
pub struct NoViews;

impl MemoryModel for NoViews {
    ghost meaning = { λ _. no_views };

    ghost laws = { λ _. no_views_laws };

    fn views(&self, _processors: u8, _variables: u8) -> u8 {
        0
    }

    fn holds(&self, _table: &Table, _view: u8, _number: u16) -> bool {
        false
    }

    fn before(&self, _table: &Table, _first: u16, _second: u16) -> bool {
        false
    }

    fn alike(&self, _table: &Table, _one: u16, _other: u16) -> bool {
        false
    }
}
