//! The judge: a model, a trace, and whether a legal verdict stands.
use search::found::Orders;
use std::marker::Model;
use trace::table::Table;

mod changing;
mod playing;
mod telling;

/// A judge of traces by one model. Contracts see the model, the trace, and the orders of a standing verdict.
#[derive(Drop)]
pub struct Judge<M> {
    model: M,
    table: Table,
    // The first orders that meet the model, while a legal verdict stands.
    first: Option<Orders>,
}

impl<M> Model for Judge<M> {
    ghost use Rattle.judge.specs.Seen.{Seen};

    ghost Value = { Seen M };

    ghost view = { λ j. record { model = j.model; state = record { trace = j.table; standing = j.first } } };
}
