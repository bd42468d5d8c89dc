//! The verdicts of three worked traces.
ghost use Rattle.orders.specs.Verdicts.{AllHold, table};

/// Stands for a table: each of the worked traces is legal or illegal under each model as the table says.
pub fn worked_verdicts()
    ensures { AllHold table }
{}
