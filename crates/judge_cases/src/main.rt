//! Scripted runs of calls on a judge; what is expected stands in `stdout`.
#![tactic(auto)]

mod full;
mod growing;
mod refusals;
mod standing;
mod step;

use crate::step::play;
use models::coherent::Coherent;
use models::pram::Pram;
use models::sequential::Sequential;
use models::write_into::WriteInto;

fn main(rt: HostRuntime) -> anyhow::Result<()> {
    play(&rt, "S", Sequential, refusals::CHANGES)?;
    play(&rt, "P", Pram, refusals::READS)?;
    play(&rt, "C", Coherent, standing::STAYS)?;
    play(&rt, "P", Pram, standing::ENDS)?;
    play(&rt, "FP", WriteInto { below: Pram }, growing::ILLEGAL)?;
    play(&rt, "P", Pram, growing::LEGAL)?;
    play(&rt, "S", Sequential, full::CASES)
}
