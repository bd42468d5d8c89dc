//! The steps of a case, the calls that they make, and what is printed of each.
use judge::calls::{Call, Played};
use judge::running::run;
use models::model::MemoryModel;
use std::alloc::Global;
use std::io;
use trace_file::changes::Change;

/// A call with its arguments; slots and bytes hold 9 when they are handed in.
#[derive(Clone, Copy, Debug)]
pub enum Step {
    /// Processors, variables.
    Size(u8, u8),
    /// Processor, kind (1 for a read, 2 for a write), variable, source, value.
    Record(u8, u8, u8, u16, u32),
    /// Processor, and how many writes of 7 to variable 1; what is printed is the last one's answer.
    Writes(u8, u8),
    /// Processor.
    Strike(u8),
    /// The file.
    Load(&'static [u8]),
    Judge,
    /// View, and how many slots there are for its list.
    View(u8, usize),
    /// Orders in writing.
    Inspect(&'static [u16]),
    /// How many bytes there are for the file.
    Save(usize),
}

/// What a case shows, and its steps on a fresh judge.
pub type Case = (&'static str, &'static [Step]);

// The change that a step makes, if it makes one.
fn change_of(alloc: Global, step: Step) -> anyhow::Result<Option<Change>> {
    Ok(match step {
        Step::Size(processors, variables) => Some(Change::Size {
            processors,
            variables,
        }),
        Step::Record(processor, kind, variable, source, value) => Some(Change::Record {
            processor,
            kind,
            variable,
            source,
            value,
        }),
        Step::Writes(processor, _) => Some(Change::Record {
            processor,
            kind: 2,
            variable: 1,
            source: 0,
            value: 7,
        }),
        Step::Strike(processor) => Some(Change::Strike { processor }),
        Step::Load(bytes) => Some(Change::Load {
            bytes: Vec::from_slice(alloc, bytes)?,
        }),
        _ => None,
    })
}

// The call that a step makes.
fn call_of(alloc: Global, step: Step) -> anyhow::Result<Call> {
    if let Some(change) = change_of(alloc, step)? {
        return Ok(Call::Change(change));
    }
    Ok(match step {
        Step::View(view, slots) => Call::View {
            view,
            slots: vec![in alloc; 9u16; slots]?,
        },
        Step::Inspect(numbers) => Call::Inspect {
            numbers: Vec::from_slice(alloc, numbers)?,
        },
        Step::Save(bytes) => Call::Save {
            bytes: vec![in alloc; 9u8; bytes]?,
        },
        _ => Call::Judge,
    })
}

// How many calls a step makes.
fn count_of(step: Step) -> u8 {
    match step {
        Step::Writes(_, count) => count,
        _ => 1,
    }
}

// Prints the last answer of a step.
fn show(rt: &HostRuntime, step: Step, played: &Played) -> io::Result<()> {
    print!(rt; "  {step:?}: {} {}", played.refusal, played.value)?;
    match &played.call {
        Call::View { slots, .. } => {
            print!(rt; ":")?;
            for slot in slots {
                print!(rt; " {slot}")?;
            }
        }
        Call::Save { bytes } => {
            print!(rt; ":")?;
            for byte in bytes {
                print!(rt; " {byte}")?;
            }
        }
        _ => {}
    }
    println!(rt)
}

// The calls of all steps.
fn script(alloc: Global, steps: &[Step]) -> anyhow::Result<Vec<Call>> {
    let mut calls = Vec::new(alloc);
    for step in steps {
        for _ in 0..count_of(*step) {
            calls.push(call_of(alloc, *step)?)?;
        }
    }
    Ok(calls)
}

/// Runs each case on a judge with the model, and prints every answer with the slots or the bytes as they were left.
pub(crate) fn play<M: MemoryModel + Copy + Drop>(
    rt: &HostRuntime,
    title: &str,
    model: M,
    cases: &[Case],
) -> anyhow::Result<()> {
    for (what, steps) in cases {
        println!(rt; "{what}, under {title}")?;
        let answers = run(rt.alloc(), model, script(rt.alloc(), steps)?)?;
        let mut later = answers.iter();
        for step in *steps {
            let count = usize::from(count_of(*step));
            if let Some(played) = later.by_ref().take(count).last() {
                show(rt, *step, played)?;
            }
        }
    }
    Ok(())
}
