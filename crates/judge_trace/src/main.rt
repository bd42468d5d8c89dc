//! Judges the trace file on standard input by the model whose letters stand before it.
#![tactic(auto)]

ghost use Rattle.std.specs.Prelude.{◌≤◌, IfOk};

use judge_text::text;
use std::io;
use std::io::Read;

// Fills the buffer from standard input, as far as that goes, and gives how much of it is filled.
// Three letters and a byte 10 may stand before a file, and no byte of that past the 530th can alter the answer.
fn fill(rt: &HostRuntime, input: &mut [u8; 534]) -> io::Result<usize>
    ensures { IfOk result (λ n. n ≤ 534) }
{
    let mut stdin = rt.stdin();
    let mut filled = 0;
    for _ in 0..534 {
        let more = stdin.read(&mut input[filled..])?;
        if more == 0 {
            break;
        }
        filled += more;
    }
    Ok(filled)
}

fn main(rt: HostRuntime) -> io::Result<()> {
    let mut input = [0u8; 534];
    let filled = fill(&rt, &mut input)?;
    let answer = text(rt.alloc(), &input[..filled])?;
    rt.print(answer)
}
