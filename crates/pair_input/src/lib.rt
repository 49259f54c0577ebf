// The pairs of a text on standard input, in whatever pieces it comes. The caller lends a buffer for the
// pieces, the rooms of the two lines and one for what is said. As in streams, a failure stays marked.
#![tactic(auto)]

ghost use Rattle.pair_input.specs.Reads.{Reads};

use line_input::{Input, next_line};
use pair_steps::{Pairs, Step, finish, take_next};

// With what was read and is no part of a line yet.
#[derive(Clone, Copy)]
pub struct Stepped {
    pub input: Input,
    pub step: Step,
}

// One line more.
pub fn next_step(
    rt: HostRuntime,
    failed: &mut bool,
    input: Input,
    pairs: Pairs,
    buffer: &mut [u8],
    line1: &mut [u8],
    line: &mut [u8],
    out: &mut [u8],
) -> Stepped
    ensures { Reads failed.old input pairs buffer.old line1.old line.old out.old failed.new buffer.new line1.new line.new out.new result }
{
    let next = next_line(rt, failed, input, buffer, line);
    let input = next.input;
    if !next.found {
        let step = finish(pairs, line1, out);
        return Stepped { input, step };
    }
    let step = take_next(pairs, line1, line, next.size, out);
    Stepped { input, step }
}
