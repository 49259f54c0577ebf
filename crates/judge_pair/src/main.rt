// Reads two lines from standard input, in whatever pieces they come, and tells their owner first whether
// they are well formed and then whether their fields are in range (document 02, wish 9).
#![tactic(auto)]

use line_input::{Input, next_line, whole_in};
use refusal_line::put_judged;

// The text has 34 bytes at most.
fn print_judged(rt: HostRuntime, failed: &mut bool, line1: &[u8], line2: &[u8]) {
    let mut out = [0u8; 64];
    let size = put_judged(&mut out, 0, line1, line2);
    if size <= 64 {
        streams::print(rt, failed, &out[0..size]);
    }
}

// A line that is longer than its room counts as an empty one: both are refused with 1.
fn main(rt: HostRuntime) {
    let mut failed = false;
    let mut buffer = [0u8; 4096];
    let mut line1 = [0u8; 69];
    let mut line2 = [0u8; 69];
    let first = next_line(rt, &mut failed, Input::start(), &mut buffer, &mut line1);
    let input = first.input;
    let second = next_line(rt, &mut failed, input, &mut buffer, &mut line2);
    let n = whole_in(first.size, &line1);
    let m = whole_in(second.size, &line2);
    print_judged(rt, &mut failed, &line1[..n], &line2[..m]);
}
