// Runs the elementary functions on the vectors of the input, and prints for each function how many
// lines were compared, how many differ, and the first that differs. A line is a function's name, its
// arguments and its result, as bit patterns of f64 in hex; every NaN is written `nan`. A line that
// begins with `#` is a comment. A line of a known name that cannot be read counts as differing, and
// one of no known name as not read.
#![tactic(auto)]

mod words; // from text to numbers
mod tally; // what is counted

use streams::{print, print_line};
use tally::{Tally, count_lines};

// What a line is of.
#[derive(Clone, Copy, PartialEq, Eq)]
pub(crate) enum Kind {
    Sqrt,
    Cbrt,
    Sin,
    Cos,
    Atan2,
    Unknown,
    Comment,
}

fn print_first(rt: HostRuntime, failed: &mut bool, t: Tally<'_>) {
    if t.first.is_empty() {
        return;
    }
    print(rt, failed, b"  first: ");
    print(rt, failed, t.first);
    print(rt, failed, b"\n");
}

fn report(rt: HostRuntime, failed: &mut bool, input: &[u8], name: &str, kind: Kind) {
    let t = count_lines(input, kind);
    print_line(
        rt,
        failed,
        format_args!("{name}: {} compared, {} differ", t.lines, t.differ),
    );
    print_first(rt, failed, t);
}

fn report_unknown(rt: HostRuntime, failed: &mut bool, input: &[u8]) {
    let t = count_lines(input, Kind::Unknown);
    print_line(rt, failed, format_args!("not read: {}", t.lines));
    print_first(rt, failed, t);
}

fn report_all(rt: HostRuntime, failed: &mut bool, input: &[u8]) {
    report(rt, failed, input, "sqrt", Kind::Sqrt);
    report(rt, failed, input, "cbrt", Kind::Cbrt);
    report(rt, failed, input, "sin", Kind::Sin);
    report(rt, failed, input, "cos", Kind::Cos);
    report(rt, failed, input, "atan2", Kind::Atan2);
    report_unknown(rt, failed, input);
}

// A room of its own function is an array of that size to its caller, and not a list of so many zeros.
fn room() -> [u8; 524288] {
    [0; 524288]
}

fn main(rt: HostRuntime) {
    let mut failed = false;
    let mut space = room();
    let n = streams::read_all(rt, &mut failed, &mut space);
    if n == 524288 {
        print(rt, &mut failed, b"the input is too long\n");
        return;
    }
    report_all(rt, &mut failed, &space[..n]);
}
