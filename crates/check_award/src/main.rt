// Checks an award plan (document 02, wish 11): reads its text from standard input and prints `accepted`,
// or `refused` with the number and the offer or entry at fault. A bad line is named on standard error, and
// so is a text that ends too soon; then nothing is judged.
#![tactic(auto)]

use award::AwardRefusal;
use award_text::{Draft, TextRefusal, finish, put_answer, take_line};
use line_input::{Input, next_line, whole_in};

fn tell(rt: HostRuntime, text: &[u8]) {
    streams::tell(rt, text);
}

// The plan after a line, which is named where it is bad.
fn take(rt: HostRuntime, d: Draft, line: &[u8], number: u64, row: &mut [u64]) -> Draft {
    let d = take_line(d, line, row);
    if !d.taken {
        let _ = eprintln!(rt; "line {number} is bad");
    }
    d
}

// A proved loop has to end, and nothing says that the input does: no text has so many lines. A line that
// its room does not hold is an empty one, which is bad.
fn read_plan(rt: HostRuntime, failed: &mut bool, row: &mut [u64]) -> Draft {
    let mut buffer = [0u8; 4096];
    let mut line = [0u8; 65536];
    let mut input = Input::start();
    let mut d = Draft::start();
    for number in 0..u64::MAX {
        let next = next_line(rt, failed, input, &mut buffer, &mut line);
        input = next.input;
        if !next.found {
            return d;
        }
        let n = whole_in(next.size, &line);
        d = take(rt, d, &line[0..n], number + 1, row);
    }
    d
}

fn print_answer(rt: HostRuntime, failed: &mut bool, answer: Result<(), AwardRefusal>) {
    let mut out = [0u8; 64];
    let n = put_answer(&mut out, 0, answer);
    streams::print_room(rt, failed, &out, n);
}

fn print_verdict(
    rt: HostRuntime,
    failed: &mut bool,
    d: Draft,
    verdict: Result<Result<(), AwardRefusal>, TextRefusal>,
) {
    match verdict {
        Ok(answer) => print_answer(rt, failed, answer),
        Err(TextRefusal::Unread) => {
            if !d.faulty {
                tell(rt, b"the text ends before the turnaround\n");
            }
        }
        Err(TextRefusal::RoomTooShort) => tell(rt, b"no room\n"),
    }
}

fn main(rt: HostRuntime) {
    let mut failed = false;
    let mut row = [0u64; 1282];
    let d = read_plan(rt, &mut failed, &mut row);
    if failed {
        return;
    }
    let verdict = finish(d, &row);
    print_verdict(rt, &mut failed, d, verdict);
}
