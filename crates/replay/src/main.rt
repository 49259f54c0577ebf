// Reads a pair of lines and then requests, one a line, from standard input in whatever pieces they
// come, and prints what each is answered: a `row` line for each row, or `refused` and the number for a
// list refused whole, and a `strides` line. A line that is no request prints `malformed`. A pair prints
// `opened`; or `refused` and the number, and nothing for the requests after it. A line that begins with 1
// begins another pair. The stored input has the published pairs and times, and then cases of requests:
// tests/published_rows.py makes it and the expected output.
#![tactic(auto)]

mod answer;

ghost use Rattle.std.specs.Prelude.{◌≡◌, true};

use answer::answer;
use lent_opening::open_held;
use line_input::{Input, next_line, whole_in};
use printing::print_refused;
use streams::print;
use text::put_bytes;

// What the next line is: the first of a pair, the second (behind a first of so many bytes), a request, or
// nothing after a refused pair.
#[derive(Clone, Copy)]
enum Stage {
    First,
    Second(usize),
    Asking,
    Over,
}

// The pair of a first line of so many bytes, kept in a room, and a second.
fn open(
    rt: HostRuntime,
    failed: &mut bool,
    first: &[u8],
    size: usize,
    line: &[u8],
    numbers: &mut [f64; 83],
    marks: &mut [u32; 6],
) -> Stage
    ensures { failed.old ≡ true → failed.new ≡ true }
{
    let n = whole_in(size, first);
    let answer = open_held(&first[..n], line, numbers, marks);
    if answer == 0 {
        print(rt, failed, b"opened\n");
        return Stage::Asking;
    }
    print_refused(rt, failed, answer % 256);
    Stage::Over
}

// A line that begins with 1 begins a pair, whatever came before.
fn stage_of(stage: Stage, line: &[u8]) -> Stage {
    if line.starts_with(b"1") {
        return Stage::First;
    }
    stage
}

// The line of so many bytes in its room. One that is longer than the room is neither a request nor one of a
// pair, as an empty one.
fn take_line(
    rt: HostRuntime,
    failed: &mut bool,
    stage: Stage,
    first: &mut [u8; 70],
    room: &[u8],
    size: usize,
    numbers: &mut [f64; 83],
    marks: &mut [u32; 6],
) -> Stage
    ensures { failed.old ≡ true → failed.new ≡ true }
{
    let n = whole_in(size, room);
    let line = &room[..n];
    let stage = stage_of(stage, line);
    match stage {
        Stage::First => Stage::Second(put_bytes(first, 0, line)),
        Stage::Second(size) => open(rt, failed, first, size, line, numbers, marks),
        Stage::Asking => {
            answer(rt, failed, numbers, marks, line);
            stage
        }
        Stage::Over => stage,
    }
}

// Lines of a pair that the input ends without are empty.
fn wants_line(stage: Stage) -> bool {
    matches!(stage, Stage::First | Stage::Second(_))
}

// A proved loop has to end, and nothing says that the input does: no run uses up so many turns.
fn run(
    rt: HostRuntime,
    failed: &mut bool,
    numbers: &mut [f64; 83],
    marks: &mut [u32; 6],
    first: &mut [u8; 70],
    buffer: &mut [u8; 4096],
    line: &mut [u8; 65536],
)
    ensures { failed.old ≡ true → failed.new ≡ true }
{
    let mut input = Input::start();
    let mut stage = Stage::First;
    for _ in 0..u64::MAX {
        let next = next_line(rt, failed, input, buffer, line);
        if !(next.found | wants_line(stage)) {
            return;
        }
        stage = take_line(rt, failed, stage, first, line, next.size, numbers, marks);
        input = next.input;
    }
}

// The satellite lies in `numbers` and `marks`, as a caller in C keeps it. The line's room holds 1,100 times
// of up to 20 bytes and more.
fn main(rt: HostRuntime) {
    let mut failed = false;
    let mut numbers = [0f64; 83];
    let mut marks = [0u32; 6];
    let mut first = [0u8; 70];
    let mut buffer = [0u8; 4096];
    let mut line = [0u8; 65536];
    run(
        rt,
        &mut failed,
        &mut numbers,
        &mut marks,
        &mut first,
        &mut buffer,
        &mut line,
    );
}
