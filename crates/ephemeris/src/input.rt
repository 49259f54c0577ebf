// Standard input's lines, a pair and requests, answered on standard output. As in streams, a failure stays
// marked.
ghost use Rattle.std.specs.Prelude.{◌≡◌, true};

use ephemeris_answers::rows::answer;
use ephemeris_stages::{Stage, take_stage, wants_line};
use line_input::{Input, next_line, whole_in};
use streams::print_room;

// A line in front of the requests, and what is said of it.
fn take_front(
    rt: HostRuntime,
    failed: &mut bool,
    stage: Stage,
    first: &mut [u8],
    line: &[u8],
    room: &mut [u8],
    numbers: &mut [f64; 83],
    marks: &mut [u32; 6],
) -> Stage
    ensures { failed.old ≡ true → failed.new ≡ true }
{
    let next = take_stage(stage, first, line, room, numbers, marks);
    print_room(rt, failed, room, next.said);
    next.stage
}

// The line of so many bytes in its room; one that is longer counts as an empty one.
fn take_line(
    rt: HostRuntime,
    failed: &mut bool,
    stage: Stage,
    number: u64,
    first: &mut [u8],
    held: &[u8],
    size: usize,
    room: &mut [u8],
    numbers: &mut [f64; 83],
    marks: &mut [u32; 6],
) -> Stage
    ensures { failed.old ≡ true → failed.new ≡ true }
{
    let n = whole_in(size, held);
    let line = &held[..n];
    if let Stage::Asking(sheet) = stage {
        answer(rt, failed, sheet, number, line, room, numbers, marks);
        return stage;
    }
    take_front(rt, failed, stage, first, line, room, numbers, marks)
}

// A proved loop has to end, and nothing says that the input does: no input has so many lines.
pub(crate) fn run(
    rt: HostRuntime,
    failed: &mut bool,
    numbers: &mut [f64; 83],
    marks: &mut [u32; 6],
    first: &mut [u8; 70],
    buffer: &mut [u8; 4096],
    line: &mut [u8; 65536],
    room: &mut [u8; 65536],
)
    ensures { failed.old ≡ true → failed.new ≡ true }
{
    let mut input = Input::start();
    let mut stage = Stage::Start;
    for before in 0..u64::MAX {
        let next = next_line(rt, failed, input, buffer, line);
        if !(next.found | wants_line(stage)) {
            return;
        }
        let number = before + 1;
        stage = take_line(
            rt, failed, stage, number, first, line, next.size, room, numbers, marks,
        );
        input = next.input;
    }
}
