// A request's line answered: a `row` line for each row, or `refused` and the number for a list refused
// whole, and a `strides` line; `malformed` for a line that is no request.
ghost use Rattle.std.specs.Prelude.{◌≡◌, true};

use lent_requests::{request_held, request_list_held};
use printing::{print_answer, print_list, refuse_list};
use request_line::{Request, read_request};
use streams::print;

fn answer_one(
    rt: HostRuntime,
    failed: &mut bool,
    numbers: &mut [f64; 83],
    marks: &mut [u32; 6],
    time: i64,
)
    ensures { failed.old ≡ true → failed.new ≡ true }
{
    let mut state = [0f64; 6];
    let answer = request_held(numbers, marks, time, &mut state);
    print_answer(rt, failed, answer, state);
}

fn answer_list(
    rt: HostRuntime,
    failed: &mut bool,
    numbers: &mut [f64; 83],
    marks: &mut [u32; 6],
    times: &[i64],
)
    ensures { failed.old ≡ true → failed.new ≡ true }
{
    let mut refusals = [0u8; 1024];
    let mut states = [0f64; 6144];
    let mut rounds = [0u8; 1024];
    let answer = request_list_held(
        numbers,
        marks,
        times,
        &mut refusals,
        &mut states,
        &mut rounds,
    );
    print_list(rt, failed, answer, times.len(), &refusals, &states, &rounds);
}

pub(crate) fn answer(
    rt: HostRuntime,
    failed: &mut bool,
    numbers: &mut [f64; 83],
    marks: &mut [u32; 6],
    line: &[u8],
)
    ensures { failed.old ≡ true → failed.new ≡ true }
{
    let mut times = [0i64; 1100];
    match read_request(line, &mut times) {
        Request::One => answer_one(rt, failed, numbers, marks, times[0]),
        // No list that is read is longer than the room for its times.
        Request::List(n) => {
            let n = n.min(times.len());
            answer_list(rt, failed, numbers, marks, &times[..n])
        }
        Request::TooMany => refuse_list(rt, failed),
        Request::Malformed => print(rt, failed, b"malformed\n"),
    }
}
