// What the programs answer, printed line by line on standard output: a `row` line for each row, or
// `refused` and the number, and a `strides` line. An answer is the number that lent_requests gives, with
// the rooms that it filled. As in streams, a failure stays marked.
#![tactic(auto)]

ghost use Rattle.std.specs.Prelude.{◌≡◌, true};

use row_line::put_row;
use streams::print_room;
use text::put_line;

fn print_number(rt: HostRuntime, failed: &mut bool, label: &[u8], n: u64)
    ensures { failed.old ≡ true → failed.new ≡ true }
{
    let mut out = [0u8; 64];
    let size = put_line(&mut out, 0, label, n);
    print_room(rt, failed, &out, size);
}

pub fn print_refused(rt: HostRuntime, failed: &mut bool, n: u64)
    ensures { failed.old ≡ true → failed.new ≡ true }
{
    print_number(rt, failed, b"refused ", n);
}

// The parts of an answer's number, as specs/Answer of answers puts them together.
fn refusal_of(answer: u64) -> u8 {
    (answer % 256) as u8
}

fn rounds_of(answer: u64) -> u8 {
    (answer / 256 % 256) as u8
}

fn print_strides(rt: HostRuntime, failed: &mut bool, answer: u64)
    ensures { failed.old ≡ true → failed.new ≡ true }
{
    print_number(rt, failed, b"strides ", answer / 4294967296);
}

// A row is 114 bytes at most: refusal and rounds have two digits.
fn print_row(rt: HostRuntime, failed: &mut bool, refusal: u8, state: [f64; 6], rounds: u8)
    ensures { failed.old ≡ true → failed.new ≡ true }
{
    let mut out = [0u8; 128];
    let size = put_row(
        &mut out, 0, refusal, state[0], state[1], state[2], state[3], state[4], state[5], rounds,
    );
    print_room(rt, failed, &out, size);
}

// The first n rows of the rooms.
fn print_rows(
    rt: HostRuntime,
    failed: &mut bool,
    n: usize,
    refusals: &[u8; 1024],
    states: &[f64; 6144],
    rounds: &[u8; 1024],
)
    ensures { failed.old ≡ true → failed.new ≡ true }
{
    let (states, _) = states.as_chunks::<6>();
    for ((refusal, state), round) in refusals.iter().zip(states).zip(rounds).take(n) {
        print_row(rt, failed, *refusal, *state, *round);
    }
}

fn print_rows_or_refusal(
    rt: HostRuntime,
    failed: &mut bool,
    refusal: u8,
    n: usize,
    refusals: &[u8; 1024],
    states: &[f64; 6144],
    rounds: &[u8; 1024],
)
    ensures { failed.old ≡ true → failed.new ≡ true }
{
    if refusal != 0 {
        print_refused(rt, failed, refusal as u64);
    } else if n <= 1024 {
        print_rows(rt, failed, n, refusals, states, rounds);
    }
}

// The answer to one time, and the state that it put.
pub fn print_answer(rt: HostRuntime, failed: &mut bool, answer: u64, state: [f64; 6])
    ensures { failed.old ≡ true → failed.new ≡ true }
{
    print_row(rt, failed, refusal_of(answer), state, rounds_of(answer));
    print_strides(rt, failed, answer);
}

// The answer to a list of n times, from the rooms that it was answered in. A list refused whole has no
// rows, and none longer than the rooms is answered.
pub fn print_list(
    rt: HostRuntime,
    failed: &mut bool,
    answer: u64,
    n: usize,
    refusals: &[u8; 1024],
    states: &[f64; 6144],
    rounds: &[u8; 1024],
)
    ensures { failed.old ≡ true → failed.new ≡ true }
{
    print_rows_or_refusal(rt, failed, refusal_of(answer), n, refusals, states, rounds);
    print_strides(rt, failed, answer);
}

// More times than a line may have are more than a list may have.
pub fn refuse_list(rt: HostRuntime, failed: &mut bool)
    ensures { failed.old ≡ true → failed.new ≡ true }
{
    print_refused(rt, failed, 18);
    print_strides(rt, failed, 18);
}
