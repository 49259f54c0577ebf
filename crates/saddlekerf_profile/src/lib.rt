// The profile's boundary to C and Rust: the functions of module `lent` under the names that crate
// saddlekerf_profile_c exports. include/saddlekerf_profile.h has the same for C.
#![tactic(auto)]

pub mod lent;

ghost use Rattle.std.specs.Prelude.{◌≡◌, length};
ghost use Rattle.tle.specs.Read.{read_of};
ghost use Rattle.saddlekerf_profile.specs.Boundary.{boundary};
ghost use Rattle.saddlekerf_profile.specs.Opening as O;
ghost use Rattle.saddlekerf_profile.specs.Requests as R;

use lent::{open_held, request_held, request_list_held};

// The number of this boundary, which stands in the name too: a header of another boundary refers to
// another name and does not link.
pub fn saddlekerf_profile_abi_1() -> u64
    ensures { result ≡ boundary }
{
    1
}

// Opens a pair into lent memory.
pub fn saddlekerf_profile_open(
    line1: &[u8],
    line2: &[u8],
    numbers: &mut [f64],
    marks: &mut [u32],
) -> u64
    ensures value { result ≡ O.open_answer (read_of line1.now line2.now) (length numbers.old) (length marks.old) }
    ensures numbers_after { numbers.new ≡ O.open_numbers (read_of line1.now line2.now) numbers.old marks.old }
    ensures marks_after { marks.new ≡ O.open_marks (read_of line1.now line2.now) numbers.old marks.old }
{
    open_held(line1, line2, numbers, marks)
}

// Asks the satellite in memory for one time, in microseconds since its epoch.
pub fn saddlekerf_profile_request(
    numbers: &mut [f64],
    marks: &mut [u32],
    time: i64,
    state: &mut [f64],
) -> u64
    ensures { R.RequestPost numbers.old marks.old time state.old result numbers.new marks.new state.new }
{
    request_held(numbers, marks, time, state)
}

// Asks the satellite in memory for a list of times.
pub fn saddlekerf_profile_request_list(
    numbers: &mut [f64],
    marks: &mut [u32],
    times: &[i64],
    refusals: &mut [u8],
    states: &mut [f64],
    rounds: &mut [u8],
) -> u64
    ensures { R.ListPost numbers.old marks.old times.now refusals.old states.old rounds.old result numbers.new marks.new refusals.new states.new rounds.new }
{
    request_list_held(numbers, marks, times, refusals, states, rounds)
}
