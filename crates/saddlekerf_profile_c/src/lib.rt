// The profile's archive for C and Rust: each function of crate saddlekerf_profile under its own name and with
// its own clauses, exported. A slice is a pointer and a length. include/saddlekerf_profile.h has the same for C.
#![tactic(auto)]

ghost use Rattle.std.specs.Prelude.{◌≡◌, length};
ghost use Rattle.tle.specs.Read.{read_of};
ghost use Rattle.saddlekerf_profile.specs.Boundary.{boundary};
ghost use Rattle.saddlekerf_profile.specs.Opening as O;
ghost use Rattle.saddlekerf_profile.specs.Requests as R;

#[unsafe(no_mangle)]
pub extern "C" fn saddlekerf_profile_abi_1() -> u64
    ensures { result ≡ boundary }
{
    saddlekerf_profile::saddlekerf_profile_abi_1()
}

#[unsafe(no_mangle)]
pub extern "C" fn saddlekerf_profile_open(
    line1: &[u8],
    line2: &[u8],
    numbers: &mut [f64],
    marks: &mut [u32],
) -> u64
    ensures value { result ≡ O.open_answer (read_of line1.now line2.now) (length numbers.old) (length marks.old) }
    ensures numbers_after { numbers.new ≡ O.open_numbers (read_of line1.now line2.now) numbers.old marks.old }
    ensures marks_after { marks.new ≡ O.open_marks (read_of line1.now line2.now) numbers.old marks.old }
{
    saddlekerf_profile::saddlekerf_profile_open(line1, line2, numbers, marks)
}

#[unsafe(no_mangle)]
pub extern "C" fn saddlekerf_profile_request(
    numbers: &mut [f64],
    marks: &mut [u32],
    time: i64,
    state: &mut [f64],
) -> u64
    ensures { R.RequestPost numbers.old marks.old time state.old result numbers.new marks.new state.new }
{
    saddlekerf_profile::saddlekerf_profile_request(numbers, marks, time, state)
}

#[unsafe(no_mangle)]
pub extern "C" fn saddlekerf_profile_request_list(
    numbers: &mut [f64],
    marks: &mut [u32],
    times: &[i64],
    refusals: &mut [u8],
    states: &mut [f64],
    rounds: &mut [u8],
) -> u64
    ensures { R.ListPost numbers.old marks.old times.now refusals.old states.old rounds.old result numbers.new marks.new refusals.new states.new rounds.new }
{
    saddlekerf_profile::saddlekerf_profile_request_list(
        numbers, marks, times, refusals, states, rounds,
    )
}
