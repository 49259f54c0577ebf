// Prints where a satellite is at given times. Standard input has a pair and then requests, one a line:
// `one` and `list` with times in microseconds since the epoch, `grid START STEP COUNT` with start and
// step in seconds, `at YEAR DAY MICROSECONDS`. Printed are a header and a line for each row: date and
// time of day in UTC, refusal number, position in km, velocity in km/s, strides. Blanks stand between the
// cells, or commas where the first line of all is `commas`. A pair that is refused prints `refused` and
// the number; lines that are no requests are named on standard error.
#![tactic(auto)]

mod input; // the loop over the lines

use input::run;

// The satellite lies in `numbers` and `marks`, as a caller in C keeps it.
fn main(rt: HostRuntime) {
    let mut failed = false;
    let mut numbers = [0f64; 83];
    let mut marks = [0u32; 6];
    let mut first = [0u8; 70];
    let mut buffer = [0u8; 4096];
    let mut line = [0u8; 65536];
    let mut room = [0u8; 65536];
    run(
        rt,
        &mut failed,
        &mut numbers,
        &mut marks,
        &mut first,
        &mut buffer,
        &mut line,
        &mut room,
    );
}
