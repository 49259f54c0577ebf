// Prints when a satellite is above a station (document 02, wish 10; passes). Standard input has six lines:
// the pair; the station; the start as year, day and microseconds; the step in seconds; and the number of
// samples. For a station as Earth-fixed x, y and z in km, a line is printed for each window, with its first
// and its last instant and its number of samples, and the strides. For `geodetic`, latitude and longitude in
// degrees, height in metres on the WGS-84 ellipsoid and least elevation in degrees, it is a line for each
// pass and the number of passes. Or `refused` and the number. Bad lines are named on standard error, and
// then nothing is printed.
#![tactic(auto)]

use printing::print_refused;
use station_answers::answer;
use station_lines::pair::read_pair;
use station_lines::{read_call, tell_faults};

fn main(rt: HostRuntime) {
    let mut failed = false;
    let mut numbers = [0f64; 83];
    let mut marks = [0u32; 6];
    let mut buffer = [0u8; 4096];
    let mut line = [0u8; 4096];
    let mut first = [0u8; 70];
    let pair = read_pair(
        rt,
        &mut failed,
        &mut first,
        &mut buffer,
        &mut line,
        &mut numbers,
        &mut marks,
    );
    let input = pair.input;
    let call = read_call(rt, &mut failed, input, &mut buffer);
    if failed {
        return;
    }
    if !tell_faults(rt, call) {
        return;
    }
    if pair.refusal != 0 {
        print_refused(rt, &mut failed, pair.refusal);
        return;
    }
    answer(rt, &mut failed, &mut numbers, &mut marks, call);
}
