// A call for windows put to a satellite in memory that a caller lends: the function behind
// `saddlekerf_windows`.
#![tactic(auto)]

ghost use Rattle.std.specs.Prelude.{◌≡◌, ◌%◌};
ghost use Rattle.earth_fixed.specs.Frame.{at};
ghost use Rattle.answers.specs.Answer.{answer};
ghost use Rattle.lent_windows.specs.Windows as W;

use answers::answer;
use instant::Instant;
use lent_requests::put_saved;
use storage::load;
use windows::{Seconds, call_refusal, windows};

// An element of a lent station; not a number where there is none.
pub fn element(station: &[f64], i: usize) -> f64
    ensures { result ≡ at station.now i }
{
    station.get(i).copied().unwrap_or(0.0 / 0.0)
}

// Three elements of a lent station: one that has fewer is not finite.
fn station_of(station: &[f64]) -> [f64; 3]
    ensures { result ≡ W.station_of station.now }
{
    let x = element(station, 0);
    let y = element(station, 1);
    let z = element(station, 2);
    [x, y, z]
}

// Asks the satellite in memory for its windows above a station. There are at most 512 windows.
pub fn windows_held(
    numbers: &mut [f64],
    marks: &mut [u32],
    station: &[f64],
    start: u64,
    step: u64,
    samples: usize,
    firsts: &mut [u64],
    lasts: &mut [u64],
) -> u64
    ensures { W.WindowsPost numbers.old marks.old station.now start step samples firsts.old lasts.old result numbers.new marks.new firsts.new lasts.new }
{
    let p = station_of(station);
    match load(numbers, marks) {
        Some(s) => {
            let a = windows(s, p, Instant(start), Seconds(step), samples, firsts, lasts);
            let count = (a.windows % 65536) as u16;
            put_saved(
                a.refusal,
                count,
                a.strides,
                a.satellite.place,
                numbers,
                marks,
            )
        }
        None => answer(call_refusal(p, Seconds(step), samples, true), 0, 0, 0),
    }
}
