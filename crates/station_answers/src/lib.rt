// What `station_windows` answers on standard output: the windows above an Earth-fixed station, or the passes
// over a geodetic one. As in streams, a failure stays marked.
#![tactic(auto)]

pub mod pass_lines; // the passes as lines, and printed

ghost use Rattle.std.specs.Prelude.{◌≡◌, true, min};

use geodetic::Geodetic;
use instant::{Degrees, Instant};
use lent_windows::windows_held;
use pass_lines::print_passes;
use printing::print_refused;
use station_call::{Call, Place, Samples, samples_of};
use station_text::{put_window, samples_in};
use storage::load;
use streams::print_room;
use text::put_line;

// ---- Windows.

fn print_window(rt: HostRuntime, failed: &mut bool, first: u64, last: u64, step: u64)
    ensures { failed.old ≡ true → failed.new ≡ true }
{
    let mut out = [0u8; 128];
    let samples = samples_in(Instant(first), Instant(last), step);
    let n = put_window(&mut out, 0, Instant(first), Instant(last), samples);
    print_room(rt, failed, &out, n);
}

// The first `count` windows of the rooms, a line each.
fn print_windows(
    rt: HostRuntime,
    failed: &mut bool,
    firsts: &[u64; 512],
    lasts: &[u64; 512],
    count: u64,
    step: u64,
)
    ensures { failed.old ≡ true → failed.new ≡ true }
{
    for (first, last) in firsts.iter().zip(lasts).take(count as usize) {
        print_window(rt, failed, *first, *last, step);
    }
}

fn print_strides(rt: HostRuntime, failed: &mut bool, strides: u64)
    ensures { failed.old ≡ true → failed.new ≡ true }
{
    let mut out = [0u8; 64];
    let n = put_line(&mut out, 0, b"strides ", strides);
    print_room(rt, failed, &out, n);
}

// An answer has its refusal in bits 0-7, the number of windows in bits 16-31 and the strides above.
fn answer_windows(
    rt: HostRuntime,
    failed: &mut bool,
    numbers: &mut [f64; 83],
    marks: &mut [u32; 6],
    station: [f64; 3],
    samples: Samples,
)
    ensures { failed.old ≡ true → failed.new ≡ true }
{
    let mut firsts = [0u64; 512];
    let mut lasts = [0u64; 512];
    let start = samples.start;
    let step = samples.step;
    let count = samples.count as usize;
    let a = windows_held(
        numbers,
        marks,
        &station,
        start.0,
        step,
        count,
        &mut firsts,
        &mut lasts,
    );
    if a % 256 != 0 {
        print_refused(rt, failed, a % 256);
        return;
    }
    print_windows(rt, failed, &firsts, &lasts, a / 65536 % 65536, step);
    print_strides(rt, failed, a / 4294967296);
}

// ---- Passes.

// The calendar has fewer seconds than a u32 counts, so that no more samples are ever gone through.
fn capped(n: u64) -> u32
    ensures { result ≡ min n 4294967295 }
{
    n.min(4294967295) as u32
}

fn answer_passes(
    rt: HostRuntime,
    failed: &mut bool,
    numbers: &[f64; 83],
    marks: &[u32; 6],
    station: Geodetic,
    least: Degrees,
    samples: Samples,
)
    ensures { failed.old ≡ true → failed.new ≡ true }
{
    let start = samples.start;
    let count = capped(samples.count);
    match load(numbers, marks) {
        Some(s) => { print_passes(rt, failed, s, station, least, start.0, samples.step, count) }
        None => print_refused(rt, failed, 17),
    }
}

// ---- The call.

fn answer_at(
    rt: HostRuntime,
    failed: &mut bool,
    numbers: &mut [f64; 83],
    marks: &mut [u32; 6],
    place: Place,
    samples: Samples,
)
    ensures { failed.old ≡ true → failed.new ≡ true }
{
    match place {
        Place::Fixed { x, y, z } => answer_windows(rt, failed, numbers, marks, [x, y, z], samples),
        Place::Over { station, least } => {
            answer_passes(rt, failed, numbers, marks, station, least, samples)
        }
        Place::Unread => {}
    }
}

// The answer of the satellite in memory; none where a line was not read.
pub fn answer(
    rt: HostRuntime,
    failed: &mut bool,
    numbers: &mut [f64; 83],
    marks: &mut [u32; 6],
    call: Call,
)
    ensures { failed.old ≡ true → failed.new ≡ true }
{
    let place = call.place;
    match samples_of(call) {
        Some(samples) => answer_at(rt, failed, numbers, marks, place, samples),
        None => {}
    }
}
