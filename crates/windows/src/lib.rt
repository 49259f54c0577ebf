// Windows above a station: the runs of visible samples that cannot be made longer (document 02, wish 10).
// The samples are put to the satellite as one list; crate runs has what windows are.
#![tactic(auto)]

ghost use Rattle.std.specs.Prelude.{◌≡◌, cond, ◌+◌, ◌*◌, ◌/◌, ◌≤◌, ◌<◌, min, length};
ghost use Rattle.std.proofs.Math.IntN.{sub_ℕ};
ghost use Rattle.windows.specs.Windows as W;
ghost use Rattle.windows.specs.Scan as S;
ghost use Rattle.windows.specs.Answer as C;

use elementary::is_finite;
use instant::{Instant, Microseconds, Strides};
use opening::opening::Satellite;
use requests::request_list;

// A whole number of seconds.
#[derive(Clone, Copy)]
pub struct Seconds(pub u64);

// Whether a row is answered and its position, at that instant, stands above the station.
fn sees(station: [f64; 3], t: u64, refusal: u8, x: f64, y: f64, z: f64) -> bool
    ensures { result ≡ W.sees station t refusal x y z }
{
    if refusal != 0 {
        return false;
    }
    earth_fixed::seen(station, Instant(t), [x, y, z])
}

// The run of visible samples that is open, if one is: the instants of its first sample and of its last
// so far.
#[derive(Clone, Copy)]
struct Track {
    on: bool,
    first: u64,
    last: u64,
}

fn further(r: Track, t: u64) -> Track
    ensures { result ≡ S.further_of r t }
{
    if r.on {
        return Track {
            on: true,
            first: r.first,
            last: t,
        };
    }
    Track {
        on: true,
        first: t,
        last: t,
    }
}

// The run that is open, written as window n.
fn put(firsts: &mut [u64], lasts: &mut [u64], n: usize, r: Track) -> usize
    requires on_in_bounds { n + cond r.on 1 0 ≤ length firsts.old }
    requires on_in_bounds_2 { n + cond r.on 1 0 ≤ length lasts.old }
    requires n_bound { n ≤ 1024 }
    ensures { S.Put r n firsts.old lasts.old result firsts.new lasts.new }
{
    if r.on {
        firsts[n] = r.first;
        lasts[n] = r.last;
        return n + 1;
    }
    n
}

// The windows of k rows: how many, with their instants at the front of `firsts` and `lasts`.
fn scan(
    station: [f64; 3],
    start: u64,
    step: u64,
    k: usize,
    refusals: &[u8],
    states: &[f64],
    firsts: &mut [u64],
    lasts: &mut [u64],
) -> usize
    requires start_bound { start < 3155760000000000 }
    requires step_bound { step ≤ 86400 }
    requires k_bound { k ≤ 1024 }
    requires k_in_bounds { k ≤ length refusals.now }
    requires k_in_bounds_2 { 6 * k ≤ length states.now }
    requires k_in_bounds_3 { (k + 1) / 2 ≤ length firsts.old }
    requires k_in_bounds_4 { (k + 1) / 2 ≤ length lasts.old }
    ensures { S.Written (S.windows_to (S.is_seen station start step refusals.now states.now) (S.instant_at start step) k) firsts.old lasts.old result firsts.new lasts.new }
{
    let mut n = 0;
    let mut run = Track {
        on: false,
        first: 0,
        last: 0,
    };
    for i in 0..k {
        let t = start + i as u64 * step * 1000000;
        let refusal = refusals[i];
        let x = states[6 * i];
        let y = states[6 * i + 1];
        let z = states[6 * i + 2];
        if sees(station, t, refusal, x, y, z) {
            run = further(run, t);
        } else {
            n = put(firsts, lasts, n, run);
            run = Track {
                on: false,
                first: 0,
                last: 0,
            };
        }
    }
    put(firsts, lasts, n, run)
}

// The time from an epoch to an instant of the calendar. The epoch of a satellite in lent memory may lie
// outside it.
fn time_since(t: u64, epoch: u64) -> i64
    requires t_bound { t < 3155760000000000 }
    requires epoch_bound { epoch ≤ 3471292800000000 }
    ensures { result ≡ sub_ℕ t epoch }
{
    t as i64 - epoch as i64
}

// The times since the epoch of the samples inside the calendar, which are the first ones, at the
// front of a room; how many.
fn fill_times(epoch: u64, start: u64, step: u64, samples: usize, times: &mut [i64]) -> usize
    requires epoch_bound { epoch ≤ 3471292800000000 }
    requires step_bound { step ≤ 86400 }
    requires samples_bound { samples ≤ 1024 }
    requires samples_in_bounds { samples ≤ length times.old }
    ensures { C.Times epoch start step samples result times.new }
{
    let mut t = start;
    for k in 0..samples {
        if t >= 3155760000000000 {
            return k;
        }
        times[k] = time_since(t, epoch);
        t += step * 1000000;
    }
    samples
}

// How many windows there are, with the satellite to be handed to the next.
#[derive(Clone, Copy)]
struct Looked {
    windows: usize,
    strides: Strides,
    satellite: Satellite,
}

// The samples put to the satellite as a list, and their windows, in rooms that are long enough.
fn look(
    satellite: Satellite,
    epoch: u64,
    station: [f64; 3],
    start: u64,
    step: u64,
    samples: usize,
    firsts: &mut [u64],
    lasts: &mut [u64],
) -> Looked
    requires epoch_bound { epoch ≤ 3471292800000000 }
    requires step_bound { step ≤ 86400 }
    requires samples_bound { samples ≤ 1024 }
    requires samples_in_bounds { (samples + 1) / 2 ≤ length firsts.old }
    requires samples_in_bounds_2 { (samples + 1) / 2 ≤ length lasts.old }
    ensures { C.Looks satellite epoch station (W.instants_from start step 0 samples) firsts.old lasts.old result firsts.new lasts.new }
{
    let mut times = [0i64; 1024];
    let k = fill_times(epoch, start, step, samples, &mut times);
    if k == 0 {
        return Looked {
            windows: 0,
            strides: Strides(0),
            satellite,
        };
    }
    let mut refusals = [0u8; 1024];
    let mut states = [0.0; 6144];
    let mut rounds = [0u8; 1024];
    let a = request_list(
        satellite,
        &times[..k],
        &mut refusals,
        &mut states,
        &mut rounds,
    );
    let windows = scan(station, start, step, k, &refusals, &states, firsts, lasts);
    let strides = a.strides;
    let satellite = a.satellite;
    Looked {
        windows,
        strides,
        satellite,
    }
}

fn bad_station(p: [f64; 3]) -> bool
    ensures { result ≡ W.bad_station p }
{
    (p[0] == 0.0) & (p[1] == 0.0) & (p[2] == 0.0)
        | !(is_finite(p[0]) & is_finite(p[1]) & is_finite(p[2]))
}

// The number that a call is refused with, before any sample, where the memory lent is too short or not;
// 0 where it is not.
pub fn call_refusal(station: [f64; 3], step: Seconds, samples: usize, short: bool) -> u8
    ensures { result ≡ W.refusal_of station step.0 samples short }
{
    let seconds = step.0;
    if bad_station(station) {
        return 25;
    }
    if seconds == 0 {
        return 26;
    }
    if 86400 < seconds {
        return 26;
    }
    if 1024 < samples {
        return 18;
    }
    if short {
        return 17;
    }
    0
}

// Fewer places than half the samples, rounded up, in either room.
fn few_places(samples: usize, a: usize, b: usize) -> bool
    ensures { result ≡ W.few_places samples (min a b) }
{
    a.min(b) < samples.div_ceil(2)
}

// An epoch so late that every instant of the calendar is too far from it stands for all later ones.
fn near_epoch(epoch: u64) -> u64
    ensures { result ≡ min epoch 3471292800000000 }
{
    epoch.min(3471292800000000)
}

// The refusal number (0 when answered), how many windows there are, and the strides of all samples,
// with the satellite to be handed to the next.
#[derive(Clone, Copy)]
pub struct WindowsAnswer {
    pub refusal: u8,
    pub windows: usize,
    pub strides: Strides,
    pub satellite: Satellite,
}

// The windows of a satellite above a station, in time order: the instants of their first samples at
// the front of `firsts`, of their last samples at the front of `lasts`. What lies past them stays.
pub fn windows(
    satellite: Satellite,
    station: [f64; 3],
    start: Instant,
    step: Seconds,
    samples: usize,
    firsts: &mut [u64],
    lasts: &mut [u64],
) -> WindowsAnswer
    ensures { C.WindowsPost satellite (C.call_of station start.0 step.0 samples (length firsts.old) (length lasts.old)) firsts.old lasts.old result firsts.new lasts.new }
{
    let from = start.0;
    let seconds = step.0;
    let short = few_places(samples, firsts.len(), lasts.len());
    let refusal = call_refusal(station, step, samples, short);
    if refusal != 0 {
        return WindowsAnswer {
            refusal,
            windows: 0,
            strides: Strides(0),
            satellite,
        };
    }
    let opened = near_epoch(satellite.model.epoch.0);
    let l = look(
        satellite, opened, station, from, seconds, samples, firsts, lasts,
    );
    let windows = l.windows;
    let strides = l.strides;
    let after = l.satellite;
    WindowsAnswer {
        refusal,
        windows,
        strides,
        satellite: after,
    }
}
