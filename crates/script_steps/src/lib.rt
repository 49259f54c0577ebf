// The requests of a script in lent memory, put to a satellite one after the other: single times, lists
// and calls for windows.
#![tactic(auto)]

ghost use Rattle.std.specs.Prelude.{◌≡◌, ◌+◌, ◌-◌, ◌*◌, ◌/◌, ◌≤◌, true, length};
ghost use Rattle.sequences.specs.Demand3 as D;
ghost use Rattle.script_room.specs.Room as R;
ghost use Rattle.script_steps.specs.Steps as T;

use instant::{Instant, Strides};
use opening::opening::Satellite;
use requests::request_list;
use script_room::{added, suffices, taken};
use windows::{Seconds, windows};

#[derive(Clone, Copy)]
struct Stepped {
    satellite: Satellite,
    strides: Strides,
    rows: usize,
}

// The next request: its times are put as one list, which is lent what is left of the rooms. One time is
// a list of one (`one_alike` of proofs/Rooms); a call for windows
// has none.
fn step(
    s: Satellite,
    times: &[i64],
    rows: usize,
    refusals: &mut [u8],
    states: &mut [f64],
    rounds: &mut [u8],
) -> Stepped
    requires rows_in_bounds { rows ≤ length refusals.old }
    requires rows_in_bounds_2 { 6 * rows ≤ length states.old }
    requires rows_in_bounds_3 { rows ≤ length rounds.old }
    ensures { T.Listed s (D.Many times.now (length refusals.old - rows) (length states.old - 6 * rows) (length rounds.old - rows)) rows refusals.old states.old rounds.old result.satellite result.strides.0 result.rows refusals.new states.new rounds.new }
{
    let k = 6 * rows;
    let a = request_list(
        s,
        times,
        &mut refusals[rows..],
        &mut states[k..],
        &mut rounds[rows..],
    );
    let satellite = a.satellite;
    let strides = a.strides;
    let rows = added(a.refusal, times.len());
    Stepped {
        satellite,
        strides,
        rows,
    }
}

// What a call for windows asks.
#[derive(Clone, Copy)]
struct Asked {
    station: [f64; 3],
    start: Instant,
    step: Seconds,
    samples: usize,
}

// What request j asks where it is a call.
fn call_at(j: usize, stations: &[f64], spans: &[u64]) -> Asked
    requires j_in_bounds { 3 * j + 3 ≤ length stations.now }
    requires j_in_bounds_2 { 3 * j + 3 ≤ length spans.now }
    ensures { result ≡ T.asked_at j stations.now spans.now }
{
    let k = 3 * j;
    let station = [stations[k], stations[k + 1], stations[k + 2]];
    Asked {
        station,
        start: Instant(spans[k]),
        step: Seconds(spans[k + 1]),
        samples: spans[k + 2] as usize,
    }
}

#[derive(Clone, Copy)]
struct Looked {
    satellite: Satellite,
    strides: Strides,
    windows: usize,
}

// Request j after its times, which took `strides`: where it is a call for windows, it is lent what is
// left of the rooms.
fn look(
    s: Satellite,
    strides: Strides,
    n: usize,
    j: usize,
    stations: &[f64],
    spans: &[u64],
    seen: usize,
    firsts: &mut [u64],
    lasts: &mut [u64],
) -> Looked
    requires j_in_bounds { 3 * j + 3 ≤ length stations.now }
    requires j_in_bounds_2 { 3 * j + 3 ≤ length spans.now }
    requires seen_in_bounds { seen ≤ length firsts.old }
    requires seen_in_bounds_2 { seen ≤ length lasts.old }
    ensures { T.Called n (T.call_at j stations.now spans.now (length firsts.old - seen) (length lasts.old - seen)) s strides.0 seen firsts.old lasts.old result.satellite result.strides.0 result.windows firsts.new lasts.new }
{
    if n != 1 {
        return Looked {
            satellite: s,
            strides,
            windows: 0,
        };
    }
    let q = call_at(j, stations, spans);
    let station = q.station;
    let a = windows(
        s,
        station,
        q.start,
        q.step,
        q.samples,
        &mut firsts[seen..],
        &mut lasts[seen..],
    );
    let satellite = a.satellite;
    let strides = a.strides;
    let windows = a.windows;
    Looked {
        satellite,
        strides,
        windows,
    }
}

// Every request of a script, one after the other.
fn run_all(
    first: Satellite,
    lengths: &[usize],
    times: &[i64],
    stations: &[f64],
    spans: &[u64],
    refusals: &mut [u8],
    states: &mut [f64],
    rounds: &mut [u8],
    firsts: &mut [u64],
    lasts: &mut [u64],
    strides: &mut [u32],
    found: &mut [usize],
)
    requires lengths_in_bounds { R.needed lengths.now ≤ length times.now }
    requires refusals_value { R.roomy lengths.now (length refusals.old) ≡ true }
    requires states_value { R.roomy lengths.now (length states.old / 6) ≡ true }
    requires rounds_value { R.roomy lengths.now (length rounds.old) ≡ true }
    requires lengths_in_bounds_2 { length lengths.now ≤ length strides.old }
    requires lengths_in_bounds_3 { length lengths.now ≤ length stations.now / 3 }
    requires lengths_in_bounds_4 { length lengths.now ≤ length spans.now / 3 }
    requires lengths_in_bounds_5 { length lengths.now ≤ length found.old }
    ensures { T.Left first (T.script first lengths.now 0 times.now stations.now spans.now (length refusals.old) (length states.old) (length rounds.old) (length firsts.old) (length lasts.old)) refusals.old states.old rounds.old firsts.old lasts.old strides.old found.old refusals.new states.new rounds.new firsts.new lasts.new strides.new found.new }
{
    let mut s = first;
    let mut at = 0;
    let mut rows = 0;
    let mut seen = 0;
    for (j, n) in lengths.iter().enumerate() {
        let end = at + taken(*n);
        let a = step(s, &times[at..end], rows, refusals, states, rounds);
        let b = look(
            a.satellite,
            a.strides,
            *n,
            j,
            stations,
            spans,
            seen,
            firsts,
            lasts,
        );
        strides[j] = b.strides.0;
        found[j] = b.windows;
        s = b.satellite;
        rows += a.rows;
        seen += b.windows;
        at = end;
    }
}

// Puts the requests of a script to a satellite, each to what the last gave back. Request j is one time
// (0 in `lengths`), a call for windows (1) or a list of n times (n + 2); the times are taken in order,
// and a call has three numbers of `stations` and three of `spans` (start, step, samples) at place j. The
// rows of all follow one another in the rooms, and so do the windows; a list and a call are lent what
// is left of them, and refused with 17 where that is too short. `strides` and `found` get one number for
// each request. False, and nothing is put, where the times or a room are too short.
pub fn run_requests(
    first: Satellite,
    lengths: &[usize],
    times: &[i64],
    stations: &[f64],
    spans: &[u64],
    refusals: &mut [u8],
    states: &mut [f64],
    rounds: &mut [u8],
    firsts: &mut [u64],
    lasts: &mut [u64],
    strides: &mut [u32],
    found: &mut [usize],
) -> bool
    ensures { T.Runs first lengths.now times.now stations.now spans.now refusals.old states.old rounds.old firsts.old lasts.old strides.old found.old result refusals.new states.new rounds.new firsts.new lasts.new strides.new found.new }
{
    if !suffices(
        lengths,
        times.len(),
        refusals.len(),
        states.len(),
        rounds.len(),
        strides.len(),
        stations.len(),
        spans.len(),
        found.len(),
    ) {
        return false;
    }
    run_all(
        first, lengths, times, stations, spans, refusals, states, rounds, firsts, lasts, strides,
        found,
    );
    true
}
