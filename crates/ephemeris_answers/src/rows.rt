// A request's line of `ephemeris` answered on standard output, or named on standard error where it is
// none. Rows gather in a room, which is printed when it is full and at the end of the request. As in
// streams, a failure stays marked.
ghost use Rattle.std.specs.Prelude.{◌≡◌, true, ◌≤◌};

use crate::{Sheet, put_at, put_time};
use ephemeris_requests::{Ask, Fault, Grid, put_fault, read_ask, time_at};
use streams::print_room;

// Where the next line may stand: no line has more than 300 bytes (RowFits of ephemeris_text).
fn with_room(rt: HostRuntime, failed: &mut bool, room: &[u8], at: usize) -> usize
    ensures { failed.old ≡ true → failed.new ≡ true }
{
    if at > 65000 {
        print_room(rt, failed, room, at);
        return 0;
    }
    at
}

// The row of one time.
fn add_time(
    rt: HostRuntime,
    failed: &mut bool,
    room: &mut [u8],
    at: usize,
    sheet: Sheet,
    time: i64,
    numbers: &mut [f64; 83],
    marks: &mut [u32; 6],
) -> usize
    ensures { failed.old ≡ true → failed.new ≡ true }
{
    let at = with_room(rt, failed, room, at);
    put_time(room, at, sheet, time, numbers, marks)
}

fn add_times(
    rt: HostRuntime,
    failed: &mut bool,
    room: &mut [u8],
    sheet: Sheet,
    times: &[i64],
    numbers: &mut [f64; 83],
    marks: &mut [u32; 6],
) -> usize
    ensures { failed.old ≡ true → failed.new ≡ true }
{
    let mut at = 0;
    for time in times {
        at = add_time(rt, failed, room, at, sheet, *time, numbers, marks);
    }
    at
}

fn add_grid(
    rt: HostRuntime,
    failed: &mut bool,
    room: &mut [u8],
    sheet: Sheet,
    grid: Grid,
    numbers: &mut [f64; 83],
    marks: &mut [u32; 6],
) -> usize
    ensures { failed.old ≡ true → failed.new ≡ true }
{
    let mut at = 0;
    for i in 0..grid.count {
        if *failed {
            return at;
        }
        let time = time_at(grid, i);
        at = add_time(rt, failed, room, at, sheet, time.0, numbers, marks);
    }
    at
}

fn tell(rt: HostRuntime, number: u64, why: Fault) {
    let mut out = [0u8; 128];
    let n = put_fault(&mut out, 0, number, why);
    if n <= 128 {
        streams::tell(rt, &out[0..n]);
    }
}

fn rows_of(
    rt: HostRuntime,
    failed: &mut bool,
    sheet: Sheet,
    number: u64,
    line: &[u8],
    room: &mut [u8],
    numbers: &mut [f64; 83],
    marks: &mut [u32; 6],
) -> usize
    ensures { failed.old ≡ true → failed.new ≡ true }
{
    let mut times = [0i64; 1100];
    match read_ask(line, &mut times) {
        // No list that is read is longer than the row for its times.
        Ask::Times(n) => {
            let n = n.min(times.len());
            add_times(rt, failed, room, sheet, &times[..n], numbers, marks)
        }
        Ask::Steps(grid) => add_grid(rt, failed, room, sheet, grid, numbers, marks),
        Ask::At(t) => put_at(room, 0, sheet, t, numbers, marks),
        Ask::Bad(why) => {
            tell(rt, number, why);
            0
        }
    }
}

// The line of such a number.
pub fn answer(
    rt: HostRuntime,
    failed: &mut bool,
    sheet: Sheet,
    number: u64,
    line: &[u8],
    room: &mut [u8],
    numbers: &mut [f64; 83],
    marks: &mut [u32; 6],
)
    ensures { failed.old ≡ true → failed.new ≡ true }
{
    let at = rows_of(rt, failed, sheet, number, line, room, numbers, marks);
    print_room(rt, failed, room, at);
}
