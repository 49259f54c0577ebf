// The lines of `station_windows` from standard input: the pair, opened (module `pair`), and lines 3 to 6, the
// bad ones named on standard error. As in streams, a failure stays marked.
#![tactic(auto)]

pub mod pair;

ghost use Rattle.std.specs.Prelude.{◌≡◌, true, eqb, length};
ghost use Rattle.station_call.specs.Call.{faults_text};

use line_input::{Input, next_line, whole_in};
use station_call::{Call, put_faults};

// A line that the input does not have is empty, and so is one that is longer than its room.
pub fn read_call(rt: HostRuntime, failed: &mut bool, input: Input, buffer: &mut [u8; 4096]) -> Call
    ensures { failed.old ≡ true → failed.new ≡ true }
{
    let mut place = [0u8; 4096];
    let mut start = [0u8; 4096];
    let mut step = [0u8; 4096];
    let mut count = [0u8; 4096];
    let next = next_line(rt, failed, input, buffer, &mut place);
    let input = next.input;
    let k = whole_in(next.size, &place);
    let next = next_line(rt, failed, input, buffer, &mut start);
    let input = next.input;
    let l = whole_in(next.size, &start);
    let next = next_line(rt, failed, input, buffer, &mut step);
    let input = next.input;
    let m = whole_in(next.size, &step);
    let next = next_line(rt, failed, input, buffer, &mut count);
    let n = whole_in(next.size, &count);
    station_call::read_call(&place[..k], &start[..l], &step[..m], &count[..n])
}

// Whether every line has its form. Those that have not are named on standard error.
pub fn tell_faults(rt: HostRuntime, call: Call) -> bool
    ensures { result ≡ eqb (length (faults_text call)) 0 }
{
    let mut out = [0u8; 128];
    let n = put_faults(&mut out, 0, call);
    if n == 0 {
        return true;
    }
    if n <= 128 {
        streams::tell(rt, &out[0..n]);
    }
    false
}
