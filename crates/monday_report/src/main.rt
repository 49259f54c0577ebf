// The Monday report (document 02, wish 4): reads a text of pairs from standard input, in whatever
// pieces it comes, and prints thirteen lines, or `refused` and the number.
#![tactic(auto)]

mod lines; // the report, printed

ghost use Rattle.report.specs.State.{begun, More};

use lines::print_report;
use report::State;

// A proved loop has to end, and nothing says that the input does: no run uses up so many turns.
fn read_all(rt: HostRuntime, failed: &mut bool) -> State
    ensures { More begun result }
{
    let mut buffer = [0u8; 4096];
    let mut state = State::start();
    for _ in 0..u64::MAX {
        let n = streams::read(rt, failed, &mut buffer);
        if n == 0 {
            break;
        }
        state = state.feed(&buffer[..n]);
    }
    state
}

// The buffer of 4096 bytes has room for every report's text, which is 466 bytes at most.
fn main(rt: HostRuntime) {
    let mut failed = false;
    let state = read_all(rt, &mut failed);
    let mut out = [0u8; 4096];
    let printed = print_report(state.finish(), &mut out);
    let Some(n) = printed else {
        return;
    };
    streams::print_room(rt, &mut failed, &out, n);
}
