// Reads two lines from standard input, in whatever pieces they come, and prints the fields of the pair,
// or `refused` and the number (document 01, "One pair, printed").
#![tactic(auto)]

ghost use Rattle.text.specs.Input.{started, More};

use text::Lines;

// A proved loop has to end, and nothing says that the input does: no run uses up so many turns.
fn read_lines(rt: HostRuntime, failed: &mut bool) -> Lines
    ensures { More started result }
{
    let mut buffer = [0u8; 4096];
    let mut lines = Lines::start();
    for _ in 0..u64::MAX {
        let n = streams::read(rt, failed, &mut buffer);
        lines = lines.feed(&buffer[..n]);
        if n == 0 || lines.ended >= 2 {
            break;
        }
    }
    lines
}

// The buffer of 4096 bytes has room for every pair's text, which is 900 bytes at most.
fn main(rt: HostRuntime) {
    let mut failed = false;
    let lines = read_lines(rt, &mut failed);
    let mut out = [0u8; 4096];
    let printed = listing::print_lines(lines, &mut out);
    let Some(n) = printed else {
        return;
    };
    streams::print_room(rt, &mut failed, &out, n);
}
