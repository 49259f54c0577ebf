// Puts the lists of times of standard input in the best order, and prints them as they came in: a line
// each, `list` and the times with a blank before each. Input and expected output are made by
// tests/time_orders.py, which orders times by itself.
#![tactic(auto)]

use line_input::{Input, next_line, whole_in};
use outward_order::best_order;
use request_line::{Request, read_request};
use std::fmt;
use std::fmt::Display;
use streams::print_line;

// A list of times as the line that asks for it.
#[derive(Drop)]
struct Listed<'a>(&'a [i64]);

impl Display for Listed<'_> {
    fn fmt<W: fmt::Write>(&self, f: &mut fmt::Formatter<W>) -> fmt::Result {
        write!(f, "list")?;
        for time in self.0 {
            write!(f, " {time}")?;
        }
        Ok(())
    }
}

// A line that is no list of at most 1,200 times is told by a word.
fn answer_line(rt: HostRuntime, failed: &mut bool, line: &[u8]) {
    let mut times = [0i64; 1200];
    let request = read_request(line, &mut times);
    if let Request::List(n) = request {
        if n <= 1200 {
            let times = &mut times[0..n];
            best_order(times);
            print_line(rt, failed, Listed(times));
            return;
        }
    }
    print_line(rt, failed, "no list");
}

// A proved loop has to end, and nothing says that the input does: no run uses up so many turns.
fn main(rt: HostRuntime) {
    let mut failed = false;
    let mut buffer = [0u8; 4096];
    let mut line = [0u8; 65536];
    let mut input = Input::start();
    for _ in 0..u64::MAX {
        let next = next_line(rt, &mut failed, input, &mut buffer, &mut line);
        if !next.found {
            return;
        }
        input = next.input;
        let n = whole_in(next.size, &line);
        answer_line(rt, &mut failed, &line[..n]);
    }
}
