// The pairs of a text on standard input explained, each by the numbers of its lines, and at the end how many
// there were. Of a long text it is told on standard error how far it is. As in streams, a failure stays
// marked.
ghost use Rattle.std.specs.Prelude.{◌≡◌, true};
ghost use Rattle.text.specs.Output.{Put};
ghost use Rattle.explain.specs.Told.{told_text, counted_with};

use explanation::{is_well, put_explanation, put_progress};
use line_input::{Input, whole_in};
use pair_input::next_step;
use pair_lines::{put_heading, put_summary};
use pair_steps::{Pairs, Step, What, more};
use streams::print_room;

// The pairs and those that are well so far.
#[derive(Clone, Copy)]
pub(crate) struct Tally {
    pub pairs: u64,
    pub well: u64,
}

fn counted(t: Tally, well: bool) -> Tally
    ensures { result ≡ counted_with t well }
{
    let pairs = more(t.pairs);
    if well {
        return Tally {
            pairs,
            well: more(t.well),
        };
    }
    Tally {
        pairs,
        well: t.well,
    }
}

fn put_told(out: &mut [u8], first: u64, second: u64, line1: &[u8], line2: &[u8]) -> usize
    ensures { Put out.old 0 (told_text first second line1.now line2.now) out.new result }
{
    let p = put_heading(out, 0, first, second);
    put_explanation(out, p, line1, line2)
}

// A line for every 10,000 pairs.
fn tell_progress(rt: HostRuntime, pairs: u64) {
    if pairs % 10000 == 0 {
        let mut out = [0u8; 64];
        let n = put_progress(&mut out, 0, pairs);
        if n <= out.len() {
            streams::tell(rt, &out[0..n]);
        }
    }
}

// The explanation of a pair, with its heading, has 600 bytes at most.
fn explain_pair(
    rt: HostRuntime,
    failed: &mut bool,
    t: Tally,
    first: u64,
    second: u64,
    line1: &[u8],
    line2: &[u8],
) -> Tally
    ensures { failed.old ≡ true → failed.new ≡ true }
{
    let mut out = [0u8; 1024];
    let n = put_told(&mut out, first, second, line1, line2);
    print_room(rt, failed, &out, n);
    let t = counted(t, is_well(line1, line2));
    tell_progress(rt, t.pairs);
    t
}

// A pair is explained; what is said of a line that is in none has 163 bytes at most.
fn take_step(
    rt: HostRuntime,
    failed: &mut bool,
    t: Tally,
    step: Step,
    line1: &[u8],
    line2: &[u8],
    out: &[u8],
) -> Tally
    ensures { failed.old ≡ true → failed.new ≡ true }
{
    let what = step.what;
    match what {
        What::Pair(n, m) => {
            let pairs = step.pairs;
            let n = whole_in(n, line1);
            let m = whole_in(m, line2);
            explain_pair(
                rt,
                failed,
                t,
                step.first,
                pairs.lines,
                &line1[..n],
                &line2[..m],
            )
        }
        What::Said(n) => {
            print_room(rt, failed, out, n);
            t
        }
        What::Over => t,
    }
}

fn print_summary(rt: HostRuntime, failed: &mut bool, lines: u64, t: Tally)
    ensures { failed.old ≡ true → failed.new ≡ true }
{
    let mut out = [0u8; 128];
    let n = put_summary(&mut out, 0, lines, t.pairs, t.well);
    print_room(rt, failed, &out, n);
}

// A proved loop has to end, and nothing says that the input does: no run uses up so many turns.
pub(crate) fn explain_text(rt: HostRuntime, failed: &mut bool)
    ensures { failed.old ≡ true → failed.new ≡ true }
{
    let mut buffer = [0u8; 4096];
    let mut line1 = [0u8; 4096];
    let mut line = [0u8; 4096];
    let mut out = [0u8; 256];
    let mut input = Input::start();
    let mut pairs = Pairs::start();
    let mut t = Tally { pairs: 0, well: 0 };
    for _ in 0..u64::MAX {
        let next = next_step(
            rt,
            failed,
            input,
            pairs,
            &mut buffer,
            &mut line1,
            &mut line,
            &mut out,
        );
        input = next.input;
        let step = next.step;
        pairs = step.pairs;
        let what = step.what;
        if what.is_over() {
            print_summary(rt, failed, pairs.lines, t);
            return;
        }
        t = take_step(rt, failed, t, step, &line1, &line, &out);
    }
}
