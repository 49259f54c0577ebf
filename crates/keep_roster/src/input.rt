// The pairs of a text on standard input lodged in the roster of a file, each told by the numbers of its
// lines, and at the end how many there were. As in streams, a failure stays marked.
ghost use Rattle.std.specs.Prelude.{◌≡◌, true};
ghost use Rattle.text.specs.Output.{Put};
ghost use Rattle.keep_roster.specs.Told.{told_text, is_lodged, counted_with};

use line_input::{Input, whole_in};
use pair_input::next_step;
use pair_lines::put_heading;
use pair_steps::{Pairs, Step, What, more};
use roster_calls::LodgingRefusal;
use roster_file::lodge_in;
use roster_words::{put_lodging, put_total};
use streams::print_room;

#[derive(Clone, Copy)]
pub(crate) struct Tally {
    pub pairs: u64,
    pub lodged: u64,
}

fn is_lodged(answer: Result<(), LodgingRefusal>) -> bool
    ensures { result ≡ is_lodged answer }
{
    match answer {
        Ok(()) => true,
        Err(_) => false,
    }
}

fn counted(t: Tally, lodged: bool) -> Tally
    ensures { result ≡ counted_with t lodged }
{
    let pairs = more(t.pairs);
    if lodged {
        return Tally {
            pairs,
            lodged: more(t.lodged),
        };
    }
    Tally {
        pairs,
        lodged: t.lodged,
    }
}

fn put_told(
    out: &mut [u8],
    first: u64,
    second: u64,
    answer: Result<(), LodgingRefusal>,
    line1: &[u8],
    line2: &[u8],
) -> usize
    ensures { Put out.old 0 (told_text first second answer line1.now line2.now) out.new result }
{
    let p = put_heading(out, 0, first, second);
    put_lodging(out, p, answer, line1, line2)
}

// One pair lodged, and told. An answer with its heading has 600 bytes at most.
fn take_pair(
    rt: HostRuntime,
    failed: &mut bool,
    name: &[u8],
    t: Tally,
    first: u64,
    second: u64,
    line1: &[u8],
    line2: &[u8],
) -> Tally
    ensures { failed.old ≡ true → failed.new ≡ true }
{
    let answer = lodge_in(rt, failed, name, line1, line2);
    let mut out = [0u8; 1024];
    let n = put_told(&mut out, first, second, answer, line1, line2);
    print_room(rt, failed, &out, n);
    counted(t, is_lodged(answer))
}

// A pair is lodged; what is said of a line that is in none has 163 bytes at most.
fn take_step(
    rt: HostRuntime,
    failed: &mut bool,
    name: &[u8],
    t: Tally,
    step: Step,
    line1: &[u8],
    line2: &[u8],
    out: &[u8],
) -> Tally
    ensures { failed.old ≡ true → failed.new ≡ true }
{
    let what = step.what;
    match what {
        What::Pair(n, m) => {
            let pairs = step.pairs;
            let n = whole_in(n, line1);
            let m = whole_in(m, line2);
            take_pair(
                rt,
                failed,
                name,
                t,
                step.first,
                pairs.lines,
                &line1[..n],
                &line2[..m],
            )
        }
        What::Said(n) => {
            print_room(rt, failed, out, n);
            t
        }
        What::Over => t,
    }
}

fn print_total(rt: HostRuntime, failed: &mut bool, lines: u64, t: Tally)
    ensures { failed.old ≡ true → failed.new ≡ true }
{
    let mut out = [0u8; 128];
    let n = put_total(&mut out, 0, lines, t.pairs, t.lodged);
    print_room(rt, failed, &out, n);
}

// A proved loop has to end, and nothing says that the input does: no run uses up so many turns.
pub(crate) fn lodge_text(rt: HostRuntime, failed: &mut bool, name: &[u8])
    ensures { failed.old ≡ true → failed.new ≡ true }
{
    let mut buffer = [0u8; 4096];
    let mut line1 = [0u8; 4096];
    let mut line = [0u8; 4096];
    let mut out = [0u8; 256];
    let mut input = Input::start();
    let mut pairs = Pairs::start();
    let mut t = Tally {
        pairs: 0,
        lodged: 0,
    };
    for _ in 0..u64::MAX {
        let next = next_step(
            rt,
            failed,
            input,
            pairs,
            &mut buffer,
            &mut line1,
            &mut line,
            &mut out,
        );
        input = next.input;
        let step = next.step;
        pairs = step.pairs;
        let what = step.what;
        if what.is_over() {
            print_total(rt, failed, pairs.lines, t);
            return;
        }
        t = take_step(rt, failed, name, t, step, &line1, &line, &out);
    }
}
