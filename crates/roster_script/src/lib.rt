// A whole script of calls, run on a roster in a lent buffer and the row beside it: the total of running code.
#![tactic(auto)]

ghost use Rattle.std.specs.Prelude.{◌≡◌, ◌++◌, ◌+◌, ◌/◌, ◌≤◌, leb, ltb, length, drop};
ghost use Rattle.roster_script.specs.Total.{lent, answer_to, after, answers_to, after_all};
ghost use Rattle.roster_script.specs.Script.{call_of, taken, script, needed, ran_number, Post};

use roster_calls::{fill_row, filling_number, lodge, lodging_number, withdraw, withdrawal_number};

// What became of a script: run; or not begun, for want of text or of room for the answers (17).
#[derive(Clone, Copy)]
pub enum Ran {
    Done,
    Short,
}

impl Ran {
    // Document 01's number of the answer, 0 where the script was run.
    pub fn number(self) -> u64
        ensures { result ≡ ran_number self }
    {
        match self {
            Ran::Done => 0,
            Ran::Short => 17,
        }
    }
}

// Whether a call's lines have more bytes than are left.
fn exceeds(left: usize, kind: usize, a: usize, b: usize) -> bool
    ensures { result ≡ ltb left (taken kind a b) }
{
    if kind != 0 {
        return false;
    }
    if left < a {
        return true;
    }
    left - a < b
}

// The bytes of a call's lines.
fn lines_taken(left: usize, kind: usize, a: usize, b: usize) -> usize
    requires { taken kind a b ≤ left }
    ensures { result ≡ taken kind a b }
{
    if kind != 0 {
        return 0;
    }
    a + b
}

// Whether the lines of all calls together have at most `room` bytes.
fn fits(calls: &[usize], room: usize) -> bool
    ensures { result ≡ leb (needed calls.now) room }
{
    let mut left = room;
    for j in 0..calls.len() / 3 {
        let i = 3 * j;
        let kind = calls[i];
        let a = calls[i + 1];
        let b = calls[i + 2];
        if exceeds(left, kind, a, b) {
            return false;
        }
        left -= lines_taken(left, kind, a, b);
    }
    true
}

// One call; its lines come after the first `at` bytes of the text.
fn step(
    roster: &mut [u8],
    row: &mut [u64],
    kind: usize,
    a: usize,
    b: usize,
    text: &[u8],
    at: usize,
) -> u64
    requires { at + taken kind a b ≤ length text.now }
    ensures { (result ≡ answer_to (lent roster.old row.old) (call_of kind a b (drop at text.now))) × (lent roster.new row.new ≡ after (lent roster.old row.old) (call_of kind a b (drop at text.now))) }
{
    if kind == 1 {
        return withdrawal_number(withdraw(roster, row, a as u64));
    }
    if kind != 0 {
        return filling_number(fill_row(roster, row));
    }
    let half = at + a;
    let end = half + b;
    lodging_number(lodge(roster, row, &text[at..half], &text[half..end]))
}

// Every call of a script, one after the other.
fn run_all(roster: &mut [u8], row: &mut [u64], calls: &[usize], text: &[u8], answers: &mut [u64])
    requires { (needed calls.now ≤ length text.now) × (length calls.now / 3 ≤ length answers.old) }
    ensures { (lent roster.new row.new ≡ after_all (lent roster.old row.old) (script calls.now text.now)) × (answers.new ≡ answers_to (lent roster.old row.old) (script calls.now text.now) ++ drop (length (script calls.now text.now)) answers.old) }
{
    let mut at = 0;
    for j in 0..calls.len() / 3 {
        let i = 3 * j;
        let kind = calls[i];
        let a = calls[i + 1];
        let b = calls[i + 2];
        answers[j] = step(roster, row, kind, a, b, text, at);
        at += lines_taken(text.len(), kind, a, b);
    }
}

// Runs the calls, each of three numbers: 0 and the lengths of two lines to lodge, which come next in the
// text; 1, a catalogue number to withdraw, and one that is not looked at; or any other number, to fill the
// row, and two that are not looked at. The number of each call's answer goes to the front of `answers`.
pub fn run_script(
    roster: &mut [u8],
    row: &mut [u64],
    calls: &[usize],
    text: &[u8],
    answers: &mut [u64],
) -> Ran
    ensures { Post roster.old row.old calls.now text.now answers.old result roster.new row.new answers.new }
{
    if !fits(calls, text.len()) {
        return Ran::Short;
    }
    if answers.len() < calls.len() / 3 {
        return Ran::Short;
    }
    run_all(roster, row, calls, text, answers);
    Ran::Done
}
