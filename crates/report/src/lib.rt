// The Monday report (document 02, wish 4): a text of pairs, counted as it comes in, in pieces of any
// size. Memory is fixed whatever the text: of the pair that has begun the first 70 bytes of each line,
// and the numbers of the report.
#![tactic(auto)]

pub mod numbers;

ghost use Rattle.std.specs.Prelude.{◌≡◌, ◌+◌, ◌<◌, ◌≤◌, length, take, drop};
ghost use Rattle.text.specs.Input.{line_of};
ghost use Rattle.report.specs.Report as R;
ghost use Rattle.report.specs.State as S;

use instant::Instant;
use lent_opening::open_record;
use listing::kept_size;
use text::{Line, Lines};
use tle::{Record, Refusal, epoch, read_form, read_meaning};

// An accepted record's epoch: its year and day, as the record has them, and its instant.
#[derive(Clone, Copy)]
pub struct Stamp {
    pub year: u64,
    pub day: u64,
    pub at: u64,
}

// The pairs refused under each number from 1 to 6.
#[derive(Clone, Copy)]
pub struct Refusals {
    pub one: u64,
    pub two: u64,
    pub three: u64,
    pub four: u64,
    pub five: u64,
    pub six: u64,
}

// What has been counted. Where no pair is accepted the two epochs say nothing.
#[derive(Clone, Copy)]
pub struct Tally {
    pub accepted: u64,
    pub refused: Refusals,
    pub near: u64,
    pub deep: u64,
    pub unopened: u64,
    pub earliest: Stamp,
    pub latest: Stamp,
}

// The whole pairs so far, 4097 where there are more than 4096, and the tally of the first 4096.
#[derive(Clone, Copy)]
pub struct Count {
    pub pairs: u64,
    pub tally: Tally,
}

// The state between two pieces: the two lines of the pair that has begun, and the pairs before it.
#[derive(Clone, Copy)]
pub struct State {
    pub lines: Lines,
    pub count: Count,
}

// Why a text has no report: 23, more than 4,096 whole pairs; or 24, an odd number of lines.
#[derive(Clone, Copy)]
pub enum ReportRefusal {
    TooMany,
    Odd,
}

// The heading of an accepted pair.
#[derive(Clone, Copy)]
pub enum Kind {
    Near,
    Deep,
    Unopened,
}

// One more, where a pair has the property. The largest number stays: no text is that long.
fn plus(property: bool, n: u64) -> u64
    ensures { result ≡ S.plus property n }
{
    if property {
        if n < 18446744073709551615 {
            return n + 1;
        }
        return n;
    }
    n
}

fn refused_by(r: Refusals, k: u64) -> Refusals
    ensures { result ≡ S.refused_by r k }
{
    Refusals {
        one: plus(k == 1, r.one),
        two: plus(k == 2, r.two),
        three: plus(k == 3, r.three),
        four: plus(k == 4, r.four),
        five: plus(k == 5, r.five),
        six: plus(k == 6, r.six),
    }
}

fn with_refusal(t: Tally, k: u64) -> Tally
    ensures { result ≡ S.with_refusal t k }
{
    let refused = t.refused;
    let earliest = t.earliest;
    let latest = t.latest;
    Tally {
        accepted: t.accepted,
        refused: refused_by(refused, k),
        near: t.near,
        deep: t.deep,
        unopened: t.unopened,
        earliest,
        latest,
    }
}

// Of what opening a record into memory answered, and of the kind that it left there.
fn marked_kind(answer: u64, mark: u32) -> Kind
    ensures { result ≡ S.marked_kind answer mark }
{
    if answer > 0 {
        return Kind::Unopened;
    }
    if mark > 0 {
        return Kind::Deep;
    }
    Kind::Near
}

// All that the report asks of the opener. The fourth of a satellite's marks is its kind (crate storage).
fn kind_of(r: Record) -> Kind
    ensures { result ≡ R.kind_of r }
{
    let mut numbers = [0.0; 83];
    let mut marks = [0; 6];
    let answer = open_record(r, &mut numbers, &mut marks);
    marked_kind(answer, marks[3])
}

fn instant_of(e: Option<Instant>) -> u64
    ensures { result ≡ R.instant_of e }
{
    match e {
        Some(t) => t.0,
        None => 0,
    }
}

fn stamp_of(r: Record) -> Stamp
    ensures { result ≡ R.stamp_of r }
{
    Stamp {
        year: r.year,
        day: r.day,
        at: instant_of(epoch(r)),
    }
}

// The earlier of two epochs, the first where they are one instant.
fn earlier(a: Stamp, b: Stamp) -> Stamp
    ensures { result ≡ R.earlier a b }
{
    if b.at < a.at {
        return b;
    }
    a
}

fn later(a: Stamp, b: Stamp) -> Stamp
    ensures { result ≡ R.later a b }
{
    if a.at < b.at {
        return b;
    }
    a
}

// The exact span in microseconds.
pub fn span_of(earliest: Stamp, latest: Stamp) -> u64
    ensures { result ≡ R.span_of earliest latest }
{
    if latest.at < earliest.at {
        return 0;
    }
    latest.at - earliest.at
}

fn is_near(k: Kind) -> bool
    ensures { result ≡ R.is_near k }
{
    match k {
        Kind::Near => true,
        Kind::Deep => false,
        Kind::Unopened => false,
    }
}

fn is_deep(k: Kind) -> bool
    ensures { result ≡ R.is_deep k }
{
    match k {
        Kind::Near => false,
        Kind::Deep => true,
        Kind::Unopened => false,
    }
}

fn is_unopened(k: Kind) -> bool
    ensures { result ≡ R.is_unopened k }
{
    match k {
        Kind::Near => false,
        Kind::Deep => false,
        Kind::Unopened => true,
    }
}

fn first_stamp(accepted: u64, old: Stamp, new: Stamp) -> Stamp
    ensures { result ≡ S.first_stamp accepted old new }
{
    if accepted == 0 {
        return new;
    }
    old
}

fn with_kind(t: Tally, kind: Kind, stamp: Stamp) -> Tally
    ensures { result ≡ S.with_kind t kind stamp }
{
    let refused = t.refused;
    let earliest = t.earliest;
    let latest = t.latest;
    Tally {
        accepted: plus(true, t.accepted),
        refused,
        near: plus(is_near(kind), t.near),
        deep: plus(is_deep(kind), t.deep),
        unopened: plus(is_unopened(kind), t.unopened),
        earliest: earlier(first_stamp(t.accepted, earliest, stamp), stamp),
        latest: later(first_stamp(t.accepted, latest, stamp), stamp),
    }
}

fn with_reading(t: Tally, reading: Result<Record, Refusal>) -> Tally
    ensures { result ≡ S.with_reading t reading }
{
    match reading {
        Ok(r) => with_kind(t, kind_of(r), stamp_of(r)),
        Err(why) => with_refusal(t, why.number()),
    }
}

fn tallied(t: Tally, line1: &[u8], line2: &[u8]) -> Tally
    ensures { result ≡ S.tallied t line1.now line2.now }
{
    let fields = match read_form(line1, line2) {
        Ok(fields) => fields,
        Err(why) => return with_refusal(t, why.number()),
    };
    with_reading(t, read_meaning(fields))
}

fn with_pair(count: Count, line1: &[u8], line2: &[u8]) -> Count
    ensures { result ≡ S.with_pair count line1.now line2.now }
{
    let tally = count.tally;
    let n = count.pairs;
    if n < 4096 {
        return Count {
            pairs: n + 1,
            tally: tallied(tally, line1, line2),
        };
    }
    Count { pairs: 4097, tally }
}

fn with_held(count: Count, line1: [u8; 70], size1: usize, line2: [u8; 70], size2: usize) -> Count
    ensures { result ≡ S.with_pair count (take size1 line1) (take size2 line2) }
{
    let n1 = kept_size(size1);
    let n2 = kept_size(size2);
    with_pair(count, &line1[0..n1], &line2[0..n2])
}

fn with_lines(count: Count, first: Line, second: Line) -> Count
    ensures { result ≡ S.with_lines count first second }
{
    let line1 = first.bytes;
    let line2 = second.bytes;
    with_held(count, line1, first.size, line2, second.size)
}

#[tactic(auto, using(std::proofs::lemmas::Bool::Decides::nat_tests), unfolding(crate::specs::State::closed))]
fn closed(count: Count, odd: bool) -> Result<Tally, ReportRefusal>
    ensures { result ≡ S.closed count odd }
{
    let many = count.pairs > 4096;
    if many {
        return Err(ReportRefusal::TooMany);
    }
    if odd {
        return Err(ReportRefusal::Odd);
    }
    let tally = count.tally;
    Ok(tally)
}

fn nothing() -> Count
    ensures { result ≡ S.nothing }
{
    let stamp = Stamp {
        year: 0,
        day: 0,
        at: 0,
    };
    let refused = Refusals {
        one: 0,
        two: 0,
        three: 0,
        four: 0,
        five: 0,
        six: 0,
    };
    let tally = Tally {
        accepted: 0,
        refused,
        near: 0,
        deep: 0,
        unopened: 0,
        earliest: stamp,
        latest: stamp,
    };
    Count { pairs: 0, tally }
}

// A state, and the index in the piece that comes next.
#[derive(Clone, Copy)]
struct Fed {
    state: State,
    next: usize,
}

// No pair has begun.
fn fresh(count: Count, next: usize) -> Fed
    ensures { (result.state ≡ S.fresh count) × (result.next ≡ next) }
{
    let state = State {
        lines: Lines::start(),
        count,
    };
    Fed { state, next }
}

// The index of the newline that ends the line from an index on, or the piece's length.
fn line_end(piece: &[u8], from: usize) -> usize
    requires { from ≤ length piece.now }
    ensures value { result ≡ from + length (line_of (drop from piece.now)) }
    ensures upper_bound { result ≤ length piece.now }
{
    for i in from..piece.len() {
        if piece[i] == b'\n' {
            return i;
        }
    }
    piece.len()
}

// The pairs that are whole in the piece from an index on, read where they stand.
fn feed_whole(count: Count, piece: &[u8], from: usize) -> Fed
    requires { from ≤ length piece.now }
    ensures piece_value { S.fed result.state (drop result.next piece.now) ≡ S.fed (S.fresh count) (drop from piece.now) }
    ensures from_le_next { (from ≤ result.next) × (result.next ≤ length piece.now) }
{
    let mut count = count;
    let mut i = from;
    let mut a = line_end(piece, i);
    while a < piece.len() {
        let b = line_end(piece, a + 1);
        if b == piece.len() {
            return fresh(count, i);
        }
        count = with_pair(count, &piece[i..a], &piece[a + 1..b]);
        i = b + 1;
        a = line_end(piece, i);
    }
    fresh(count, i)
}

// The pair that has begun, byte by byte, and the whole pairs behind it.
fn feed_pair(state: State, piece: &[u8], from: usize) -> Fed
    requires { from < length piece.now }
    ensures piece_value { S.fed result.state (drop result.next piece.now) ≡ S.fed state (drop from piece.now) }
    ensures from_lt_next { (from < result.next) × (result.next ≤ length piece.now) }
{
    let mut lines = state.lines;
    let count = state.count;
    for i in from..piece.len() {
        lines = lines.feed(&piece[i..i + 1]);
        if lines.ended >= 2 {
            let first = lines.first;
            let second = lines.second;
            return feed_whole(with_lines(count, first, second), piece, i + 1);
        }
    }
    let state = State { lines, count };
    let next = piece.len();
    Fed { state, next }
}

impl State {
    pub fn start() -> State
        ensures { result ≡ S.begun }
    {
        State {
            lines: Lines::start(),
            count: nothing(),
        }
    }

    // The state after one more piece of the text.
    pub fn feed(self, piece: &[u8]) -> State
        ensures { result ≡ S.fed self piece.now }
    {
        let mut state = self;
        let mut i = 0;
        while i < piece.len() {
            let fed = feed_pair(state, piece, i);
            state = fed.state;
            i = fed.next;
        }
        state
    }

    // The text has ended. A last line without a newline counts if it has a byte.
    pub fn finish(self) -> Result<Tally, ReportRefusal>
        ensures { result ≡ S.finished self }
    {
        let lines = self.lines;
        let count = self.count;
        let first = lines.first;
        let second = lines.second;
        if lines.ended == 0 {
            return closed(count, first.size > 0);
        }
        if second.size == 0 {
            return closed(count, true);
        }
        closed(with_lines(count, first, second), false)
    }
}

// The report of a whole text.
pub fn report_text(text: &[u8]) -> Result<Tally, ReportRefusal>
    ensures { result ≡ R.report_of text.now }
{
    let state = State::start();
    let state = state.feed(text);
    state.finish()
}
