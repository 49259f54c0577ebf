// The text of an award plan, line by line: `offer` with its antenna, start, end and bid for each offer,
// then `entries` with the numbers of the offers named, then `total` and `turnaround` with one number each.
// One blank stands before each number. All numbers go into one lent row, in the order of the text.
#![tactic(auto)]

ghost use Rattle.std.specs.Prelude.{◌≡◌, cond, ◌≤◌, length};
ghost use Rattle.text.specs.Output.{Put};
ghost use Rattle.award_text.specs.Text.{started, unread, left_out, advanced, in_place, placed, after, label_of, taken, row_taken, judged, verdict_of};
ghost use Rattle.award_text.specs.Print.{refusal_text, refusal_at_text, answer_text};

use award::{AwardRefusal, check_plan};
use number_list::read_numbers;
use request_line::begins;
use text::{put_byte, put_bytes, put_decimal};

// A plan as far as its lines have come. The row has `at` numbers so far; offers end at `offers`, entries
// at `entries`. `stage` is 0 before the line of entries, 1 before the total, 2 before the turnaround, 3
// after it. `taken` tells whether the last line had its form and its place, `faulty` whether one had not,
// and `long` whether the row had no room for a line's numbers.
#[derive(Clone, Copy)]
pub struct Draft {
    pub at: usize,
    pub offers: usize,
    pub entries: usize,
    pub stage: u64,
    pub taken: bool,
    pub faulty: bool,
    pub long: bool,
}

// Why a text has no plan that can be judged.
#[derive(Clone, Copy)]
pub enum TextRefusal {
    // A line was bad, or the text ends before the turnaround.
    Unread,
    // The row has no room for 256 offers, 256 entries, a total and a turnaround.
    RoomTooShort,
}

// What a line begins with: 0 `offer`, 1 `entries`, 2 `total`, 3 `turnaround`, 4 anything else; and how
// many bytes that takes.
#[derive(Clone, Copy)]
struct Label {
    kind: u64,
    size: usize,
}

impl Draft {
    pub fn start() -> Draft
        ensures { result ≡ started }
    {
        Draft {
            at: 0,
            offers: 0,
            entries: 0,
            stage: 0,
            taken: true,
            faulty: false,
            long: false,
        }
    }
}

fn bad(d: Draft) -> Draft
    ensures { result ≡ unread d }
{
    Draft {
        at: d.at,
        offers: d.offers,
        entries: d.entries,
        stage: d.stage,
        taken: false,
        faulty: true,
        long: d.long,
    }
}

fn left_out(d: Draft, kind: u64) -> Draft
    ensures { result ≡ left_out d kind }
{
    Draft {
        at: d.at,
        offers: d.offers,
        entries: d.entries,
        stage: kind,
        taken: true,
        faulty: d.faulty,
        long: true,
    }
}

fn either(yes: bool, a: usize, b: usize) -> usize
    ensures { result ≡ cond yes a b }
{
    if yes {
        return a;
    }
    b
}

// The numbers of a line are in the row.
fn advance(d: Draft, kind: u64, next: usize) -> Draft
    ensures { result ≡ advanced d kind next }
{
    let offers = either(kind == 0, next, d.offers);
    let entries = either(kind == 1, next, d.entries);
    Draft {
        at: next,
        offers,
        entries,
        stage: kind,
        taken: true,
        faulty: d.faulty,
        long: d.long,
    }
}

// Whether a line of this kind, with so many numbers, may stand here.
fn in_place(stage: u64, kind: u64, n: usize) -> bool
    ensures { result ≡ in_place stage kind n }
{
    if kind == 0 {
        return (stage == 0) & (n == 4);
    }
    if kind == 1 {
        return stage == 0;
    }
    if kind == 2 {
        return (stage == 1) & (n == 1);
    }
    if kind == 3 {
        return (stage == 2) & (n == 1);
    }
    false
}

fn place(d: Draft, kind: u64, n: usize, room: usize) -> Draft
    requires { d.at ≤ room }
    ensures { result ≡ placed d kind n room }
{
    let at = d.at;
    if in_place(d.stage, kind, n) {
        if n <= room - at {
            return advance(d, kind, at + n);
        }
        return left_out(d, kind);
    }
    bad(d)
}

fn after_line(d: Draft, kind: u64, numbers: Option<usize>, room: usize) -> Draft
    requires { d.at ≤ room }
    ensures { result ≡ after d kind numbers room }
{
    match numbers {
        Some(n) => place(d, kind, n, room),
        None => bad(d),
    }
}

fn label_of(line: &[u8]) -> Label
    ensures { (result ≡ label_of line.now) × (result.size ≤ length line.now) }
{
    if begins(line, b"offer") {
        return Label { kind: 0, size: 5 };
    }
    if begins(line, b"entries") {
        return Label { kind: 1, size: 7 };
    }
    if begins(line, b"total") {
        return Label { kind: 2, size: 5 };
    }
    if begins(line, b"turnaround") {
        return Label { kind: 3, size: 10 };
    }
    Label { kind: 4, size: 0 }
}

// The plan after one more line, without its newline.
pub fn take_line(d: Draft, line: &[u8], row: &mut [u64]) -> Draft
    ensures { (result ≡ taken d line.now (length row.old)) × (row.new ≡ row_taken d line.now row.old) }
{
    let at = d.at;
    let room = row.len();
    if at > room {
        return bad(d);
    }
    let label = label_of(line);
    let size = label.size;
    let numbers = read_numbers(&line[size..], &mut row[at..]);
    after_line(d, label.kind, numbers, room)
}

// A whole plan judged.
fn judge(d: Draft, row: &[u64]) -> Result<Result<(), AwardRefusal>, TextRefusal>
    ensures { result ≡ judged d row.now }
{
    let n = d.offers;
    let m = d.entries;
    if n > m {
        return Err(TextRefusal::Unread);
    }
    if m >= row.len() {
        return Err(TextRefusal::Unread);
    }
    if m + 1 >= row.len() {
        return Err(TextRefusal::Unread);
    }
    let answer = check_plan(&row[0..n], &row[n..m], row[m], row[m + 1]);
    Ok(answer)
}

// What a text that ends here comes to.
pub fn finish(d: Draft, row: &[u64]) -> Result<Result<(), AwardRefusal>, TextRefusal>
    ensures { result ≡ verdict_of d row.now }
{
    if row.len() < 1282 {
        return Err(TextRefusal::RoomTooShort);
    }
    if d.faulty {
        return Err(TextRefusal::Unread);
    }
    if d.stage != 3 {
        return Err(TextRefusal::Unread);
    }
    if d.long {
        return Ok(Err(AwardRefusal::TooMany));
    }
    judge(d, row)
}

fn put_refusal(out: &mut [u8], at: usize, number: u64) -> usize
    ensures { Put out.old at (refusal_text number) out.new result }
{
    let p = put_bytes(out, at, b"refused ");
    let p = put_decimal(out, p, number);
    put_byte(out, p, b'\n')
}

fn put_refusal_at(out: &mut [u8], at: usize, number: u64, place: usize) -> usize
    ensures { Put out.old at (refusal_at_text number place) out.new result }
{
    let p = put_bytes(out, at, b"refused ");
    let p = put_decimal(out, p, number);
    let p = put_byte(out, p, b' ');
    let p = put_decimal(out, p, place as u64);
    put_byte(out, p, b'\n')
}

// `accepted`, or `refused` with the number and the place.
pub fn put_answer(out: &mut [u8], at: usize, answer: Result<(), AwardRefusal>) -> usize
    ensures { Put out.old at (answer_text answer) out.new result }
{
    match answer {
        Ok(()) => put_bytes(out, at, b"accepted\n"),
        Err(why) => match why {
            AwardRefusal::TooMany => put_refusal(out, at, 18),
            AwardRefusal::Unsound(k) => put_refusal_at(out, at, 27, k),
            AwardRefusal::NoSuchOffer(i) => put_refusal_at(out, at, 28, i),
            AwardRefusal::NamedTwice(i) => put_refusal_at(out, at, 29, i),
            AwardRefusal::Clash(i) => put_refusal_at(out, at, 30, i),
            AwardRefusal::WrongTotal => put_refusal(out, at, 31),
        },
    }
}
