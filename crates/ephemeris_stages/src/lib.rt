// The lines in front of the requests of `ephemeris`: `commas` or not, and a pair, which is opened into lent
// memory. What is said of the pair, the header or that it is refused, is put at the front of a lent room.
#![tactic(auto)]

ghost use Rattle.std.specs.Prelude.{◌≡◌};
ghost use Rattle.text.specs.Output.{Put};
ghost use Rattle.storage.specs.Storage.{epoch_at};
ghost use Rattle.ephemeris_stages.specs.Stages.{wants_line, opened_text, opened_stage, Begins, Opens, Takes};

use ephemeris_answers::Sheet;
use ephemeris_requests::asks_commas;
use ephemeris_text::put_header;
use instant::Instant;
use lent_opening::open_held;
use line_input::whole_in;
use text::{put_bytes, put_line};

// What the next line is: `commas` or the first of a pair; that first, with the separator; the second,
// behind a first of so many bytes; a request; or nothing after a refused pair.
#[derive(Clone, Copy)]
pub enum Stage {
    Start,
    First(u8),
    Second(u8, usize),
    Asking(Sheet),
    Over,
}

// The stage behind a line, and how many bytes are said.
#[derive(Clone, Copy)]
pub struct Staged {
    pub stage: Stage,
    pub said: usize,
}

// Lines of a pair that the input ends without are empty.
pub fn wants_line(stage: Stage) -> bool
    ensures { result ≡ wants_line stage }
{
    match stage {
        Stage::Start => true,
        Stage::First(_) => true,
        Stage::Second(_, _) => true,
        Stage::Asking(_) => false,
        Stage::Over => false,
    }
}

// The epoch of an opened satellite, as specs/Storage of storage lays its two halves.
fn epoch_at(low: u32, high: u32) -> Instant
    ensures { result ≡ epoch_at low high }
{
    Instant(low as u64 + 4294967296 * (high as u64))
}

fn put_opened(room: &mut [u8], sep: u8, refusal: u64) -> usize
    ensures { Put room.old 0 (opened_text sep refusal) room.new result }
{
    if refusal == 0 {
        return put_header(room, 0, sep);
    }
    put_line(room, 0, b"refused ", refusal)
}

fn opened_stage(sep: u8, refusal: u64, marks: &[u32; 6]) -> Stage
    ensures { result ≡ opened_stage sep refusal marks.now }
{
    if refusal == 0 {
        let epoch = epoch_at(marks[4], marks[5]);
        return Stage::Asking(Sheet { sep, epoch });
    }
    Stage::Over
}

// The pair of a first line of so many bytes, kept in a room, and a second.
fn open_pair(
    sep: u8,
    first: &[u8],
    size: usize,
    line: &[u8],
    room: &mut [u8],
    numbers: &mut [f64; 83],
    marks: &mut [u32; 6],
) -> Staged
    ensures { Opens sep size first.now line.now room.old numbers.old marks.old room.new numbers.new marks.new result }
{
    let n = whole_in(size, first);
    let refusal = open_held(&first[..n], line, numbers, marks) % 256;
    let said = put_opened(room, sep, refusal);
    let stage = opened_stage(sep, refusal, marks);
    Staged { stage, said }
}

// The line that the input begins with: `commas`, or the first of the pair.
fn begin(first: &mut [u8], line: &[u8]) -> Stage
    ensures { Begins first.old line.now first.new result }
{
    if asks_commas(line) {
        return Stage::First(b',');
    }
    Stage::Second(b' ', put_bytes(first, 0, line))
}

// A line at a stage. Requests are not taken here.
pub fn take_stage(
    stage: Stage,
    first: &mut [u8],
    line: &[u8],
    room: &mut [u8],
    numbers: &mut [f64; 83],
    marks: &mut [u32; 6],
) -> Staged
    ensures { Takes stage first.old line.now room.old numbers.old marks.old first.new room.new numbers.new marks.new result }
{
    match stage {
        Stage::Start => {
            let stage = begin(first, line);
            Staged { stage, said: 0 }
        }
        Stage::First(sep) => {
            let stage = Stage::Second(sep, put_bytes(first, 0, line));
            Staged { stage, said: 0 }
        }
        Stage::Second(sep, size) => open_pair(sep, first, size, line, room, numbers, marks),
        Stage::Asking(_) => Staged { stage, said: 0 },
        Stage::Over => Staged { stage, said: 0 },
    }
}
