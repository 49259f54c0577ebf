// Writing two-line element sets (document 01, "The two lines" and "Refusal numbers"). A line is built by
// value, a field at a time, and then copied to the front of the lent room.
#![tactic(auto)]

ghost use Rattle.std.specs.Prelude.{◌≡◌};
ghost use Rattle.tle_writer.specs.Write.{number_of, writing_of, written_over, Handed};
ghost use Rattle.tle_writer.specs.Lines.{line_of};

use lines::line_of;
use tle::{Line, Record, legal};

mod fields;
mod lines;

// Why a line is not written.
#[derive(Clone, Copy)]
pub enum WritingRefusal {
    // 16: the record is outside the layout or the ranges.
    Illegal,
    // 17: the room is shorter than a line.
    Short,
}

// Document 01's number of the refusal, 0 where the line was written.
pub fn writing_number(written: Result<(), WritingRefusal>) -> u8
    ensures { result ≡ number_of written }
{
    match written {
        Ok(()) => 0,
        Err(WritingRefusal::Illegal) => 16,
        Err(WritingRefusal::Short) => 17,
    }
}

// Writes one of the record's two lines at the front of out. What lies past it stays, and after a
// refusal all of out.
pub fn fill_line(r: Record, which: Line, out: &mut [u8]) -> Result<(), WritingRefusal>
    ensures { (result ≡ writing_of r out.old) × (out.new ≡ written_over r which out.old) }
{
    if !legal(r) {
        return Err(WritingRefusal::Illegal);
    }
    if out.len() < 69 {
        return Err(WritingRefusal::Short);
    }
    out[..69].copy_from_slice(&line_of(which, r));
    Ok(())
}

// As fill_line, and hands back the part of out just written, which begins where out begins; after a
// refusal out itself, as it was lent. The number of the refusal, 0 where there is none, comes through
// why. A room of exactly one line is handed back itself, so that whoever lent it knows all of it
// afterwards; of a longer one, fill_line says what became of the rest.
pub fn write_line<'a>(r: Record, which: Line, out: &'a mut [u8], why: &mut u8) -> &'a mut [u8]
    ensures handed { Handed (writing_of r out.old) (line_of which r) out.entry result }
    ensures why_after { why.new ≡ number_of (writing_of r out.old) }
{
    let room = out.len();
    let k = writing_number(fill_line(r, which, out));
    *why = k;
    if k != 0 {
        return out;
    }
    if room == 69 {
        return out;
    }
    &mut out[..69]
}
