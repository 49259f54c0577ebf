// A pair explained: what refuses it, in a sentence, or its number, epoch, period and kind.
#![tactic(auto)]

ghost use Rattle.std.specs.Prelude.{◌≡◌};
ghost use Rattle.text.specs.Output.{Put};
ghost use Rattle.tle.specs.Read.{read_of};
ghost use Rattle.explanation.specs.Explained.{period_of, period_text, date_of_epoch, epoch_text, well_text, perigee_text, progress_text, record_text, opened_text, reading_text, opens, is_well};

use date_text::put_instant;
use decimals::put_fixed;
use instant::Instant;
use marked_line::put_part;
use reading_faults::put_fault;
use satellite_kind::{Kind, kind_of, perigee_depth};
use text::{put_bytes, put_decimal};
use tle::{Record, Refusal, epoch, read_form, read_meaning};

// The whole seconds of a revolution, by the mean motion in 10 ^ -8 revolution a day.
fn period_of(motion: u64) -> u64
    ensures { result ≡ period_of motion }
{
    if motion == 0 {
        return 0;
    }
    8640000000000 / motion
}

fn put_period(out: &mut [u8], at: usize, motion: u64) -> usize
    ensures { Put out.old at (period_text motion) out.new result }
{
    let s = period_of(motion);
    let p = put_bytes(out, at, b", period ");
    let p = put_decimal(out, p, s / 60);
    let p = put_bytes(out, p, b" min ");
    let p = put_decimal(out, p, s % 60);
    put_bytes(out, p, b" s")
}

fn put_date(out: &mut [u8], at: usize, epoch: Option<Instant>) -> usize
    ensures { Put out.old at (date_of_epoch epoch) out.new result }
{
    match epoch {
        Some(t) => put_instant(out, at, t),
        None => put_bytes(out, at, b"- -"),
    }
}

// The epoch's date and time of day, and the day as columns 21 to 32 of line 1 have it.
fn put_epoch(out: &mut [u8], at: usize, r: Record, line1: &[u8]) -> usize
    ensures { Put out.old at (epoch_text r line1.now) out.new result }
{
    let e = epoch(r);
    let p = put_bytes(out, at, b", epoch ");
    let p = put_date(out, p, e);
    let p = put_bytes(out, p, b" (day ");
    let p = put_part(out, p, line1, 20, 12);
    put_bytes(out, p, b")")
}

fn put_well(out: &mut [u8], at: usize, kind: &[u8], r: Record, line1: &[u8]) -> usize
    ensures { Put out.old at (well_text kind.now r line1.now) out.new result }
{
    let p = put_bytes(out, at, b"well: satellite ");
    let p = put_decimal(out, p, r.number);
    let p = put_epoch(out, p, r, line1);
    let p = put_period(out, p, r.motion);
    put_bytes(out, p, kind)
}

// Refusal 7, with how deep the perigee lies.
fn put_perigee(out: &mut [u8], at: usize, r: Record) -> usize
    ensures { Put out.old at (perigee_text r) out.new result }
{
    let depth = perigee_depth(r);
    let p = put_bytes(out, at, b"refusal 7: at the epoch the perigee lies ");
    let p = put_fixed(out, p, depth, 1);
    put_bytes(out, p, b" km below the ground.\n")
}

// A record in its ranges: what opening it comes to.
fn put_record(out: &mut [u8], at: usize, kind: Kind, r: Record, line1: &[u8]) -> usize
    ensures { Put out.old at (record_text kind r line1.now) out.new result }
{
    match kind {
        Kind::NearEarth => put_well(out, at, b", near Earth.\n", r, line1),
        Kind::DeepSpace => put_well(out, at, b", deep space.\n", r, line1),
        Kind::OneDay => put_well(out, at, b", deep space, one-day resonance.\n", r, line1),
        Kind::HalfDay => put_well(out, at, b", deep space, half-day resonance.\n", r, line1),
        Kind::Perigee => put_perigee(out, at, r),
        Kind::NotFinite => put_bytes(
            out,
            at,
            b"refusal 8: opening it gives a number that is not finite.\n",
        ),
        Kind::NoRecord => put_bytes(out, at, b"refusal 16: no two lines have these fields.\n"),
    }
}

fn put_opened(out: &mut [u8], at: usize, r: Record, line1: &[u8]) -> usize
    ensures { Put out.old at (opened_text r line1.now) out.new result }
{
    let kind = kind_of(r);
    put_record(out, at, kind, r, line1)
}

fn put_reading(
    out: &mut [u8],
    at: usize,
    reading: Result<Record, Refusal>,
    line1: &[u8],
    line2: &[u8],
) -> usize
    ensures { Put out.old at (reading_text reading line1.now line2.now) out.new result }
{
    match reading {
        Ok(r) => put_opened(out, at, r, line1),
        Err(why) => put_fault(out, at, why, line1, line2),
    }
}

// Two lines explained.
pub fn put_explanation(out: &mut [u8], at: usize, line1: &[u8], line2: &[u8]) -> usize
    ensures { Put out.old at (reading_text (read_of line1.now line2.now) line1.now line2.now) out.new result }
{
    let fields = match read_form(line1, line2) {
        Ok(fields) => fields,
        Err(why) => return put_reading(out, at, Err(why), line1, line2),
    };
    put_reading(out, at, read_meaning(fields), line1, line2)
}

fn opens(kind: Kind) -> bool
    ensures { result ≡ opens kind }
{
    match kind {
        Kind::NearEarth => true,
        Kind::DeepSpace => true,
        Kind::OneDay => true,
        Kind::HalfDay => true,
        Kind::Perigee => false,
        Kind::NotFinite => false,
        Kind::NoRecord => false,
    }
}

fn well(reading: Result<Record, Refusal>) -> bool
    ensures { result ≡ is_well reading }
{
    match reading {
        Ok(r) => opens(kind_of(r)),
        Err(_) => false,
    }
}

// Whether two lines are accepted and open.
pub fn is_well(line1: &[u8], line2: &[u8]) -> bool
    ensures { result ≡ is_well (read_of line1.now line2.now) }
{
    let fields = match read_form(line1, line2) {
        Ok(fields) => fields,
        Err(why) => return well(Err(why)),
    };
    well(read_meaning(fields))
}

// How far a long text is.
pub fn put_progress(out: &mut [u8], at: usize, pairs: u64) -> usize
    ensures { Put out.old at (progress_text pairs) out.new result }
{
    let p = put_bytes(out, at, b"progress: ");
    let p = put_decimal(out, p, pairs);
    put_bytes(out, p, b" pairs\n")
}
