// The lines of `ephemeris`: a header, and for each row its date and time of day, its refusal number,
// position in km, velocity in km/s and strides. A separator byte, a blank or a comma, stands between two
// cells.
#![tactic(auto)]

ghost use Rattle.std.specs.Prelude.{◌≡◌, [], ◌∷◌, ◌++◌};
ghost use Rattle.text.specs.Output.{Put, decimal};
ghost use Rattle.decimals.specs.Fixed.{fixed_text};
ghost use Rattle.ephemeris_text.specs.Rows.{cell, three_words, state_names, header_text, three_numbers, state_text, no_state, values_text, when_text, row_text};

use date_text::put_instant;
use decimals::put_fixed;
use instant::{Instant, MoveRefusal};
use text::{put_byte, put_bytes, put_decimal};

// A position in km and a velocity in km/s.
#[derive(Clone, Copy)]
pub struct State {
    pub x: f64,
    pub y: f64,
    pub z: f64,
    pub vx: f64,
    pub vy: f64,
    pub vz: f64,
}

fn put_word(out: &mut [u8], at: usize, sep: u8, word: &[u8]) -> usize
    ensures { Put out.old at (cell sep word.now) out.new result }
{
    let p = put_byte(out, at, sep);
    put_bytes(out, p, word)
}

fn put_count(out: &mut [u8], at: usize, sep: u8, n: u64) -> usize
    ensures { Put out.old at (cell sep (decimal n)) out.new result }
{
    let p = put_byte(out, at, sep);
    put_decimal(out, p, n)
}

fn put_number(out: &mut [u8], at: usize, sep: u8, x: f64, places: u64) -> usize
    ensures { Put out.old at (cell sep (fixed_text places x)) out.new result }
{
    let p = put_byte(out, at, sep);
    put_fixed(out, p, x, places)
}

fn put_three_words(out: &mut [u8], at: usize, sep: u8, a: &[u8], b: &[u8], c: &[u8]) -> usize
    ensures { Put out.old at (three_words sep a.now b.now c.now) out.new result }
{
    let p = put_word(out, at, sep, a);
    let p = put_word(out, p, sep, b);
    put_word(out, p, sep, c)
}

fn put_three_numbers(
    out: &mut [u8],
    at: usize,
    sep: u8,
    places: u64,
    x: f64,
    y: f64,
    z: f64,
) -> usize
    ensures { Put out.old at (three_numbers sep places x y z) out.new result }
{
    let p = put_number(out, at, sep, x, places);
    let p = put_number(out, p, sep, y, places);
    put_number(out, p, sep, z, places)
}

fn put_state_names(out: &mut [u8], at: usize, sep: u8) -> usize
    ensures { Put out.old at (state_names sep) out.new result }
{
    let p = put_three_words(out, at, sep, b"x_km", b"y_km", b"z_km");
    put_three_words(out, p, sep, b"vx_km_s", b"vy_km_s", b"vz_km_s")
}

// The names of the columns.
pub fn put_header(out: &mut [u8], at: usize, sep: u8) -> usize
    ensures { Put out.old at (header_text sep) out.new result }
{
    let p = put_bytes(out, at, b"date time");
    let p = put_word(out, p, sep, b"refusal");
    let p = put_state_names(out, p, sep);
    let p = put_word(out, p, sep, b"strides");
    put_byte(out, p, b'\n')
}

fn put_state(out: &mut [u8], at: usize, sep: u8, s: State) -> usize
    ensures { Put out.old at (state_text sep s) out.new result }
{
    let p = put_three_numbers(out, at, sep, 6, s.x, s.y, s.z);
    put_three_numbers(out, p, sep, 9, s.vx, s.vy, s.vz)
}

fn put_no_state(out: &mut [u8], at: usize, sep: u8) -> usize
    ensures { Put out.old at (no_state sep) out.new result }
{
    let p = put_three_words(out, at, sep, b"-", b"-", b"-");
    put_three_words(out, p, sep, b"-", b"-", b"-")
}

fn put_values(out: &mut [u8], at: usize, sep: u8, refusal: u64, s: State) -> usize
    ensures { Put out.old at (values_text sep refusal s) out.new result }
{
    if refusal == 0 {
        return put_state(out, at, sep, s);
    }
    put_no_state(out, at, sep)
}

#[tactic(auto, unfolding(crate::specs::Rows::when_text))]
fn put_when(out: &mut [u8], at: usize, when: Result<Instant, MoveRefusal>) -> usize
    ensures { Put out.old at (when_text when) out.new result }
{
    match when {
        Ok(t) => put_instant(out, at, t),
        Err(MoveRefusal::TooFar) => put_bytes(out, at, b"- -"),
        Err(MoveRefusal::Outside) => put_bytes(out, at, b"- -"),
    }
}

// A row: where its time moves the epoch to, its refusal number, its state unless it is refused, and the
// strides that it took.
pub fn put_row(
    out: &mut [u8],
    at: usize,
    sep: u8,
    when: Result<Instant, MoveRefusal>,
    refusal: u64,
    s: State,
    strides: u64,
) -> usize
    ensures { Put out.old at (row_text sep when refusal s strides) out.new result }
{
    let p = put_when(out, at, when);
    let p = put_count(out, p, sep, refusal);
    let p = put_values(out, p, sep, refusal, s);
    let p = put_count(out, p, sep, strides);
    put_byte(out, p, b'\n')
}
