// A row of an answer as a line of text: `row`, the refusal number, position and velocity as the bit
// patterns of six f64, and the Kepler rounds.
#![tactic(auto)]

ghost use Rattle.std.specs.Prelude.{◌≡◌, ◌∷◌};
ghost use Rattle.text.specs.Output.{Put, pattern};
ghost use Rattle.row_line.specs.Row.{three_text, row_text};

use text::{put_byte, put_bytes, put_decimal, put_pattern};

fn put_value(out: &mut [u8], at: usize, x: f64) -> usize
    ensures { Put out.old at (32 ∷ pattern x) out.new result }
{
    let p = put_byte(out, at, b' ');
    put_pattern(out, p, x)
}

fn put_three(out: &mut [u8], at: usize, x: f64, y: f64, z: f64) -> usize
    ensures { Put out.old at (three_text x y z) out.new result }
{
    let p = put_value(out, at, x);
    let p = put_value(out, p, y);
    put_value(out, p, z)
}

fn wide(n: u8) -> u64
    ensures { result ≡ n }
{
    n as u64
}

pub fn put_row(
    out: &mut [u8],
    at: usize,
    refusal: u8,
    x: f64,
    y: f64,
    z: f64,
    vx: f64,
    vy: f64,
    vz: f64,
    rounds: u8,
) -> usize
    ensures { Put out.old at (row_text refusal x y z vx vy vz rounds) out.new result }
{
    let p = put_bytes(out, at, b"row ");
    let p = put_decimal(out, p, wide(refusal));
    let p = put_three(out, p, x, y, z);
    let p = put_three(out, p, vx, vy, vz);
    let p = put_byte(out, p, b' ');
    let p = put_decimal(out, p, wide(rounds));
    put_byte(out, p, b'\n')
}
