// The one number that every function for C and Rust answers (include/saddlekerf.h tells its bits), and a
// refusal of reading as that number.
#![tactic(auto)]

ghost use Rattle.std.specs.Prelude.{◌≡◌};
ghost use Rattle.tle.specs.Refusals.{line_number};
ghost use Rattle.answers.specs.Answer.{answer};
ghost use Rattle.answers.specs.Refusals.{field_number, refusal_answer, in_bits};

use tle::{Field, Line, Refusal};

// The parts of an answer, put together.
pub fn answer(refusal: u8, detail: u8, place: u16, count: u32) -> u64
    ensures { result ≡ answer refusal detail place count }
{
    refusal as u64 + 256 * (detail as u64) + 65536 * (place as u64) + 4294967296 * (count as u64)
}

fn line_number(line: Line) -> u8
    ensures { result ≡ line_number line }
{
    match line {
        Line::One => 1,
        Line::Two => 2,
    }
}

fn field_number(field: Field) -> u16
    ensures { result ≡ field_number field }
{
    match field {
        Field::Day => 1,
        Field::Inclination => 2,
        Field::Node => 3,
        Field::Perigee => 4,
        Field::Anomaly => 5,
        Field::Motion => 6,
    }
}

// A refusal of reading with its values. Every column that reading gives fits its bits (`fits_bits` of
// proofs/Columns).
pub fn refusal_answer(why: Refusal) -> u64
    ensures { result ≡ refusal_answer (in_bits why) }
{
    match why {
        Refusal::Length(line) => answer(1, line_number(line), 0, 0),
        Refusal::Start(line) => answer(2, line_number(line), 0, 0),
        Refusal::Column(line, column) => {
            answer(3, line_number(line), (column % 65536) as u16, 0)
        }
        Refusal::Checksum(line) => answer(4, line_number(line), 0, 0),
        Refusal::Numbers => answer(5, 0, 0, 0),
        Refusal::Range(field) => answer(6, 0, field_number(field), 0),
        Refusal::NoForm => answer(16, 0, 0, 0),
    }
}
