// What the first place of a catalogue number stands for (specs/FirstPlace.antt).

ghost use Rattle.std.specs.Prelude.{◌≡◌, ◌≤◌};
ghost use Rattle.columns.specs.FirstPlace.{first_of};

use super::digits::digit;

// A digit stands for itself, a letter for 10 to 33, and any other byte for 0.
#[tactic(auto, using(crate::proofs::FirstPlaces::a_to_h))]
pub fn first_place(b: u8) -> u64
    ensures { (result ≡ first_of b) × (result ≤ 33) }
{
    if b < b'A' {
        return digit(b);
    }
    if b < b'I' {
        return (b - b'A') as u64 + 10;
    }
    if b == b'I' {
        return 0;
    }
    if b < b'O' {
        return (b - b'J') as u64 + 18;
    }
    if b == b'O' {
        return 0;
    }
    if b <= b'Z' {
        return (b - b'P') as u64 + 23;
    }
    0
}
