// What bytes, records and instants all need of whole numbers.
#![tactic(auto)]

ghost use Rattle.std.specs.Prelude.{◌≡◌, nat_abs};

// How far a number lies from 0, for every i64: one more than a negative number's complement.
pub fn magnitude(x: i64) -> u64
    ensures { result ≡ nat_abs x }
{
    if x < 0 {
        let y = !x;
        y as u64 + 1
    } else {
        x as u64
    }
}
