// Moves of an instant one after the other (document 02, wish 12): what two moves come to, and a move there
// and back. The instant in the middle is judged as any other.
#![tactic(auto)]

ghost use Rattle.std.specs.Prelude.{◌≤◌, nat_abs, neg_ℤ, ◌≡◌};
ghost use Rattle.instant.specs.Move.{move_of};
ghost use Rattle.moves.specs.Moves.{Twice, Back};

use instant::{Instant, Microseconds, MoveRefusal, move_by};

// Moves by one span and then by another. A refusal of the first move is the answer.
pub fn move_twice(
    t: Instant,
    first: Microseconds,
    second: Microseconds,
) -> Result<Instant, MoveRefusal>
    ensures { Twice t.0 first.0 second.0 result }
{
    let middle = move_by(t, first)?;
    move_by(middle, second)
}

fn move_back(t: Instant, span: Microseconds) -> Result<Instant, MoveRefusal>
    requires { nat_abs span.0 ≤ 315532800000000 }
    ensures { result ≡ move_of t.0 (neg_ℤ span.0) }
{
    let s = span.0;
    move_by(t, Microseconds(0 - s))
}

// Moves by a span and then by as much the other way.
pub fn move_there_and_back(t: Instant, span: Microseconds) -> Result<Instant, MoveRefusal>
    ensures { Back t.0 span.0 result }
{
    let there = move_by(t, span)?;
    move_back(there, span)
}
