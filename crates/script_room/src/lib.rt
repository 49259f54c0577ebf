// The lengths of a script's requests: how many times each takes, and whether the times and the rooms
// suffice for all of them.
#![tactic(auto)]

ghost use Rattle.std.specs.Prelude.{◌≡◌, ◌-◌, cond, eqb, leb};
ghost use Rattle.script_room.specs.Room as R;

// The times that a request takes.
pub fn taken(n: usize) -> usize
    ensures { result ≡ R.taken n }
{
    if n == 0 {
        return 1;
    }
    if n == 1 {
        return 0;
    }
    n - 2
}

// The rows of a list of n times: none where it is refused.
pub fn added(refusal: u8, n: usize) -> usize
    ensures { result ≡ cond (eqb refusal 0) n 0 }
{
    if refusal == 0 {
        return n;
    }
    0
}

// Whether all requests together take at most `room` times.
fn fits(lengths: &[usize], room: usize) -> bool
    ensures { result ≡ leb (R.needed lengths.now) room }
{
    let mut left = room;
    for &length in lengths {
        let n = taken(length);
        if left < n {
            return false;
        }
        left -= n;
    }
    true
}

// Whether a room of so many rows has one for each single request, where every list fills its own.
fn roomy(lengths: &[usize], room: usize) -> bool
    ensures { result ≡ R.roomy lengths.now room }
{
    let mut left = room;
    for &n in lengths {
        if (n == 0) & (left == 0) {
            return false;
        }
        left = left.saturating_sub(taken(n));
    }
    true
}

// Whether the times suffice, and the rooms for the row of each single request and for the strides of
// every request.
fn has_room(lengths: &[usize], t: usize, a: usize, b: usize, c: usize, d: usize) -> bool
    ensures { result ≡ R.room_for lengths.now t a b c d }
{
    if !fits(lengths, t) {
        return false;
    }
    if !roomy(lengths, a) {
        return false;
    }
    if !roomy(lengths, b / 6) {
        return false;
    }
    if !roomy(lengths, c) {
        return false;
    }
    lengths.len() <= d
}

// Whether n requests have their stations, their samples, and places for how many windows they gave.
fn has_calls(n: usize, p: usize, q: usize, e: usize) -> bool
    ensures { result ≡ R.calls_for n p q e }
{
    (n <= p / 3) & (n <= q / 3) & (n <= e)
}

// Whether a script of these lengths can be run: t times, rooms of a, b and c for its rows, d for strides
// and e for how many windows, p and q numbers of its calls.
pub fn suffices(
    lengths: &[usize],
    t: usize,
    a: usize,
    b: usize,
    c: usize,
    d: usize,
    p: usize,
    q: usize,
    e: usize,
) -> bool
    ensures { result ≡ R.suffices lengths.now t a b c d p q e }
{
    if has_room(lengths, t, a, b, c, d) {
        return has_calls(lengths.len(), p, q, e);
    }
    false
}
