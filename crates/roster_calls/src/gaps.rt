// Room for a pair made and closed in a lent buffer, and for its instant in the row beside it.

ghost use Rattle.std.specs.Prelude.{◌≡◌, ◌+◌, ◌++◌, ◌≤◌, length, take, drop, replicate};
ghost use Rattle.roster.specs.Shift.{opened};

// The elements after the first at, moved up by size; the last of them are lost.
pub(crate) fn open_gap<T: Copy>(s: &mut [T], at: usize, size: usize)
    requires { at + size ≤ length s.old }
    ensures { s.new ≡ opened at size s.old }
{
    let end = s.len() - size;
    s.copy_within(at..end, at + size);
}

// Zeros: of 8,832 bytes the empty roster.
pub fn clear(b: &mut [u8])
    ensures { b.new ≡ replicate (length b.old) 0 }
{
    b.fill(0);
}

// So many elements after the first at taken out, those behind them moved down, and as many of `empty` at the
// end.
pub(crate) fn close_gap<T: Copy>(s: &mut [T], at: usize, size: usize, empty: T)
    requires { at + size ≤ length s.old }
    ensures { s.new ≡ take at s.old ++ drop (at + size) s.old ++ replicate size empty }
{
    s.copy_within(at + size.., at);
    let end = s.len() - size;
    // Not `fill`: it asks for a clone that cannot fail, which `Copy` does not promise.
    for x in &mut s[end..] {
        *x = empty;
    }
}
