// Every line through the function that it names.
use crate::Kind;
use crate::words::{cut, read_number};

// How many lines were compared, how many differ, and the first of those, empty where there is none.
#[derive(Clone, Copy)]
pub(crate) struct Tally<'a> {
    pub lines: u64,
    pub differ: u64,
    pub first: &'a [u8],
}

// The same bits; all NaNs count as one.
fn same(a: f64, b: f64) -> bool {
    if a.is_nan() || b.is_nan() {
        return a.is_nan() && b.is_nan();
    }
    a.to_bits() == b.to_bits()
}

fn kind_of(line: &[u8]) -> Kind {
    if line.starts_with(b"sqrt ") {
        return Kind::Sqrt;
    }
    if line.starts_with(b"cbrt ") {
        return Kind::Cbrt;
    }
    if line.starts_with(b"sin ") {
        return Kind::Sin;
    }
    if line.starts_with(b"cos ") {
        return Kind::Cos;
    }
    if line.starts_with(b"atan2 ") {
        return Kind::Atan2;
    }
    if line.starts_with(b"#") {
        return Kind::Comment;
    }
    Kind::Unknown
}

// Whether the function gives the result, and for the sine and the cosine whether `sin_cos` does too.
fn agrees(kind: Kind, x: f64, res: f64) -> bool {
    match kind {
        Kind::Sqrt => same(elementary::sqrt(x), res),
        Kind::Cbrt => same(elementary::cbrt(x), res),
        Kind::Sin => same(elementary::sin(x), res) & same(elementary::sin_cos(x).sin, res),
        Kind::Cos => same(elementary::cos(x), res) & same(elementary::sin_cos(x).cos, res),
        _ => false,
    }
}

// Whether a line of a function agrees: the words behind its name's. None where they cannot be read.
fn judged(kind: Kind, line: &[u8]) -> Option<bool> {
    let (_, words) = cut(line)?;
    let (first, rest) = cut(words)?;
    if kind == Kind::Atan2 {
        let (second, res) = cut(rest)?;
        let angle = elementary::atan2(read_number(first)?, read_number(second)?);
        return Some(same(angle, read_number(res)?));
    }
    Some(agrees(kind, read_number(first)?, read_number(rest)?))
}

impl<'a> Tally<'a> {
    fn count(&mut self, line: &'a [u8], is_equal: bool) {
        self.lines = self.lines.wrapping_add(1);
        if !is_equal {
            if self.differ == 0 {
                self.first = line;
            }
            self.differ = self.differ.wrapping_add(1);
        }
    }
}

// The lines of a kind.
pub(crate) fn count_lines(input: &[u8], kind: Kind) -> Tally<'_> {
    let mut t = Tally {
        lines: 0,
        differ: 0,
        first: &[],
    };
    for ended in input.split_inclusive(|b| *b == b'\n') {
        let line = ended.strip_suffix(b"\n").unwrap_or(ended);
        if kind_of(line) == kind {
            t.count(line, judged(kind, line) == Some(true));
        }
    }
    t
}
