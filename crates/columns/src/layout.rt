// Which bytes may stand in a column, and how many columns of a line agree with a layout.

ghost use Rattle.std.specs.Prelude.{◌≡◌, true, length, ◌≤◌, ◌<◌};
ghost use Rattle.columns.specs.Layout.{opens_number, fits_plain, fits, agreed};

use super::three::begins_as;

// Whether byte b may be the first place of a catalogue number: a digit, or a letter but I and O.
pub(crate) fn opens_number(b: u8) -> bool
    ensures { result ≡ opens_number b }
{
    let digit = (b'0' <= b) & (b <= b'9');
    let letter = (b'A' <= b) & (b <= b'Z');
    digit | (letter & !(b == b'I') & !(b == b'O'))
}

// Whether byte b may stand in a column of the class (specs/Layout.antt), which is not N; after: the
// byte before it is a blank.
fn fits_plain(class: u8, after: bool, b: u8) -> bool
    ensures { result ≡ fits_plain class after b }
{
    let digit = (b'0' <= b) & (b <= b'9');
    let letter = (b'A' <= b) & (b <= b'Z');
    let blank = b == b' ';
    ((class == b) & (class < b'A'))
        | ((class == b'D') & digit)
        | ((class == b'R') & (blank | digit))
        | ((class == b'r') & (digit | (blank & after)))
        | ((class == b'L') & ((blank & after) | (!after & letter)))
        | ((class == b'l') & (blank | (!after & letter)))
        | ((class == b'f') & ((blank & after) | (!after & digit)))
        | ((class == b'S') & (blank | (b == b'+') | (b == b'-')))
        | ((class == b'E') & ((b == b'+') | (b == b'-')))
        | ((class == b'C') & ((b == b'U') | (b == b'C') | (b == b'S')))
}

// The same, of any class.
fn fits_at(class: u8, after: bool, b: u8) -> bool
    ensures { result ≡ fits class after b }
{
    fits_plain(class, after, b) | ((class == b'N') & opens_number(b))
}

// True only where every column agrees with the layout; class N is looked for in the third alone. The
// loop has no way out and no branch, so that the machine can take many columns at once.
fn keeps_layout(layout: &[u8], line: &[u8]) -> bool
    requires { (length layout.now ≡ length line.now) × (3 ≤ length line.now) }
    ensures { result ≡ true → agreed layout.now true line.now ≡ length line.now }
{
    let mut keeps = begins_as(layout, line);
    for i in 3..line.len() {
        keeps = keeps & fits_plain(layout[i], line[i - 1] == b' ', line[i]);
    }
    keeps
}

// How many columns of the line, from the first, agree with the layout.
fn count_agreeing(layout: &[u8], line: &[u8]) -> usize
    ensures { (result ≡ agreed layout.now true line.now) × (result ≤ length line.now) }
{
    let mut after = true;
    for (i, b) in line.iter().enumerate() {
        if layout.len() <= i {
            return i;
        }
        if !fits_at(layout[i], after, *b) {
            return i;
        }
        after = *b == b' ';
    }
    line.len()
}

// The same, counted column by column only where one does not agree.
pub fn agreeing(layout: &[u8], line: &[u8]) -> usize
    ensures { (result ≡ agreed layout.now true line.now) × (result ≤ length line.now) }
{
    if layout.len() == line.len() {
        if 3 <= line.len() {
            if keeps_layout(layout, line) {
                return line.len();
            }
        }
    }
    count_agreeing(layout, line)
}
