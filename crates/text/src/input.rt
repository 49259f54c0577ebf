// Lines from an input that comes in pieces of any size. A line is ended by a newline or by the end of
// the input. `Lines` holds the first two by value, and of each its first 70 bytes: enough to tell a
// line of 69 from a longer one. `gather` puts lines of any number into a lent buffer, one at a time.
ghost use Rattle.std.specs.Prelude.{◌≡◌, ◌==◌, drop, position};
ghost use Rattle.text.specs.Input.{started, pushed, stepped, fed, Gathering};

use crate::output::put_bytes;

// A buffer with its length beside it: the definitions of specs/Input speak of both, and it is copied.
#[derive(Clone, Copy)]
pub struct Line {
    pub bytes: [u8; 70],
    pub size: usize,
}

// The two lines so far, and how many newlines have passed, at most 2.
#[derive(Clone, Copy)]
pub struct Lines {
    pub first: Line,
    pub second: Line,
    pub ended: u8,
}

impl Line {
    #[tactic(auto, using(std::proofs::lemmas::Bool::Decides::nat_tests), unfolding(crate::specs::Input::pushed))]
    fn push(self, byte: u8) -> Line
        ensures { result ≡ pushed self byte }
    {
        let n = self.size;
        if n < 70 {
            let mut bytes = self.bytes;
            bytes[n] = byte;
            return Line { bytes, size: n + 1 };
        }
        self
    }
}

impl Lines {
    pub fn start() -> Lines
        ensures { result ≡ started }
    {
        let empty = Line {
            bytes: [0; 70],
            size: 0,
        };
        Lines {
            first: empty,
            second: empty,
            ended: 0,
        }
    }

    fn step(self, byte: u8) -> Lines
        ensures { result ≡ stepped self byte }
    {
        let first = self.first;
        let second = self.second;
        let ended = self.ended;
        if ended == 0 {
            if byte == b'\n' {
                return Lines {
                    first,
                    second,
                    ended: 1,
                };
            }
            let first = first.push(byte);
            return Lines {
                first,
                second,
                ended: 0,
            };
        }
        if ended == 1 {
            if byte == b'\n' {
                return Lines {
                    first,
                    second,
                    ended: 2,
                };
            }
            let second = second.push(byte);
            return Lines {
                first,
                second,
                ended: 1,
            };
        }
        self
    }

    // The state after one more piece of the input.
    pub fn feed(self, piece: &[u8]) -> Lines
        ensures { result ≡ fed self piece.now }
    {
        let mut lines = self;
        for byte in piece {
            lines = lines.step(*byte);
        }
        lines
    }
}

// How many bytes a line has so far, with those that its buffer has no room for; the index in the
// piece that comes next; and whether a newline ended the line.
#[derive(Clone, Copy)]
pub struct Gathered {
    pub size: usize,
    pub next: usize,
    pub ended: bool,
}

// Where the first newline of a piece stands.
fn newline_of(piece: &[u8]) -> Option<usize>
    ensures { result ≡ position (λ byte. byte == 10) piece.now }
{
    piece.iter().position(|byte| *byte == b'\n')
}

// Adds to a line that has `size` bytes so far the bytes of a piece from an index on, up to a newline.
pub fn gather(line: &mut [u8], size: usize, piece: &[u8], from: usize) -> Gathered
    ensures { Gathering line.old size (drop from piece.now) from line.new result }
{
    let rest = &piece[from.min(piece.len())..];
    match newline_of(rest) {
        Some(n) => Gathered {
            size: put_bytes(line, size, &rest[..n]),
            next: from + n + 1,
            ended: true,
        },
        None => Gathered {
            size: put_bytes(line, size, rest),
            next: from + rest.len(),
            ended: false,
        },
    }
}
