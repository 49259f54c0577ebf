// The pair that standard input begins with, opened into lent memory. As in streams, a failure stays marked.
ghost use Rattle.std.specs.Prelude.{◌≡◌, true};

use lent_opening::open_held;
use line_input::{Input, next_line, whole_in};
use text::put_bytes;

// The number of its refusal, or 0, and the input behind it.
#[derive(Clone, Copy)]
pub struct Opened {
    pub refusal: u64,
    pub input: Input,
}

// Keeps the line of so many bytes in its room: a line longer than its room counts as an empty one.
fn keep(first: &mut [u8; 70], room: &[u8], size: usize) -> usize {
    let n = whole_in(size, room);
    put_bytes(first, 0, &room[..n])
}

fn open(
    first: &[u8],
    first_size: usize,
    room: &[u8],
    size: usize,
    numbers: &mut [f64; 83],
    marks: &mut [u32; 6],
) -> u64 {
    let n = whole_in(first_size, first);
    let m = whole_in(size, room);
    open_held(&first[..n], &room[..m], numbers, marks) % 256
}

pub fn read_pair(
    rt: HostRuntime,
    failed: &mut bool,
    first: &mut [u8; 70],
    buffer: &mut [u8; 4096],
    line: &mut [u8; 4096],
    numbers: &mut [f64; 83],
    marks: &mut [u32; 6],
) -> Opened
    ensures { failed.old ≡ true → failed.new ≡ true }
{
    let next = next_line(rt, failed, Input::start(), buffer, line);
    let input = next.input;
    let size = keep(first, line, next.size);
    let next = next_line(rt, failed, input, buffer, line);
    let input = next.input;
    let refusal = open(first, size, line, next.size, numbers, marks);
    Opened { refusal, input }
}
