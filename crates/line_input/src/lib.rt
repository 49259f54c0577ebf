// Standard input line by line, in whatever pieces it arrives. A line is ended by a newline or by the end
// of the input, and a last one without a newline counts if it has a byte. The caller lends a buffer for
// the pieces, the same for every line, and a room for the line. As in streams, a failure stays marked.
#![tactic(auto)]

ghost use Rattle.std.specs.Prelude.{min, ◌≡◌, false, [], length};
ghost use Rattle.io.specs.Counts.{IsPrefixLen};
ghost use Rattle.line_input.specs.Lines.{started, ended, finished, whole_in, Found, Nexts};

use text::gather;

// The bytes that were read and are no part of a line yet stand in the buffer from `at` to `end`; with
// `over` set there is nothing more to read.
#[derive(Clone, Copy)]
pub struct Input {
    pub at: usize,
    pub end: usize,
    pub over: bool,
}

// How many bytes the line has, with those that its room does not hold.
#[derive(Clone, Copy)]
pub struct Next {
    pub input: Input,
    pub size: usize,
    pub found: bool,
}

impl Input {
    pub fn start() -> Input
        ensures { result ≡ started }
    {
        Input {
            at: 0,
            end: 0,
            over: false,
        }
    }
}

// A line that a newline ended, with what waits behind it in the buffer.
fn ended(at: usize, end: usize, size: usize) -> Next
    ensures { result ≡ ended at end size }
{
    let input = Input {
        at,
        end,
        over: false,
    };
    Next {
        input,
        size,
        found: true,
    }
}

fn finished(size: usize, found: bool) -> Next
    ensures { result ≡ finished size found }
{
    let input = Input {
        at: 0,
        end: 0,
        over: true,
    };
    Next { input, size, found }
}

// Reads on until a newline ends the line, which has `size` bytes so far. A proved loop has to end, and
// nothing says that the input does: no run uses up so many turns.
fn read_on(
    rt: HostRuntime,
    failed: &mut bool,
    size: usize,
    buffer: &mut [u8],
    line: &mut [u8],
) -> Next
    requires { failed.old ≡ false }
    ensures { Found failed.new size [] line.old buffer.new line.new result }
{
    let mut size = size;
    for _ in 0..u64::MAX {
        let end = streams::read(rt, failed, buffer);
        if *failed {
            return finished(size, false);
        }
        if end == 0 {
            return finished(size, size > 0);
        }
        let g = gather(line, size, &buffer[..end], 0);
        size = g.size;
        if g.ended {
            return ended(g.next, end, size);
        }
    }
    finished(size, size > 0)
}

// The next line, at the front of its room: what waits in the buffer, and what is read behind it.
pub fn next_line(
    rt: HostRuntime,
    failed: &mut bool,
    input: Input,
    buffer: &mut [u8],
    line: &mut [u8],
) -> Next
    ensures { Nexts failed.old input buffer.old line.old failed.new buffer.new line.new result }
{
    if *failed {
        return finished(0, false);
    }
    if input.over {
        return finished(0, false);
    }
    let at = input.at;
    let end = input.end.min(buffer.len());
    let g = gather(line, 0, &buffer[..end], at);
    if g.ended {
        return ended(g.next, end, g.size);
    }
    read_on(rt, failed, g.size, buffer, line)
}

// A line that its room does not hold counts as an empty one.
pub fn whole_in(size: usize, room: &[u8]) -> usize
    ensures value { result ≡ whole_in size (length room.now) }
    ensures prefix_len { IsPrefixLen result room.now }
{
    if size <= room.len() {
        return size;
    }
    0
}
