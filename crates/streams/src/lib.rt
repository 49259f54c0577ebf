// Input and output for every program. A read or a write that fails is told once, in words, on standard error, and marks the flag that the program lends; from then on nothing is read, what the
// program lends to read into stays, and nothing is printed. So a failed read is never taken for the end
// of the input, and a program that passes the flag along has nothing else to look after.
#![tactic(auto)]

mod words; // the words of an error

ghost use Rattle.std.specs.Prelude.{◌≡◌, true};
ghost use Rattle.io.specs.Counts.{IsPrefixLen};

use std::fmt::Display;
use std::io::{Error, Print, Read, Result};
use text::put_decimal;
use words::Words;

// Writes a text to standard error, as far as it takes it.
pub fn tell(rt: HostRuntime, text: &[u8]) {
    let _ = rt.stderr().write_all(text);
}

// Writes a line to standard error: what failed, a colon and the words of the error.
pub fn fail(rt: HostRuntime, what: &[u8], error: &Error) {
    let words = Words::of(error);
    tell(rt, what);
    tell(rt, b": ");
    tell(rt, words.bytes());
    tell(rt, b"\n");
}

// One read of a reader into the buffer: how many bytes came, none at the end of the input. What is told
// of a failure begins with `what`.
pub fn read_from<R: Read>(
    rt: HostRuntime,
    failed: &mut bool,
    buffer: &mut [u8],
    from: &mut R,
    what: &[u8],
) -> usize
    ensures prefix_len { IsPrefixLen result buffer.new }
    ensures failed_after { failed.old ≡ true → (failed.new ≡ true) × (result ≡ 0) × (buffer.new ≡ buffer.old) }
{
    if *failed {
        return 0;
    }
    match from.read(buffer) {
        Ok(got) => got,
        Err(error) => {
            fail(rt, what, &error);
            *failed = true;
            0
        }
    }
}

// One read of standard input.
pub fn read(rt: HostRuntime, failed: &mut bool, buffer: &mut [u8]) -> usize
    ensures prefix_len { IsPrefixLen result buffer.new }
    ensures failed_after { failed.old ≡ true → (failed.new ≡ true) × (result ≡ 0) × (buffer.new ≡ buffer.old) }
{
    read_from(
        rt,
        failed,
        buffer,
        &mut rt.stdin(),
        b"cannot read standard input",
    )
}

// A write that failed is told, and marks the flag.
fn mark(rt: HostRuntime, failed: &mut bool, written: Result<()>)
    ensures { failed.old ≡ true → failed.new ≡ true }
{
    if let Err(error) = written {
        fail(rt, b"cannot write to standard output", &error);
        *failed = true;
    }
}

// Writes the whole text to standard output.
pub fn print(rt: HostRuntime, failed: &mut bool, text: &[u8])
    ensures { failed.old ≡ true → failed.new ≡ true }
{
    if !*failed {
        mark(rt, failed, rt.stdout().write_all(text));
    }
}

// Writes the first bytes of a room to standard output; nothing where the room has fewer.
pub fn print_room(rt: HostRuntime, failed: &mut bool, room: &[u8], n: usize)
    ensures { failed.old ≡ true → failed.new ≡ true }
{
    if n <= room.len() {
        print(rt, failed, &room[..n]);
    }
}

// Writes to standard output what a value shows, and a newline behind it.
pub fn print_line<D: Display + Drop>(rt: HostRuntime, failed: &mut bool, shown: D)
    ensures { failed.old ≡ true → failed.new ≡ true }
{
    if !*failed {
        mark(rt, failed, rt.stdout().println(shown));
    }
}

pub fn print_decimal(rt: HostRuntime, failed: &mut bool, n: u64)
    ensures { failed.old ≡ true → failed.new ≡ true }
{
    let mut digits = [0u8; 20];
    let k = put_decimal(&mut digits, 0, n);
    print(rt, failed, &digits[0..k]);
}

// Reads a reader to its end, or until the space is full.
pub fn read_all_from<R: Read>(
    rt: HostRuntime,
    failed: &mut bool,
    space: &mut [u8],
    from: &mut R,
    what: &[u8],
) -> usize
    ensures prefix_len { IsPrefixLen result space.new }
    ensures failed_after { failed.old ≡ true → (failed.new ≡ true) × (result ≡ 0) × (space.new ≡ space.old) }
{
    let mut n = 0;
    while n < space.len() {
        let more = read_from(rt, failed, &mut space[n..], from, what);
        if more == 0 {
            return n;
        }
        n += more;
    }
    n
}

// Reads standard input so.
pub fn read_all(rt: HostRuntime, failed: &mut bool, space: &mut [u8]) -> usize
    ensures prefix_len { IsPrefixLen result space.new }
    ensures failed_after { failed.old ≡ true → (failed.new ≡ true) × (result ≡ 0) × (space.new ≡ space.old) }
{
    read_all_from(
        rt,
        failed,
        space,
        &mut rt.stdin(),
        b"cannot read standard input",
    )
}
