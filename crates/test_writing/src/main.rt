// Writes each pair of standard input anew and prints what becomes of the room that is lent: the number
// that write_line tells, how many bytes it hands back, and the whole room. The rooms are longer than a
// line, exactly a line, and a byte too short; then records that no line can hold. The input has 140 bytes
// a pair: two lines of 69, each ended by a newline.
#![tactic(auto)]

ghost use Rattle.std.specs.Prelude.{◌≤◌};

use text::{put_byte, put_bytes, put_decimal};
use tle::{Line, Record};
use tle_writer::write_line;

// How many bytes are handed back of the room.
fn written(r: Record, which: Line, room: &mut [u8], why: &mut u8) -> u64 {
    let part = write_line(r, which, room, why);
    part.len() as u64
}

fn print_room(rt: HostRuntime, failed: &mut bool, why: u8, handed: u64, room: &[u8]) {
    let mut out = [0u8; 128];
    let p = put_decimal(&mut out, 0, why as u64);
    let p = put_byte(&mut out, p, b' ');
    let p = put_decimal(&mut out, p, handed);
    let p = put_byte(&mut out, p, b' ');
    let p = put_bytes(&mut out, p, room);
    let n = put_byte(&mut out, p, b'\n');
    streams::print_room(rt, failed, &out, n);
}

// The line in a room of N bytes.
fn print_written<const N: usize>(rt: HostRuntime, failed: &mut bool, r: Record, which: Line)
    requires { N ≤ 80 }
{
    let mut room = [b'#'; N];
    let mut why = 255;
    let handed = written(r, which, &mut room, &mut why);
    print_room(rt, failed, why, handed, &room);
}

// With another epoch.
fn print_on(rt: HostRuntime, failed: &mut bool, r: Record, which: Line, year: u64, day: u64) {
    let mut other = r;
    other.year = year;
    other.day = day;
    print_written::<80>(rt, failed, other, which);
}

fn print_line(rt: HostRuntime, failed: &mut bool, r: Record, which: Line) {
    print_written::<80>(rt, failed, r, which);
    print_written::<69>(rt, failed, r, which);
    print_written::<68>(rt, failed, r, which);
    let mut beyond = r;
    beyond.inclination = 1800001;
    print_written::<80>(rt, failed, beyond, which);
    let mut beyond = r;
    beyond.number = 340000;
    print_written::<80>(rt, failed, beyond, which);
    print_on(rt, failed, r, which, 2001, 36600000000);
    print_on(rt, failed, r, which, 2055, 36699999999);
    print_on(rt, failed, r, which, 2000, 36700000000);
}

fn print_pair(rt: HostRuntime, failed: &mut bool, line1: &[u8], line2: &[u8]) {
    let form = tle::read_form(line1, line2);
    let Ok(fields) = form else {
        streams::print(rt, failed, b"refused\n");
        return;
    };
    match tle::read_meaning(fields) {
        Ok(r) => {
            print_line(rt, failed, r, Line::One);
            print_line(rt, failed, r, Line::Two);
        }
        Err(_) => streams::print(rt, failed, b"refused\n"),
    }
}

fn print_pairs(rt: HostRuntime, failed: &mut bool, s: &[u8]) {
    let (pairs, _) = s.as_chunks::<140>();
    for pair in pairs {
        print_pair(rt, failed, &pair[..69], &pair[70..139]);
    }
}

fn main(rt: HostRuntime) {
    let mut failed = false;
    let mut space = [0u8; 65536];
    let n = streams::read_all(rt, &mut failed, &mut space);
    print_pairs(rt, &mut failed, &space[..n]);
}
