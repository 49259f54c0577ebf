// Prints for each of the 256 byte values what it adds to the checksum. The expected output is made by
// tests/checksum_weights.py.
#![tactic(auto)]

use columns::weight;
use streams::print_line;

fn main(rt: HostRuntime) {
    let mut failed = false;
    for byte in 0..=u8::MAX {
        let added = weight(byte);
        print_line(rt, &mut failed, format_args!("{byte} {added}"));
    }
}
