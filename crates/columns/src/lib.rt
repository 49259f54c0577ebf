// The columns of a line: how many of them agree with a layout, the digit that a byte shows, what the
// first place of a catalogue number stands for, and the checksum of bytes. What the columns mean is read
// in crate tle.
#![tactic(auto)]

mod catalogue;
mod digits;
mod layout;
mod three;

pub use catalogue::first_place;
pub use digits::{checksum, digit, weight};
pub use layout::agreeing;
