// Bytes out and bytes in, once for every program: numbers and labels as text into a lent buffer, and
// lines from an input that comes in pieces of any size.
#![tactic(auto)]

pub mod input;
pub mod output;

pub use input::{Gathered, Line, Lines, gather};
pub use output::{
    put_byte, put_bytes, put_decimal, put_five_digits, put_line, put_pattern, put_signed,
};
