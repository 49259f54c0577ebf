// An error in words, as the system says them, without the number that follows them in brackets.
use std::fmt;
use std::fmt::Write;
use std::io::Error;

#[derive(Clone, Copy)]
pub(crate) struct Words {
    bytes: [u8; 128],
    size: usize,
}

// Where the number begins, ` (os error`, or else the end.
fn before_number(text: &[u8]) -> usize {
    let number = text.windows(10).position(|w| w == b" (os error".as_slice());
    number.unwrap_or(text.len())
}

impl Words {
    pub(crate) fn of(error: &Error) -> Words {
        let mut words = Words {
            bytes: [0; 128],
            size: 0,
        };
        let _ = write!(words, "{error}");
        words.size = before_number(words.bytes());
        words
    }

    pub(crate) fn bytes(&self) -> &[u8] {
        if self.size <= 128 {
            return &self.bytes[..self.size];
        }
        &self.bytes[..]
    }
}

// What has no room is left out.
impl fmt::Write for Words {
    fn write_str(&mut self, s: &str) -> fmt::Result {
        for b in s.as_bytes() {
            if self.size < 128 {
                self.bytes[self.size] = *b;
                self.size += 1;
            }
        }
        Ok(())
    }
}
