// From the text of a line to numbers.

// What stands before the first blank and behind it.
pub(crate) fn cut(text: &[u8]) -> Option<(&[u8], &[u8])> {
    let n = text.iter().position(|b| *b == b' ')?;
    Some((&text[..n], &text[n + 1..]))
}

fn digit(b: u8) -> Option<u64> {
    match b {
        b'0'..=b'9' => Some((b - b'0') as u64),
        b'a'..=b'f' => Some((b - b'a') as u64 + 10),
        _ => None,
    }
}

// The last 16 of the digits.
fn hex(word: &[u8]) -> Option<u64> {
    let mut bits = 0u64;
    for b in word {
        bits = bits << 4 | digit(*b)?;
    }
    Some(bits)
}

// `nan`, or 16 hex digits that are no NaN's.
pub(crate) fn read_number(word: &[u8]) -> Option<f64> {
    if word == b"nan".as_slice() {
        return Some(f64::NAN);
    }
    if word.len() != 16 {
        return None;
    }
    let bits = hex(word)?;
    if bits % 0x8000_0000_0000_0000 > 0x7ff0_0000_0000_0000 {
        return None;
    }
    Some(f64::from_bits(bits))
}
