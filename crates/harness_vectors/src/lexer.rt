// The words of a line, taken in a byte at a time.
use crate::line::WORDS;
use arrayvec::ArrayVec;

#[derive(Drop)]
pub struct Lexer {
    // The words of the line that are whole.
    words: ArrayVec<u64, WORDS>,
    // The number that the digits after them make, where there are any.
    number: Option<u64>,
}

impl Lexer {
    // At a line's beginning.
    pub fn new() -> Self {
        Lexer {
            words: ArrayVec::new(),
            number: None,
        }
    }

    pub fn clear(&mut self) {
        self.words.clear();
    }

    pub fn words(&self) -> &[u64] {
        self.words.as_slice()
    }

    // Whether a line has begun.
    pub fn is_within(&self) -> bool {
        self.number.is_some() || !self.words.is_empty()
    }

    // Takes in a byte, and answers whether the line is whole; None where it is bad. A space or a newline ends a word, which has
    // digits.
    pub fn take_in(&mut self, byte: u8) -> Option<bool> {
        if !matches!(byte, b' ' | b'\n') {
            self.number = Some(appended(self.number, digit(byte)?)?);
            return Some(false);
        }
        self.words.try_push(self.number.take()?).ok()?;
        Some(byte == b'\n')
    }
}

// A number with one digit more. It has no leading zero, and fits in 64 bits.
fn appended(number: Option<u64>, digit: u64) -> Option<u64> {
    match number {
        None => Some(digit),
        Some(0) => None,
        Some(number) => Some(number.checked_mul(16)? | digit),
    }
}

fn digit(byte: u8) -> Option<u64> {
    match byte {
        b'0'..=b'9' => Some((byte - b'0') as u64),
        b'a'..=b'f' => Some((byte - b'a') as u64 + 10),
        _ => None,
    }
}
