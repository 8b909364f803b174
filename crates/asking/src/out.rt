// The bytes of the answers, which go to standard output where there is no room for more.
use crate::Answer;
use arrayvec::ArrayVec;
use std::fmt;
use std::fmt::Write;

// Numbers below it have six digits at most. Most answers are such a number, and for so few digits a call of `Display` costs more than they do.
const SHORT: usize = 1000000;

#[derive(Drop)]
pub struct Out {
    text: ArrayVec<u8, 65536>,
}

impl Out {
    pub fn new() -> Self {
        Out {
            text: ArrayVec::new(),
        }
    }

    // All that stands here goes out.
    pub fn flush(&mut self) {
        io::write_all(1, self.text.as_slice());
        self.text.clear();
    }

    pub fn byte(&mut self, b: u8) {
        if self.text.is_full() {
            self.flush();
        }
        let _ = self.text.try_push(b);
    }

    // A number's digits, as its `Display` has them.
    fn number(&mut self, n: usize) {
        let mut digits = [0u8; 20];
        let count = io::decimal(n as u64, &mut digits);
        for b in &digits[..count] {
            self.byte(*b);
        }
    }

    pub fn answer(&mut self, a: Answer) {
        match a {
            Answer::Number(n) if n < SHORT => self.number(n),
            _ => {
                let _ = write!(self, "{a}");
            }
        }
    }

    // An entry of an answer line, with a space before it unless it is the first.
    pub fn entry(&mut self, first: bool, a: Answer) {
        if !first {
            self.byte(b' ');
        }
        self.answer(a);
    }
}

impl fmt::Write for Out {
    fn write_str(&mut self, s: &str) -> fmt::Result {
        for b in s.as_bytes() {
            self.byte(*b);
        }
        Ok(())
    }
}
