// Words and numbers of a line. A line is its bytes with the newline that ends it; a space, a tab or the newline ends a word.
use crate::Fault;

// The first word of a text, and what stands behind the byte that ends it.
pub fn word(text: &[u8]) -> (&[u8], &[u8]) {
    match text.iter().position(|b| matches!(*b, b' ' | b'\t' | b'\n')) {
        Some(end) => (&text[..end], &text[end + 1..]),
        None => (&[], &[]),
    }
}

// The number that a text is in decimal, at most 2^64 - 1 and without leading zeros.
pub fn number_of(text: &[u8]) -> Option<usize> {
    if text.is_empty() || (1 < text.len() && text[0] == b'0') {
        return None;
    }
    let mut n: usize = 0;
    for b in text {
        if !b.is_ascii_digit() {
            return None;
        }
        n = n.checked_mul(10)?.checked_add(usize::from(*b - b'0'))?;
    }
    Some(n)
}

// The number that the first word is, and what stands behind it.
pub fn number(text: &[u8]) -> Result<(usize, &[u8]), Fault> {
    let (first, rest) = word(text);
    match number_of(first) {
        Some(n) => Ok((n, rest)),
        None => Err(Fault::Number),
    }
}

// The two numbers that are all of a text.
pub fn pair(text: &[u8]) -> Result<(usize, usize), Fault> {
    let (first, behind) = number(text)?;
    let (second, rest) = number(behind)?;
    if rest.is_empty() {
        Ok((first, second))
    } else {
        Err(Fault::Number)
    }
}

// The word that is all of a text.
pub fn only_word(text: &[u8]) -> Option<&[u8]> {
    let (first, rest) = word(text);
    if rest.is_empty() { Some(first) } else { None }
}
