// A line's case: its bits pushed into words that hold something else, its edits made, its arguments listed.
use bit_string::{push, resize, set};
use recorded::{Entry, next_entry};
use refusal::Refusal;

// How many bits or arguments there are, and where the reading stands.
#[derive(Clone, Copy, PartialEq, Eq, Debug)]
pub struct Loaded {
    pub n: usize,
    pub next: usize,
}

// The bits up to the next tab, pushed one after another.
pub fn push_bits(text: &[u8], at: usize, words: &mut [u64]) -> Option<Loaded> {
    let mut n = 0;
    for i in at..text.len() {
        match text[i] {
            b'\t' => return Some(Loaded { n, next: i + 1 }),
            b'0' => n = push(words, n, false).unwrap_or(0),
            b'1' => n = push(words, n, true).unwrap_or(0),
            _ => return None,
        }
    }
    None
}

// One edit: `pB`, `sI:B` or `rN`. The length after it, and its outcome in the record's terms: `.` for a change, `!` where the original
// stops and 01 says PLACE. The words are lent to be written, so the length is apart, as `bit_string::push` has it.
pub fn edit(words: &mut [u64], n: usize, letter: u8, a: usize, b: bool) -> (usize, Entry) {
    let (done, place) = match letter {
        b'p' => (push(words, n, a == 1), n),
        b's' => (set(words, n, a, b), a),
        b'r' => (resize(words, n, a), a),
        _ => return (n, Entry::Other),
    };
    match done {
        Ok(m) => (m, Entry::Done),
        Err(refusal) if refusal == Refusal::Place(place) => (n, Entry::Stopped),
        Err(_) => (n, Entry::Other),
    }
}

// The number of an entry, and more than any where it is none.
pub fn number_of(entry: Entry) -> usize {
    match entry {
        Entry::Number(x) => x as usize,
        _ => usize::MAX,
    }
}

// The numbers from a to e, behind the first k of the list; as many as it has room for.
fn list_run(args: &mut [u64], k: usize, a: usize, e: usize) -> usize {
    let mut at = k;
    for i in a..=e {
        if args.len() <= at {
            return at;
        }
        args[at] = i as u64;
        at += 1;
    }
    at
}

// The list of numbers up to the next tab, `a` and `a:e`.
pub fn list_args(text: &[u8], at: usize, args: &mut [u64]) -> Option<Loaded> {
    let mut n = 0;
    let mut next = at;
    for _ in 0..text.len() {
        let low = next_entry(text, next);
        let high = if low.stop == b':' {
            next_entry(text, low.next)
        } else {
            low
        };
        next = high.next;
        let a = number_of(low.entry);
        let e = number_of(high.entry);
        if e < a || args.len() <= e - a {
            return None;
        }
        n = list_run(args, n, a, e);
        if high.stop == b'\t' {
            return Some(Loaded { n, next });
        }
    }
    None
}
