// The entries of the recorded text: a number, `a:b`, a digest `#n:d`, `-` where the original found nothing, `!` where it stopped; each ended
// by a tab, a space or a newline. `recorded` reads other texts: there a colon ends an entry.

ghost use Rattle.std.specs.Prelude.{◌<◌, length};

// An entry, or what of it is read: the last five are no entry of the text.
#[derive(Clone, Copy, PartialEq, Eq, Debug)]
pub enum Entry {
    Empty,
    One(usize),
    Two(usize, usize),
    Digest(usize, usize),
    Nothing,
    Stopped,
    Colon(usize),
    Hash,
    Size(usize),
    Sized(usize),
    Other,
}

// The number with a further digit; a number that grows past 2^60 stays as it is.
fn grown(n: usize, digit: usize) -> usize {
    if n < 0x1000_0000_0000_0000 && digit < 10 {
        return n * 10 + digit;
    }
    n
}

impl Entry {
    fn after_digit(self, digit: usize) -> Entry {
        match self {
            Entry::Empty => Entry::One(digit),
            Entry::One(a) => Entry::One(grown(a, digit)),
            Entry::Colon(a) => Entry::Two(a, digit),
            Entry::Two(a, b) => Entry::Two(a, grown(b, digit)),
            Entry::Hash => Entry::Size(digit),
            Entry::Size(n) => Entry::Size(grown(n, digit)),
            Entry::Sized(n) => Entry::Digest(n, digit),
            Entry::Digest(n, d) => Entry::Digest(n, grown(d, digit)),
            Entry::Nothing | Entry::Stopped | Entry::Other => Entry::Other,
        }
    }

    // The entry and one byte more.
    fn after(self, b: u8) -> Entry {
        match (self, b) {
            (_, b'0'..=b'9') => self.after_digit(usize::from(b - b'0')),
            (Entry::Empty, b'-') => Entry::Nothing,
            (Entry::Empty, b'!') => Entry::Stopped,
            (Entry::Empty, b'#') => Entry::Hash,
            (Entry::One(a), b':') => Entry::Colon(a),
            (Entry::Size(n), b':') => Entry::Sized(n),
            _ => Entry::Other,
        }
    }
}

// An entry, the byte that ends it (0 at the end of the text), and where the next one starts.
#[derive(Clone, Copy, PartialEq, Eq, Debug)]
pub struct Read {
    pub entry: Entry,
    pub stop: u8,
    pub next: usize,
}

// The entry that starts at `at`.
pub fn next_entry(text: &[u8], at: usize) -> Read
    ensures { at < length text.now → at < result.next }
{
    let mut entry = Entry::Empty;
    for i in at..text.len() {
        let b = text[i];
        if matches!(b, b'\t' | b' ' | b'\n') {
            return Read {
                entry,
                stop: b,
                next: i + 1,
            };
        }
        entry = entry.after(b);
    }
    Read {
        entry,
        stop: 0,
        next: at.max(text.len()),
    }
}
