// The recorded answers of the original as text: entries ended by a tab, a space, a colon or a newline, and the digest of a long field.
#![tactic(auto)]

// A number, `-` where the original found nothing, `!` where it stopped, `.` where it made a change.
#[derive(Clone, Copy, PartialEq, Eq, Debug)]
pub enum Entry {
    Empty,
    Number(u64),
    Nothing,
    Stopped,
    Done,
    Other,
}

impl Entry {
    fn first(b: u8) -> Entry {
        match b {
            b'0'..=b'9' => Entry::Number(u64::from(b - b'0')),
            b'-' => Entry::Nothing,
            b'!' => Entry::Stopped,
            b'.' => Entry::Done,
            _ => Entry::Other,
        }
    }

    // The entry and one byte more: no leading zero, and no number past u64.
    fn grown(self, b: u8) -> Entry {
        match self {
            Entry::Empty => Entry::first(b),
            Entry::Number(n) if n != 0 => match Entry::first(b) {
                Entry::Number(d) if n <= (u64::MAX - d) / 10 => Entry::Number(n * 10 + d),
                _ => Entry::Other,
            },
            _ => Entry::Other,
        }
    }
}

// An entry, the byte that ends it (0 at the end of the text), and where the next one starts.
#[derive(Clone, Copy, PartialEq, Eq, Debug)]
pub struct Read {
    pub entry: Entry,
    pub stop: u8,
    pub next: usize,
}

// The entry that starts at `at`.
pub fn next_entry(text: &[u8], at: usize) -> Read {
    let mut entry = Entry::Empty;
    for i in at..text.len() {
        let b = text[i];
        if matches!(b, b'\t' | b' ' | b':' | b'\n') {
            return Read {
                entry,
                stop: b,
                next: i + 1,
            };
        }
        entry = entry.grown(b);
    }
    Read {
        entry,
        stop: 0,
        next: at.max(text.len()),
    }
}

// The byte at `at`, and 0 past the end.
pub fn byte_at(text: &[u8], at: usize) -> u8 {
    text.get(at).copied().unwrap_or(0)
}

// Whether the text has these bytes at `at`.
pub fn begins(text: &[u8], at: usize, bytes: &[u8]) -> bool {
    text[at.min(text.len())..].starts_with(bytes)
}

// Where the text goes on behind `k` more tabs.
pub fn behind_tabs(text: &[u8], at: usize, k: usize) -> usize {
    let mut left = k;
    for i in at..text.len() {
        if left == 0 {
            return i;
        }
        if text[i] == b'\t' {
            left -= 1;
        }
    }
    at.max(text.len())
}

// How many answers were compared, and how many were different.
#[derive(Clone, Copy, PartialEq, Eq, Debug)]
pub struct Tally {
    pub answers: u64,
    pub different: u64,
}

impl Tally {
    pub fn new() -> Tally {
        Tally {
            answers: 0,
            different: 0,
        }
    }

    // An answer or a part of a line's form that is not as it should be.
    pub fn wrong(&mut self) {
        self.different = self.different.wrapping_add(1);
    }
}

// The reading of a text: where it stands, and what it told so far.
#[derive(Clone, Copy)]
pub struct Run<'a> {
    pub text: &'a [u8],
    pub at: usize,
    pub tally: Tally,
}

impl<'a> Run<'a> {
    // The reading from the start of a text on.
    pub fn new(text: &'a [u8], tally: Tally) -> Run<'a> {
        Run { text, at: 0, tally }
    }

    // Whether the text goes on with these bytes: then they are read.
    pub fn took(&mut self, bytes: &[u8]) -> bool {
        let there = begins(self.text, self.at, bytes);
        if there {
            self.at = self.at.wrapping_add(bytes.len());
        }
        there
    }

    pub fn wrong(&mut self) {
        self.tally.wrong();
    }

    // A line that has not the form of a line: nothing behind it is read.
    pub fn lost(&mut self) {
        self.at = self.text.len();
        self.wrong();
    }

    // One answer, ended by the byte `stop`.
    pub fn compare(&mut self, want: Entry, stop: u8) {
        let read = next_entry(self.text, self.at);
        self.at = read.next;
        self.tally.answers = self.tally.answers.wrapping_add(1);
        if read.stop != stop || read.entry != want || want == Entry::Other {
            self.wrong();
        }
    }

    // A field left out, `#bytes:digest`, ended by the byte `stop`.
    pub fn compare_digest(&mut self, d: Digest, stop: u8) {
        if byte_at(self.text, self.at) != b'#' {
            self.wrong();
            return;
        }
        self.at = self.at.wrapping_add(1);
        self.compare(Entry::Number(d.bytes), b':');
        self.compare(Entry::Number(d.h), stop);
    }
}

// How many bytes a field has, and its digest: h starts as 1, and for each byte b becomes (h * 1000003 + b) mod 4294967291.
#[derive(Clone, Copy, PartialEq, Eq, Debug)]
pub struct Digest {
    pub bytes: u64,
    pub h: u64,
}

impl Digest {
    pub fn new() -> Digest {
        Digest { bytes: 0, h: 1 }
    }

    pub fn feed(&mut self, b: u8) {
        self.bytes = self.bytes.wrapping_add(1);
        self.h = (self.h % 4294967291 * 1000003 + u64::from(b)) % 4294967291;
    }

    // The digits of x, the highest first: those of the thousands, then at most three more.
    pub fn feed_number(&mut self, x: u64) {
        if 999 < x {
            self.feed_number(x / 1000);
        }
        if 99 < x {
            self.feed(b'0' + (x / 100 % 10) as u8);
        }
        if 9 < x {
            self.feed(b'0' + (x / 10 % 10) as u8);
        }
        self.feed(b'0' + (x % 10) as u8);
    }
}
