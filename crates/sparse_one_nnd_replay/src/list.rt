// The places of the ones and the arguments of a case: numbers a and spans a:b.
ghost use Rattle.std.specs.Prelude.{◌≡◌, ◌<◌, length, OnSome};

use crate::text::{Entry, next_entry};

// The numbers from the first up to before the second.
#[derive(Clone, Copy, PartialEq, Eq, Debug)]
struct Span {
    start: usize,
    end: usize,
}

impl Span {
    fn of(entry: Entry) -> Span {
        match entry {
            Entry::One(a) => Span {
                start: a,
                end: a.wrapping_add(1),
            },
            Entry::Two(a, b) => Span {
                start: a,
                end: b.wrapping_add(1),
            },
            _ => Span { start: 0, end: 0 },
        }
    }
}

// A list as it is read: where its next entry starts, if it is not read to its end; how many numbers it has so far, and the last of them.
#[derive(Clone, Copy)]
pub struct Listed<'a> {
    text: &'a [u8],
    open: bool,
    pub next: usize,
    pub count: usize,
    pub last: usize,
}

impl<'a> Listed<'a> {
    fn new(text: &'a [u8], at: usize) -> Listed<'a> {
        Listed {
            text,
            open: true,
            next: at,
            count: 0,
            last: 0,
        }
    }

    // The span of the next entry. Each is a byte long or more, so the reading gets on.
    fn read(&mut self) -> Option<Span>
        ensures { OnSome result ((self.new.text ≡ self.old.text) × (self.old.next < length self.old.text.now) × (self.old.next < self.new.next)) }
    {
        if !self.open || self.text.len() <= self.next {
            return None;
        }
        let read = next_entry(self.text, self.next);
        let span = Span::of(read.entry);
        if span.start < span.end {
            self.count = self.count.wrapping_add(span.end - span.start);
            self.last = span.end - 1;
        }
        self.open = read.stop == b' ';
        self.next = read.next;
        Some(span)
    }
}

// The ones of a case, stored in words.
pub fn read_ones<'a>(text: &'a [u8], at: usize, words: &mut [u64]) -> Listed<'a> {
    let mut list = Listed::new(text, at);
    // Each reading goes on behind the last one, so no `for`.
    while let Some(span) = list.read() {
        for i in span.start..span.end {
            words::store(words, i, true);
        }
    }
    list
}

// The arguments of a case, as many as there is room for.
pub fn read_args<'a>(text: &'a [u8], at: usize, args: &mut [usize]) -> Listed<'a> {
    let mut list = Listed::new(text, at);
    let mut free = 0;
    // Each reading goes on behind the last one, so no `for`.
    while let Some(span) = list.read() {
        if let Some(rest) = args.get_mut(free..) {
            for (arg, i) in rest.iter_mut().zip(span.start..span.end) {
                *arg = i;
            }
        }
        free = list.count;
    }
    list
}
