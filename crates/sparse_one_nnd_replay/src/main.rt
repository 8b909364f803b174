// Replays the recorded answers of the original about sparse dictionaries, and compares each with what the dictionary here holds and answers. Where
// 01 differs from the original the answer is 01's, and the record is held to what the original does there. Then each dictionary is damaged and asked
// again. The input is testdata/dict.txt, whole.
#![tactic(auto)]

mod list;
mod text;
mod want;

use list::{read_args, read_ones};
use recorded::Digest;
use refusal::Refusal;
use sparse_one_nnd::{DictAreas, SparseOneNnd};
use text::{Entry, Read, next_entry};
use want::{Case, Field, ask};

// How many answers were compared and how many were different; how many were asked of damaged areas and how many of those are BROKEN.
#[derive(Clone, Copy)]
struct Tally {
    answers: u64,
    different: u64,
    damaged: u64,
    broken: u64,
}

impl Tally {
    fn new() -> Tally {
        Tally {
            answers: 0,
            different: 0,
            damaged: 0,
            broken: 0,
        }
    }

    // One more answer, as it should be or not.
    fn compared(&mut self, right: bool) {
        self.answers = self.answers.wrapping_add(1);
        self.different = self.different.wrapping_add(u64::from(!right));
    }

    fn asked_damaged(&mut self, broken: bool) {
        self.damaged = self.damaged.wrapping_add(1);
        self.broken = self.broken.wrapping_add(u64::from(broken));
    }
}

// The reading of the text: where it stands, and what it told so far.
#[derive(Clone, Copy)]
struct Run<'a> {
    text: &'a [u8],
    at: usize,
    tally: Tally,
}

impl Run<'_> {
    fn read(&mut self) -> Read {
        let read = next_entry(self.text, self.at);
        self.at = read.next;
        read
    }
}

// The digest of the first n bytes, which the record leaves out: the numbers in decimal, parted by spaces.
fn digest(bytes: &[u8], n: usize) -> Entry {
    let mut d = Digest::new();
    for (i, &b) in bytes.iter().take(n).enumerate() {
        if 0 < i {
            d.feed(b' ');
        }
        d.feed_number(u64::from(b));
    }
    Entry::Digest(d.bytes as usize, d.h as usize)
}

// The entries of a field, one after another, each ended by a space, and the last by a tab or, in the last field, by a newline.
fn entries(run: &mut Run<'_>, case: Case, areas: DictAreas<'_>, args: &[usize], field: Field) {
    let n = case.length(field);
    let last = if field == Field::Succ { b'\n' } else { b'\t' };
    for i in 0..n {
        let stop = if i + 1 == n { last } else { b' ' };
        let x = if field.is_question() {
            args.get(i).copied().unwrap_or(0)
        } else {
            i
        };
        let read = run.read();
        let right = read.stop == stop && case.is_right(areas, field, x, read.entry);
        run.tally.compared(right);
    }
}

// A field: an empty one, a digest, or its entries.
fn field(run: &mut Run<'_>, case: Case, areas: DictAreas<'_>, args: &[usize], field: Field) {
    let first = next_entry(run.text, run.at);
    let n = case.length(field);
    match first.entry {
        Entry::Digest(_, _) => {
            run.at = first.next;
            run.tally.compared(first.entry == digest(areas.bytes, n));
        }
        Entry::Empty => {
            run.at = first.next;
            run.tally.compared(n == 0);
        }
        _ => entries(run, case, areas, args, field),
    }
}

// A damaged dictionary, asked the four questions at every argument.
fn damaged(
    run: &mut Run<'_>,
    counts: SparseOneNnd,
    areas: DictAreas<'_>,
    args: &[usize],
    n: usize,
) {
    for i in 0..n {
        let x = args.get(i).copied().unwrap_or(0);
        for &question in &Field::QUESTIONS {
            let broken = ask(counts, areas, question, x).is_err();
            run.tally.asked_damaged(broken);
        }
    }
}

// The answers of a case, and then, unless it is FULL, those of the damaged dictionary: its first count byte is made 255,
// so the areas are lent one by one.
fn check(
    run: &mut Run<'_>,
    case: Case,
    bytes: &mut [u8],
    middles: &[u16],
    larges: &[u64],
    args: &[usize],
) {
    for &each in &Field::ALL {
        let areas = DictAreas {
            bytes,
            middles,
            larges,
        };
        field(run, case, areas, args, each);
    }
    let Some(counts) = case.counts else {
        return;
    };
    if let Some(first) = bytes.first_mut() {
        *first = 255;
    }
    let areas = DictAreas {
        bytes,
        middles,
        larges,
    };
    damaged(run, counts, areas, args, case.args);
}

// One line: its kind, the length, the ones, the arguments, and the answers.
fn line(
    run: &mut Run<'_>,
    ws: &mut [u64],
    bytes: &mut [u8],
    middles: &mut [u16],
    larges: &mut [u64],
    args: &mut [usize],
) {
    run.read();
    let Entry::One(bits) = run.read().entry else {
        run.at = run.text.len();
        run.tally.compared(false);
        return;
    };
    ws.fill(0);
    let ones = read_ones(run.text, run.at, ws);
    let given = read_args(run.text, ones.next, args);
    run.at = given.next;
    let counts = match SparseOneNnd::build(ws, bits, bytes, middles, larges) {
        Ok(counts) => Some(counts),
        Err(Refusal::Full(_, _)) => None,
        Err(_) => Some(SparseOneNnd::empty()),
    };
    let case = Case {
        ones: ones.count,
        last: ones.last,
        args: given.count,
        counts,
    };
    check(run, case, bytes, middles, larges, args);
}

// All lines. A line is never empty, so the reading gets on. The step is a line's length, so this is no `for`.
fn replay(
    text: &[u8],
    ws: &mut [u64],
    bytes: &mut [u8],
    middles: &mut [u16],
    larges: &mut [u64],
    args: &mut [usize],
) -> Tally {
    let mut run = Run {
        text,
        at: 0,
        tally: Tally::new(),
    };
    let mut at = 0;
    while at < text.len() {
        line(&mut run, ws, bytes, middles, larges, args);
        if run.at <= at {
            run.tally.compared(false);
            return run.tally;
        }
        at = run.at;
    }
    run.tally
}

fn main() {
    let mut text = [0u8; 262144];
    let mut ws = [0u64; 4352];
    let mut bytes = [0u8; 131072];
    let mut middles = [0u16; 512];
    let mut larges = [0u64; 32];
    let mut args = [0usize; 256];
    let n = io::read_full(0, &mut text);
    let tally = replay(
        &text[..n],
        &mut ws,
        &mut bytes,
        &mut middles,
        &mut larges,
        &mut args,
    );
    io::write_all(1, b"sparse_one_nnd: ");
    io::print_decimal(1, tally.answers);
    io::write_all(1, b" answers, ");
    io::print_decimal(1, tally.different);
    io::write_all(1, b" different; on damaged areas ");
    io::print_decimal(1, tally.damaged);
    io::write_all(1, b" answers, ");
    io::print_decimal(1, tally.broken);
    io::write_all(1, b" BROKEN\n");
}
