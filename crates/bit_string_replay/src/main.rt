// Replays the recorded answers of the original about bit strings and the plain scan, and compares each with what `bit_string` and
// `ops::linear_fid` answer. Where 01 differs from the original the answer is 01's, and the record is held to what the original does there.
// The input is testdata/bits.txt and testdata/ops.txt, whole.
#![tactic(auto)]

ghost use Rattle.std.specs.Prelude.{◌≤◌, length};

mod asked;
mod load;

use asked::{bits, counted, last_zero, questions, word_of};
use bit_string::{BitString, Cursor};
use load::{edit, list_args, number_of, push_bits};
use ops::Fid;
use ops::linear_fid::LinearFid;
use recorded::{Digest, Entry, Run, Tally, behind_tabs, byte_at, next_entry};

// The length after an edit, where the next edit stands, and the byte before it.
#[derive(Clone, Copy)]
struct Edited {
    n: usize,
    next: usize,
    stop: u8,
}

// One edit at `at`, and its outcome where the run stands.
fn edit_turn(run: &mut Run<'_>, at: usize, words: &mut [u64], n: usize) -> Edited {
    let letter = byte_at(run.text, at);
    let one = next_entry(run.text, at.wrapping_add(1));
    let two = if one.stop == b':' {
        next_entry(run.text, one.next)
    } else {
        one
    };
    let b = one.stop == b':' && number_of(two.entry) == 1;
    let (n, outcome) = edit(words, n, letter, number_of(one.entry), b);
    run.compare(outcome, two.stop);
    Edited {
        n,
        next: two.next,
        stop: two.stop,
    }
}

// All edits, each with its outcome: the length behind them.
fn edits(run: &mut Run<'_>, at: usize, words: &mut [u64], n: usize) -> usize {
    if byte_at(run.text, at) == b'\t' {
        run.compare(Entry::Empty, b'\t');
        return n;
    }
    let mut now = Edited {
        n,
        next: at,
        stop: b' ',
    };
    for _ in 0..run.text.len() {
        now = edit_turn(run, now.next, words, now.n);
        if now.stop != b' ' {
            return now.n;
        }
    }
    now.n
}

// The words, of which the size tells how many there are.
fn word_field(run: &mut Run<'_>, s: &BitString<'_>) {
    let many = counted(s.byte_size()) / 8;
    if many == 0 {
        run.compare(Entry::Empty, b'\t');
    }
    for q in 0..many {
        let stop = if q + 1 == many { b'\t' } else { b' ' };
        run.compare(Entry::Number(word_of(s, q)), stop);
    }
}

// All ones that the cursor meets, `many` of them.
fn ones_field(run: &mut Run<'_>, s: &BitString<'_>, many: usize) {
    let mut cursor = Cursor::new();
    for k in 0..many {
        let Ok(Some((place, rest))) = cursor.step(s) else {
            run.wrong();
            return;
        };
        let stop = if k + 1 == many { b'\n' } else { b' ' };
        run.compare(Entry::Number(place as u64), stop);
        cursor = rest;
    }
    if matches!(cursor.step(s), Ok(Some(_))) {
        run.wrong();
    }
}

// The digest of that field.
fn ones_digest(s: &BitString<'_>, many: usize) -> Digest {
    let mut digest = Digest::new();
    let mut cursor = Cursor::new();
    for k in 0..many {
        if 0 < k {
            digest.feed(b' ');
        }
        if let Ok(Some((place, rest))) = cursor.step(s) {
            digest.feed_number(place as u64);
            cursor = rest;
        }
    }
    digest
}

fn indices(run: &mut Run<'_>, s: &BitString<'_>) {
    let many = counted(s.rank_one(s.len));
    if s.len < many {
        run.wrong();
    } else if many == 0 {
        run.compare(Entry::Empty, b'\n');
    } else if byte_at(run.text, run.at) == b'#' {
        run.compare_digest(ones_digest(s, many), b'\n');
    } else {
        ones_field(run, s, many);
    }
}

// A bit string: its edits, then its length, words and size, then each question, then all ones.
fn string_line(run: &mut Run<'_>) {
    // No word is zero beforehand.
    let mut words = [0x9669_6996_6996_9669u64; 80];
    let mut args = [0u64; 256];
    let Some(loaded) = push_bits(run.text, run.at, &mut words) else {
        run.lost();
        return;
    };
    let Some(list) = list_args(run.text, behind_tabs(run.text, loaded.next, 1), &mut args) else {
        run.lost();
        return;
    };
    run.at = list.next;
    let len = edits(run, loaded.next, &mut words, loaded.n);
    let s = BitString { words: &words, len };
    let args = &args[..list.n.min(256)];
    run.compare(Entry::Number(len as u64), b'\t');
    word_field(run, &s);
    run.compare(Entry::Number(counted(s.byte_size()) as u64), b'\t');
    bits(run, args, &s);
    questions(run, args, &s, Entry::Nothing, b'\t');
    indices(run, &s);
}

// The plain scan: each question.
fn scan_line(run: &mut Run<'_>) {
    let mut words = [0x9669_6996_6996_9669u64; 80];
    let mut args = [0u64; 256];
    let Some(loaded) = push_bits(run.text, run.at, &mut words) else {
        run.lost();
        return;
    };
    let Some(list) = list_args(run.text, loaded.next, &mut args) else {
        run.lost();
        return;
    };
    run.at = list.next;
    let scan = LinearFid {
        words: &words,
        len: loaded.n,
    };
    questions(
        run,
        &args[..list.n.min(256)],
        &scan,
        last_zero(&scan),
        b'\n',
    );
}

fn line(run: &mut Run<'_>) {
    if run.took(b"bits\t") {
        string_line(run);
    } else if run.took(b"scan\t") {
        scan_line(run);
    } else {
        run.lost();
    }
}

// How much of the first `end` bytes is whole lines.
fn whole(text: &[u8], end: usize) -> usize
    ensures { result ≤ length text.now }
{
    if text.len() < end {
        return 0;
    }
    for i in (0..end).rev() {
        if text[i] == b'\n' {
            return i + 1;
        }
    }
    0
}

// All lines of a text that ends with one. A line is never empty, so the reading gets on. The step is a line's length, so this is no `for`.
fn replay(text: &[u8], tally: Tally) -> Tally {
    let mut run = Run::new(text, tally);
    let mut at = 0;
    while at < text.len() {
        line(&mut run);
        if run.at <= at {
            run.wrong();
            return run.tally;
        }
        at = run.at;
    }
    run.tally
}

// What is left behind the first n bytes, moved to the front.
fn shift(text: &mut [u8], n: usize, end: usize) -> usize {
    let end = end.min(text.len());
    if end < n {
        return 0;
    }
    text.copy_within(n..end, 0);
    end - n
}

// One page of the input: how much is kept of the last line, in front of what is read next; nothing at the end of the input. A last line
// without its newline, or longer than a page, was not replayed: that is a difference.
fn read_page(text: &mut [u8], kept: usize, tally: &mut Tally) -> Option<usize> {
    if text.len() < kept {
        tally.wrong();
        return None;
    }
    let got = io::read_full(0, &mut text[kept..]);
    if got == 0 {
        if 0 < kept {
            tally.wrong();
        }
        return None;
    }
    let end = kept.wrapping_add(got);
    let n = whole(text, end);
    *tally = replay(&text[..n], *tally);
    Some(shift(text, n, end))
}

// Pages to the end of the input, at most 64.
fn pages(text: &mut [u8]) -> Tally {
    let mut tally = Tally::new();
    let mut kept = Some(0);
    for _ in 0..64 {
        let Some(k) = kept else {
            return tally;
        };
        kept = read_page(text, k, &mut tally);
    }
    tally.wrong();
    tally
}

fn main() {
    let mut text = [0u8; 65536];
    let tally = pages(&mut text);
    io::write_all(1, b"bit_string: ");
    io::print_decimal(1, tally.answers);
    io::write_all(1, b" answers, ");
    io::print_decimal(1, tally.different);
    io::write_all(1, b" different\n");
}
