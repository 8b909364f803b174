// Replays the recorded answers of the original about single words, and compares each with what fixnum answers. Where 01 differs from the
// original the answer is 01's, and the record is held to what the original does there. The input is testdata/fixnum8.txt, whole, and every
// fifth line of testdata/fixnum64.txt.
#![tactic(auto)]

mod asked;

use asked::{FIELDS, Field, asked, length};
use fixnum::{Fixnum, Fixnum8, Fixnum64, Word};
use recorded::{Entry, Run, Tally, next_entry};

// The widths that the record has its words in.
const _: () = prove!(Fixnum8::BITWIDTH == 8);

const _: () = prove!(Fixnum64::BITWIDTH == 64);

// A field of a line: the answers to one question, at every place or rank. The last one ends the line.
fn answers<W: Word>(run: &mut Run<'_>, x: Fixnum<W>, field: Field) {
    let n = length::<W>(field);
    let last = if field == Field::Close { b'\n' } else { b'\t' };
    for i in 0..n {
        let stop = if i + 1 == n { last } else { b' ' };
        run.compare(asked(x, field, i), stop);
    }
}

// The answers about one word.
fn fields<W: Word>(run: &mut Run<'_>, x: Fixnum<W>) {
    for field in FIELDS {
        answers(run, x, field);
    }
}

// The value of a line's word, and then its answers.
fn value(run: &mut Run<'_>, wide: bool) {
    let read = next_entry(run.text, run.at);
    run.at = read.next;
    match read.entry {
        Entry::Number(x) if read.stop == b'\t' && wide => fields(run, Fixnum64::new(x)),
        Entry::Number(x) if read.stop == b'\t' => match u8::try_from(x) {
            Ok(x) => fields(run, Fixnum8::new(x)),
            Err(_) => run.wrong(),
        },
        _ => run.wrong(),
    }
}

// One line.
fn line(run: &mut Run<'_>) {
    if run.took(b"all8\t") {
        value(run, false);
    } else if run.took(b"all64\t") {
        value(run, true);
    } else {
        run.lost();
    }
}

// All lines. A line is never empty, so the reading gets on. The step is a line's length, so this is no `for`.
fn replay(text: &[u8]) -> Tally {
    let mut run = Run::new(text, Tally::new());
    let mut at = 0;
    while at < text.len() {
        line(&mut run);
        if run.at <= at {
            run.wrong();
            return run.tally;
        }
        at = run.at;
    }
    run.tally
}

fn main() {
    let mut text = [0u8; 262144];
    let n = io::read_full(0, &mut text);
    let tally = replay(&text[..n]);
    io::write_all(1, b"fixnum: ");
    io::print_decimal(1, tally.answers);
    io::write_all(1, b" answers, ");
    io::print_decimal(1, tally.different);
    io::write_all(1, b" different\n");
}
