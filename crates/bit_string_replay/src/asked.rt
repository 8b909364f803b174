// What a string of bits answers to the questions of a recorded line, in the record's terms.
use bit_string::BitString;
use ops::Fid;
use ops::linear_fid::LinearFid;
use recorded::{Entry, Run};
use refusal::Refusal;

fn number(n: usize) -> Entry {
    Entry::Number(n as u64)
}

fn bit(said: Result<Option<bool>, Refusal>) -> Entry {
    match said {
        Ok(Some(b)) => Entry::Number(u64::from(b)),
        Ok(None) => Entry::Nothing,
        Err(_) => Entry::Other,
    }
}

// A place or a count of a question about place i. `stray` is what the original answers where 01 says PLACE, at or past the length n.
fn place(said: Result<Option<usize>, Refusal>, n: usize, i: usize, stray: Entry) -> Entry {
    match said {
        Ok(Some(j)) => number(j),
        Ok(None) => Entry::Nothing,
        Err(refusal) if refusal == Refusal::Place(i) && n <= i => stray,
        Err(_) => Entry::Other,
    }
}

fn count(said: Result<usize, Refusal>, n: usize, i: usize, stray: Entry) -> Entry {
    place(said.map(Some), n, i, stray)
}

// The original's rank_zero past the end: the places up to i and i itself, less the ones.
fn zeros_past<S: Fid>(s: &S, i: usize) -> Entry {
    match s.rank_one(i) {
        Ok(k) => Entry::Number((i as u64).wrapping_add(1).wrapping_sub(k as u64)),
        Err(_) => Entry::Other,
    }
}

// The original's plain scan past the end finds the last zero there is; its bit string finds nothing.
pub fn last_zero(scan: &LinearFid<'_>) -> Entry {
    match scan.len.checked_sub(1) {
        Some(i) => place(scan.pred_zero(i), scan.len, i, Entry::Other),
        None => Entry::Nothing,
    }
}

// A field: one question, asked at each argument.
fn field<F: Fn(usize) -> Entry>(run: &mut Run<'_>, args: &[u64], end: u8, asked: F)
    requires { F.IsAlwaysCallable asked }
{
    for (i, arg) in args.iter().enumerate() {
        let stop = if i + 1 == args.len() { end } else { b' ' };
        run.compare(asked(*arg as usize), stop);
    }
}

pub fn bits(run: &mut Run<'_>, args: &[u64], s: &BitString<'_>) {
    field(run, args, b'\t', |i| bit(s.get(i)));
}

// Rank, select, pred and succ, of the ones and of the zeros each. `past` is what the original's pred_zero answers past the end.
pub fn questions<S: Fid>(run: &mut Run<'_>, args: &[u64], s: &S, past: Entry, end: u8) {
    let n = s.len();
    field(
        run,
        args,
        b'\t',
        |i| count(s.rank_one(i), n, i, Entry::Other),
    );
    field(
        run,
        args,
        b'\t',
        |i| count(s.rank_zero(i), n, i, zeros_past(s, i)),
    );
    field(
        run,
        args,
        b'\t',
        |i| place(s.select_one(i), n, i, Entry::Other),
    );
    field(
        run,
        args,
        b'\t',
        |i| place(s.select_zero(i), n, i, Entry::Other),
    );
    field(
        run,
        args,
        b'\t',
        |i| place(s.pred_one(i), n, i, Entry::Other),
    );
    field(run, args, b'\t', |i| place(s.pred_zero(i), n, i, past));
    field(
        run,
        args,
        b'\t',
        |i| place(s.succ_one(i), n, i, Entry::Other),
    );
    field(
        run,
        args,
        end,
        |i| place(s.succ_zero(i), n, i, Entry::Nothing),
    );
}

// Word q, bit by bit; past the length zeros.
pub fn word_of(s: &BitString<'_>, q: usize) -> u64 {
    let mut w: u64 = 0;
    for j in 0..64 {
        if s.get(q % 0x1_0000 * 64 + j) == Ok(Some(true)) {
            w |= 1 << j;
        }
    }
    w
}

// How many bytes, or ones, there are; more than any where it is refused.
pub fn counted(said: Result<usize, Refusal>) -> usize {
    said.unwrap_or(usize::MAX)
}
