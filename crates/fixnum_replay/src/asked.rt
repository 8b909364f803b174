// What fixnum answers to the questions of a recorded line, field by field, in the record's terms.
use fixnum::{Fixnum, Word};
use recorded::Entry;
use refusal::Refusal;

// The fields of a line, one for each question, in their order.
#[derive(Clone, Copy, PartialEq, Eq)]
pub enum Field {
    PopCount,
    Get,
    SetZero,
    SetOne,
    RankOne,
    RankZero,
    SelectOne,
    SelectZero,
    PredOne,
    PredZero,
    SuccOne,
    SuccZero,
    Close,
}

pub const FIELDS: [Field; 13] = [
    Field::PopCount,
    Field::Get,
    Field::SetZero,
    Field::SetOne,
    Field::RankOne,
    Field::RankZero,
    Field::SelectOne,
    Field::SelectZero,
    Field::PredOne,
    Field::PredZero,
    Field::SuccOne,
    Field::SuccZero,
    Field::Close,
];

// How many answers a field has: one count; nine places for each set; ranks up to the width + 1; places up to the width.
pub fn length<W: Word>(field: Field) -> usize {
    match field {
        Field::PopCount => 1,
        Field::SetZero | Field::SetOne => 9,
        Field::SelectOne | Field::SelectZero => W::BITWIDTH + 2,
        _ => W::BITWIDTH + 1,
    }
}

// The original stops at the width itself; here PLACE, with the place.
fn refused(refusal: Refusal, i: usize) -> Entry {
    if refusal == Refusal::Place(i) {
        Entry::Stopped
    } else {
        Entry::Other
    }
}

fn number(said: Result<u64, Refusal>, i: usize) -> Entry {
    match said {
        Ok(n) => Entry::Number(n),
        Err(refusal) => refused(refusal, i),
    }
}

fn place(found: Option<usize>) -> Entry {
    match found {
        Some(j) => Entry::Number(j as u64),
        None => Entry::Nothing,
    }
}

fn near(said: Result<Option<usize>, Refusal>, i: usize) -> Entry {
    match said {
        Ok(found) => place(found),
        Err(refusal) => refused(refusal, i),
    }
}

// At the width itself the original's get_close finds nothing; here PLACE.
fn close<W: Word>(x: Fixnum<W>, i: usize) -> Entry {
    match x.get_close(i) {
        Ok(found) => place(found),
        Err(refusal) if refusal == Refusal::Close(i) => stray(x, i),
        Err(refusal) if refusal == Refusal::Place(i) => Entry::Nothing,
        Err(_) => Entry::Other,
    }
}

// Where 01 says CLOSE the original scans on, its level below zero, to the first close that brings it back to zero.
fn stray<W: Word>(x: Fixnum<W>, i: usize) -> Entry {
    let mut level: usize = 64;
    for j in i..W::BITWIDTH {
        if x.get(j) == Ok(true) {
            level += 1;
        } else {
            level -= 1;
            if level == 64 {
                return Entry::Number(j as u64);
            }
        }
    }
    Entry::Nothing
}

// Every eighth place of a wide word was recorded for set, and every place of a narrow one.
fn set<W: Word>(x: Fixnum<W>, i: usize, bit: bool) -> Entry {
    let place = i % 9 * (W::BITWIDTH / 8);
    number(x.set(place, bit).map(|y| y.to_inner().wide()), place)
}

pub fn asked<W: Word>(x: Fixnum<W>, field: Field, i: usize) -> Entry {
    match field {
        Field::PopCount => Entry::Number(x.pop_count() as u64),
        Field::Get => number(x.get(i).map(u64::from), i),
        Field::SetZero => set(x, i, false),
        Field::SetOne => set(x, i, true),
        Field::RankOne => number(x.rank_one(i).map(|n| n as u64), i),
        Field::RankZero => number(x.rank_zero(i).map(|n| n as u64), i),
        Field::SelectOne => place(x.select_one(i)),
        Field::SelectZero => place(x.select_zero(i)),
        Field::PredOne => near(x.pred_one(i), i),
        Field::PredZero => near(x.pred_zero(i), i),
        Field::SuccOne => near(x.succ_one(i), i),
        Field::SuccZero => near(x.succ_zero(i), i),
        Field::Close => close(x, i),
    }
}
