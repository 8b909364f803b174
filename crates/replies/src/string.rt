// The bit string, area 0 with the record's first bits, and the plain scan of it.
use crate::op::Op;
use asking::out::Out;
use asking::{Answer, Fault};
use bit_string::BitString;
use bit_string::one_indices::OneIndices;
use ops::Fid;

// Rank, select, pred and succ, whoever counts and finds.
pub fn fid_asked<F: Fid>(fid: &F, op: Op, i: usize) -> Result<Answer, Fault> {
    // Each arm calls another method, so a table of functions would be no plainer.
    match op {
        Op::RankOne => Ok(fid.rank_one(i).into()),
        Op::RankZero => Ok(fid.rank_zero(i).into()),
        Op::SelectOne => Ok(fid.select_one(i).into()),
        Op::SelectZero => Ok(fid.select_zero(i).into()),
        Op::PredOne => Ok(fid.pred_one(i).into()),
        Op::PredZero => Ok(fid.pred_zero(i).into()),
        Op::SuccOne => Ok(fid.succ_one(i).into()),
        Op::SuccZero => Ok(fid.succ_zero(i).into()),
        _ => Err(Fault::Words),
    }
}

pub fn string_asked(string: &BitString<'_>, op: Op, i: usize) -> Result<Answer, Fault> {
    // Each arm calls another method, so a table of functions would be no plainer.
    match op {
        Op::Get => Ok(string.get(i).into()),
        _ => fid_asked(string, op, i),
    }
}

// `string ones`: the places that OneIndices tells, at most as many as there are bits.
pub fn tell_ones(string: BitString<'_>, out: &mut Out) {
    let mut ones = OneIndices::new(string);
    for turn in 0..string.len {
        let one = ones.next();
        if one == Ok(None) {
            return;
        }
        out.entry(turn == 0, one.into());
        if one.is_err() {
            return;
        }
    }
}
