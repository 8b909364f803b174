// One word of 8 or 64 bits.
use crate::op::Op;
use asking::{Answer, Fault};
use fixnum::{Fixnum, Word};

// The number that a word writes: a cast, since std has no `From<u64>` for usize.
fn value<W: Word>(word: Fixnum<W>) -> usize {
    word.to_inner().wide() as usize
}

// A list of its own: a word is no `Fid`, since it refuses a place past its width also of the ones.
pub fn word_asked<W: Word>(word: Fixnum<W>, op: Op, i: usize) -> Result<Answer, Fault> {
    // Each arm calls another method, so a table of functions would be no plainer.
    match op {
        Op::Get => Ok(word.get(i).into()),
        Op::SetZero => Ok(word.set(i, false).map(|w| value(w)).into()),
        Op::SetOne => Ok(word.set(i, true).map(|w| value(w)).into()),
        Op::RankOne => Ok(word.rank_one(i).into()),
        Op::RankZero => Ok(word.rank_zero(i).into()),
        Op::SelectOne => Ok(word.select_one(i).into()),
        Op::SelectZero => Ok(word.select_zero(i).into()),
        Op::PredOne => Ok(word.pred_one(i).into()),
        Op::PredZero => Ok(word.pred_zero(i).into()),
        Op::SuccOne => Ok(word.succ_one(i).into()),
        Op::SuccZero => Ok(word.succ_zero(i).into()),
        Op::GetClose => Ok(word.get_close(i).into()),
        _ => Err(Fault::Words),
    }
}
