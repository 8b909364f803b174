// The dictionary by itself: areas 1 to 3, with the record's counts of the first dictionary. It tells of its ones alone.
use crate::op::Op;
use asking::{Answer, Fault};
use record::Catalogue;
use sparse_one_nnd::{DictAreas, SparseOneNnd};

// The first dictionary's counts.
pub fn first_dict(c: &Catalogue<'_>) -> SparseOneNnd {
    SparseOneNnd {
        bytes: c.counts.bytes[0],
        middles: c.counts.middles[0],
        larges: c.counts.larges[0],
    }
}

pub fn dict_asked(c: &Catalogue<'_>, op: Op, i: usize) -> Result<Answer, Fault> {
    let dict = first_dict(c);
    let areas = DictAreas {
        bytes: c.bytes,
        middles: c.middles,
        larges: c.larges,
    };
    // Each arm calls another method, so a table of functions would be no plainer.
    match op {
        Op::RankOne => Ok(dict.rank_one(areas, i).into()),
        Op::SelectOne => Ok(dict.select_one(areas, i).into()),
        Op::PredOne => Ok(dict.pred_one(areas, i).into()),
        Op::SuccOne => Ok(dict.succ_one(areas, i).into()),
        _ => Err(Fault::Words),
    }
}
