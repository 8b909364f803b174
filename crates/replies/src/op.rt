// The questions and edits of a dictionary, a bit string and a word, by name.

#[derive(Clone, Copy, PartialEq, Eq, Debug)]
pub enum Op {
    Get,
    RankOne,
    RankZero,
    SelectOne,
    SelectZero,
    PredOne,
    PredZero,
    SuccOne,
    SuccZero,
    GetClose,
    SetZero,
    SetOne,
    Push,
    Resize,
}

impl Op {
    // What a word names.
    pub fn named(word: &[u8]) -> Option<Op> {
        match word {
            b"get" => Some(Op::Get),
            b"rank_one" => Some(Op::RankOne),
            b"rank_zero" => Some(Op::RankZero),
            b"select_one" => Some(Op::SelectOne),
            b"select_zero" => Some(Op::SelectZero),
            b"pred_one" => Some(Op::PredOne),
            b"pred_zero" => Some(Op::PredZero),
            b"succ_one" => Some(Op::SuccOne),
            b"succ_zero" => Some(Op::SuccZero),
            b"get_close" => Some(Op::GetClose),
            b"set0" => Some(Op::SetZero),
            b"set1" => Some(Op::SetOne),
            b"push" => Some(Op::Push),
            b"resize" => Some(Op::Resize),
            _ => None,
        }
    }

    // Whether it changes a string that it is put to.
    pub fn is_edit(self) -> bool {
        matches!(self, Op::SetZero | Op::SetOne | Op::Push | Op::Resize)
    }
}
