// Select by the masked descent: the levels of the count, from the widest to the word itself, each halving the bits that hold the one sought.
ghost use Rattle.std.specs.Prelude.{◌≡◌, ◌-◌, ◌^◌, true, false, get_or};
ghost use Rattle.meaning.specs.Word.{word_select};
ghost use Rattle.refusal.specs.Said.{only_found};
ghost use Rattle.fixnum.specs.Levels.{Halved, NthOne, Ready, Steady};

use super::count::Levels;
use super::{Fixnum, Word};

// The one sought is the left-th of the `width` bits from `offset` on.
#[derive(Clone, Copy)]
struct Part {
    left: u64,
    offset: u64,
    width: u64,
}

// The half of a part in which the one sought is: `level` has the count of the lower half at the part's offset.
fn half(level: u64, p: Part) -> Part
    requires { Steady p }
    ensures { Halved level p result }
{
    let low = (level >> p.offset) & (p.width - 1);
    let width = p.width >> 1;
    if low < p.left {
        Part {
            left: p.left - low,
            offset: p.offset + width,
            width,
        }
    } else {
        Part {
            left: p.left,
            offset: p.offset,
            width,
        }
    }
}

impl Levels {
    // The place of the rank-th one.
    fn descend(self, rank: u64) -> u64
        requires { Ready self.sums self.start rank }
        ensures { NthOne (get_or self.sums 5 0) rank result }
    {
        let mut p = Part {
            left: rank,
            offset: 0,
            width: 64 >> self.start,
        };
        for level in &self.sums[self.start..] {
            p = half(*level, p);
        }
        p.offset
    }

    #[tactic(auto, using(crate::proofs::Descent::nothing_for, crate::proofs::Descent::may_descend, crate::proofs::Descent::found_at))]
    pub(crate) fn select(self, rank: usize) -> Option<usize>
        ensures { only_found result ≡ word_select true (2 ^ (6 - self.start)) (get_or self.sums 5 0) rank }
    {
        if rank == 0 || self.ones < rank {
            return None;
        }
        Some(self.descend(rank as u64) as usize)
    }
}

impl<W: Word> Fixnum<W> {
    pub fn select_one(self, rank: usize) -> Option<usize>
        ensures { only_found result ≡ word_select true W.BITWIDTH (W.value self.0) rank }
    {
        self.0.select_one(rank)
    }

    #[tactic(auto, using(meaning::proofs::Word::select_zeros))]
    pub fn select_zero(self, rank: usize) -> Option<usize>
        ensures { only_found result ≡ word_select false W.BITWIDTH (W.value self.0) rank }
    {
        Fixnum(self.0.complement()).select_one(rank)
    }
}
