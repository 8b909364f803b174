// "LinearFid, which is the plain meaning of rank, select, pred and succ": each place of a lent string is looked at in turn.
ghost use Rattle.std.specs.Prelude.{◌≡◌, false, get_or};
ghost use Rattle.meaning.specs.Bits.{bits_of};
ghost use Rattle.meaning.specs.Plain.{side};

use crate::{Fid, upto};
use words::bit_at;

#[derive(Clone, Copy)]
pub struct LinearFid<'a> {
    pub words: &'a [u64],
    pub len: usize,
}

impl LinearFid<'_> {
    // Whether place i has a one (or a zero).
    #[tactic(auto, using(crate::proofs::Scan::has_in, crate::proofs::Scan::has_past))]
    fn has(self, i: usize, one: bool) -> bool
        ensures { result ≡ get_or (side one (bits_of self.entry.words.now self.entry.len)) i false }
    {
        i < self.len && bit_at(self.words, i) == one
    }
}

impl Fid for LinearFid<'_> {
    ghost words = { λ s. s.words.now };

    ghost len = { λ s. s.len };

    fn lent_words(&self) -> usize {
        self.words.len()
    }

    fn len(&self) -> usize {
        self.len
    }

    #[tactic(auto, using(crate::proofs::Scan::count_on, crate::proofs::Scan::count_end, crate::proofs::Scan::numbered, crate::proofs::Scan::has_before, meaning::proofs::Sought::ones_most), unfolding(meaning::specs::Bits::opens))]
    fn counted(&self, e: usize, one: bool) -> usize {
        let mut r = 0;
        for i in 0..e.min(self.len) {
            r += usize::from(bit_at(self.words, i) == one);
        }
        r
    }

    #[tactic(auto, using(crate::proofs::Scan::select_zero, crate::proofs::Scan::after_here, crate::proofs::Scan::after_on, crate::proofs::Scan::numbered))]
    fn nth(&self, k: usize, one: bool) -> Option<usize> {
        if k == 0 {
            return None;
        }
        let mut left = k;
        for i in 0..self.len {
            left -= usize::from(self.has(i, one));
            if left == 0 {
                return Some(i);
            }
        }
        None
    }

    #[tactic(auto, using(crate::proofs::Scan::down_here, crate::proofs::Scan::down_end))]
    fn last(&self, i: usize, one: bool) -> Option<usize> {
        for j in (0..upto(self.len, i)).rev() {
            if self.has(j, one) {
                return Some(j);
            }
        }
        None
    }

    fn first(&self, i: usize, one: bool) -> Option<usize> {
        (i..self.len).find(|&j| self.has(j, one))
    }
}
