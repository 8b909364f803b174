// The ones or the zeros counted and found, word by word, and the naive pred and succ.
ghost use Rattle.std.specs.Prelude.{◌≡◌, true, false};
ghost use Rattle.meaning.specs.Bits.{bits_of};
ghost use Rattle.meaning.specs.Plain.{side, plain_succ};
ghost use Rattle.meaning.specs.Word.{word_bits};
ghost use Rattle.refusal.specs.Said.{only_found};
ghost use Rattle.bit_string.specs.Part.{Marked, NthIn};

use crate::BitString;
use crate::parts::sided;
use fixnum::Fixnum;
use ops::{Fid, upto};
use words::{low, word_at};

// The place of the k-th one of a word, or what is left of k behind it.
#[tactic(auto, using(crate::proofs::Behind::nth_rest))]
fn nth_in(x: u64, k: usize) -> Result<usize, usize>
    ensures { NthIn (word_bits 64 x) k result }
{
    let ones = Fixnum(x).pop_count();
    if ones < k {
        return Err(k - ones);
    }
    Fixnum(x).select_one(k).ok_or(0)
}

impl BitString<'_> {
    // The ones of word q before the length, or its zeros, as ones.
    #[tactic(auto, using(crate::proofs::Part::marked_none, crate::proofs::Part::marked_whole, crate::proofs::Part::marked_part))]
    fn marked(&self, q: usize, one: bool) -> u64
        ensures { Marked (side one (bits_of self.now.words.now self.now.len)) q result }
    {
        let whole = self.len / 64;
        if whole < q {
            return 0;
        }
        let x = sided(word_at(self.words, q), one);
        if q < whole { x } else { low(x, self.len % 64) }
    }

    // The naive succ, of the zeros: the place itself, or select of one more than its rank.
    #[tactic(auto, using(ops::proofs::Naive::naive_here, ops::proofs::Naive::naive_next, meaning::proofs::Sought::succ_past, meaning::proofs::BitString::length_marks))]
    fn next_zero(&self, i: usize) -> Option<usize>
        ensures { only_found result ≡ plain_succ (side false (bits_of self.now.words.now self.now.len)) i }
    {
        if self.len <= i {
            return None;
        }
        let k = self.counted(i + 1, false);
        let here = self.nth(k, false);
        if here == Some(i) {
            return here;
        }
        self.nth(k + 1, false)
    }

    // The next one, word by word.
    fn next_one(&self, i: usize) -> Option<usize>
        ensures { only_found result ≡ plain_succ (side true (bits_of self.now.words.now self.now.len)) i }
    {
        let mut from = i % 64;
        for q in i / 64..=self.len / 64 {
            if let Ok(Some(j)) = Fixnum(self.marked(q, true)).succ_one(from) {
                return Some(64 * q + j);
            }
            from = 0;
        }
        None
    }
}

impl Fid for BitString<'_> {
    ghost words = { λ s. s.words.now };

    ghost len = { λ s. s.len };

    fn lent_words(&self) -> usize {
        self.words.len()
    }

    fn len(&self) -> usize {
        self.len
    }

    #[tactic(auto, using(crate::proofs::Part::marks_word, crate::proofs::Part::marks_end), unfolding(meaning::specs::Bits::opens))]
    fn counted(&self, e: usize, one: bool) -> usize {
        let whole = e / 64;
        let mut r = 0;
        for q in 0..whole {
            r += Fixnum(self.marked(q, one)).pop_count();
        }
        r + Fixnum(low(self.marked(whole, one), e % 64)).pop_count()
    }

    fn nth(&self, k: usize, one: bool) -> Option<usize> {
        if k == 0 {
            return None;
        }
        let mut left = k;
        for q in 0..=self.len / 64 {
            match nth_in(self.marked(q, one), left) {
                Ok(j) => return Some(64 * q + j),
                Err(rest) => left = rest,
            }
        }
        None
    }

    // The naive pred: select of the place's rank.
    #[tactic(auto, using(ops::proofs::Naive::naive_pred))]
    fn last(&self, i: usize, one: bool) -> Option<usize> {
        let k = self.counted(upto(self.len, i), one);
        self.nth(k, one)
    }

    fn first(&self, i: usize, one: bool) -> Option<usize> {
        if one {
            self.next_one(i)
        } else {
            self.next_zero(i)
        }
    }
}
