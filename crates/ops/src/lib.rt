// Rank, select, pred and succ of a string of bits, whoever counts and finds them: the tests of length and place stand here, once.
#![tactic(auto)]

ghost use Rattle.std.specs.Prelude.{◌≡◌, true, false, not, ◌&&◌, List, ℕ, ◌+◌, min, leb, length, take};
ghost use Rattle.meaning.specs.Bits.{opens, bits_of};
ghost use Rattle.meaning.specs.Plain.{side, plain_select, plain_pred, plain_succ};
ghost use Rattle.meaning.specs.BitString.{string_rank, string_select, string_pred, string_succ};
ghost use Rattle.refusal.specs.Said.{said_number, found_number, only_found};
ghost use Rattle.ops.specs.Asked.{checked, admitted};

use refusal::Refusal;
use words::enough;

pub mod linear_fid;

// "the zero questions past the end are PLACE"
pub fn outside(n: usize, i: usize, one: bool) -> bool
    ensures { result ≡ (not one && leb n i) }
{
    !one && n <= i
}

// Place i and those before it, up to the length: how many they are.
pub fn upto(n: usize, i: usize) -> usize
    ensures { result ≡ min (i + 1) n }
{
    i.saturating_add(1).min(n)
}

// A string of bits: lent words with a length. Who has one says how it counts and finds its ones, or its zeros, and is asked the rest.
// `one` says which, as `side` of the definitions does.
pub trait Fid {
    ghost words: { Self → List ℕ };

    ghost len: { Self → ℕ };

    // How many words are lent.
    fn lent_words(&self) -> usize
        ensures { result ≡ length (words self.now) };

    // The length, in bits.
    fn len(&self) -> usize
        ensures { result ≡ len self.now };

    // How many stand before place e.
    fn counted(&self, e: usize, one: bool) -> usize
        ensures { result ≡ opens (take e (side one (bits_of (words self.now) (len self.now)))) };

    // The place of the k-th.
    fn nth(&self, k: usize, one: bool) -> Option<usize>
        ensures { only_found result ≡ plain_select (side one (bits_of (words self.now) (len self.now))) k };

    // The last at or before place i.
    fn last(&self, i: usize, one: bool) -> Option<usize>
        ensures { only_found result ≡ plain_pred (side one (bits_of (words self.now) (len self.now))) i };

    // The first at or after place i.
    fn first(&self, i: usize, one: bool) -> Option<usize>
        ensures { only_found result ≡ plain_succ (side one (bits_of (words self.now) (len self.now))) i };

    // The length; BROKEN where it is past the words.
    #[tactic(auto, using(crate::proofs::Asked::length_held, crate::proofs::Asked::length_broken))]
    fn checked_len(&self) -> Result<usize, Refusal>
        ensures { said_number result ≡ checked (words self.now) (len self.now) }
    {
        let n = self.len();
        if enough(self.lent_words(), n) {
            Ok(n)
        } else {
            Err(Refusal::Broken)
        }
    }

    // The length, where place i may be asked: "the zero questions past the end are PLACE".
    #[tactic(auto, using(crate::proofs::Asked::place_broken, crate::proofs::Asked::place_outside, crate::proofs::Asked::place_inside))]
    fn admitted(&self, i: usize, one: bool) -> Result<usize, Refusal>
        ensures { said_number result ≡ admitted one (words self.now) (len self.now) i }
    {
        let n = self.checked_len()?;
        if outside(n, i, one) {
            return Err(Refusal::Place(i));
        }
        Ok(n)
    }

    // Of the ones, or of the zeros: how many stand at or before place i.
    #[tactic(auto, using(crate::proofs::Asked::rank_refused, crate::proofs::Asked::rank_passed))]
    fn rank(&self, i: usize, one: bool) -> Result<usize, Refusal>
        ensures { said_number result ≡ string_rank one (words self.now) (len self.now) i }
    {
        let n = self.admitted(i, one)?;
        Ok(self.counted(upto(n, i), one))
    }

    // The place of the k-th, k from 1.
    #[tactic(auto, using(crate::proofs::Asked::select_refused, crate::proofs::Asked::select_passed))]
    fn select(&self, k: usize, one: bool) -> Result<Option<usize>, Refusal>
        ensures { found_number result ≡ string_select one (words self.now) (len self.now) k }
    {
        self.checked_len()?;
        Ok(self.nth(k, one))
    }

    // The last at or before place i.
    #[tactic(auto, using(crate::proofs::Asked::pred_refused, crate::proofs::Asked::pred_passed))]
    fn pred(&self, i: usize, one: bool) -> Result<Option<usize>, Refusal>
        ensures { found_number result ≡ string_pred one (words self.now) (len self.now) i }
    {
        self.admitted(i, one)?;
        Ok(self.last(i, one))
    }

    // The first at or after place i.
    #[tactic(auto, using(crate::proofs::Asked::succ_refused, crate::proofs::Asked::succ_passed))]
    fn succ(&self, i: usize, one: bool) -> Result<Option<usize>, Refusal>
        ensures { found_number result ≡ string_succ one (words self.now) (len self.now) i }
    {
        self.admitted(i, one)?;
        Ok(self.first(i, one))
    }

    // How many ones stand at or before place i; past the end, all of them.
    fn rank_one(&self, i: usize) -> Result<usize, Refusal>
        ensures { said_number result ≡ string_rank true (words self.now) (len self.now) i }
    {
        self.rank(i, true)
    }

    // How many zeros stand at or before place i, which must be there.
    fn rank_zero(&self, i: usize) -> Result<usize, Refusal>
        ensures { said_number result ≡ string_rank false (words self.now) (len self.now) i }
    {
        self.rank(i, false)
    }

    // The place of the k-th one, k from 1.
    fn select_one(&self, k: usize) -> Result<Option<usize>, Refusal>
        ensures { found_number result ≡ string_select true (words self.now) (len self.now) k }
    {
        self.select(k, true)
    }

    // The place of the k-th zero before the length, k from 1.
    fn select_zero(&self, k: usize) -> Result<Option<usize>, Refusal>
        ensures { found_number result ≡ string_select false (words self.now) (len self.now) k }
    {
        self.select(k, false)
    }

    // The last one at or before place i; past the end, the last there is.
    fn pred_one(&self, i: usize) -> Result<Option<usize>, Refusal>
        ensures { found_number result ≡ string_pred true (words self.now) (len self.now) i }
    {
        self.pred(i, true)
    }

    // The last zero at or before place i, which must be there.
    fn pred_zero(&self, i: usize) -> Result<Option<usize>, Refusal>
        ensures { found_number result ≡ string_pred false (words self.now) (len self.now) i }
    {
        self.pred(i, false)
    }

    // The first one at or after place i; past the end there is none.
    fn succ_one(&self, i: usize) -> Result<Option<usize>, Refusal>
        ensures { found_number result ≡ string_succ true (words self.now) (len self.now) i }
    {
        self.succ(i, true)
    }

    // The first zero at or after place i, which must be there.
    fn succ_zero(&self, i: usize) -> Result<Option<usize>, Refusal>
        ensures { found_number result ≡ string_succ false (words self.now) (len self.now) i }
    {
        self.succ(i, false)
    }
}
