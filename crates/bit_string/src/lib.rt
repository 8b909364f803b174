// A string of bits in lent words. "Bit i is bit i mod 64 of word i / 64, lowest first".
#![tactic(auto)]

ghost use Rattle.std.specs.Prelude.{◌≡◌};
ghost use Rattle.meaning.specs.BitString.{string_get, string_size, edited, string_set, string_push, string_resize, one_from};
ghost use Rattle.refusal.specs.Said.{said_number, found_bit};
ghost use Rattle.bit_string.specs.Said.{said_step};

mod find;
pub mod one_indices;
mod parts;

use ops::Fid;
use parts::clear;
use refusal::Refusal;
use words::{bit_at, enough, store, word_count};

// The words, and the length in bits. Its ones and zeros are asked by `Fid`.
#[derive(Clone, Copy)]
pub struct BitString<'a> {
    pub words: &'a [u64],
    pub len: usize,
}

impl BitString<'_> {
    // Bit i; past the length there is none.
    #[tactic(auto, using(crate::proofs::Checked::get_refused, crate::proofs::Checked::get_bit))]
    pub fn get(&self, i: usize) -> Result<Option<bool>, Refusal>
        ensures { found_bit result ≡ string_get self.now.words.now self.now.len i }
    {
        let n = self.checked_len()?;
        if n <= i {
            return Ok(None);
        }
        Ok(Some(bit_at(self.words, i)))
    }

    // "8 per bit-string word (bits / 64 rounded up)".
    #[tactic(auto, using(crate::proofs::Checked::size_refused, crate::proofs::Checked::size_known))]
    pub fn byte_size(&self) -> Result<usize, Refusal>
        ensures { said_number result ≡ string_size self.now.words.now self.now.len }
    {
        let n = self.checked_len()?;
        Ok(8 * word_count(n))
    }
}

// The changes take the words and the length apart: a struct that holds a `&mut` needs a clause that it stays the same `&mut`, so it is no plainer.

// Bit i, which must be there, made b. The length stays.
#[tactic(auto, using(meaning::proofs::BitString::set_broken, meaning::proofs::BitString::set_place, meaning::proofs::BitString::set_held))]
pub fn set(words: &mut [u64], n: usize, i: usize, b: bool) -> Result<usize, Refusal>
    ensures { edited (said_number result) words.new ≡ string_set words.old n i b }
{
    if !enough(words.len(), n) {
        return Err(Refusal::Broken);
    }
    if n <= i {
        return Err(Refusal::Place(i));
    }
    store(words, i, b);
    Ok(n)
}

// One bit more. A length of 2^64 - 1 has no next, so there is no room either.
#[tactic(auto, using(meaning::proofs::BitString::push_broken, crate::proofs::Checked::no_longer))]
pub fn push(words: &mut [u64], n: usize, b: bool) -> Result<usize, Refusal>
    ensures { edited (said_number result) words.new ≡ string_push words.old n b }
{
    if !enough(words.len(), n) {
        return Err(Refusal::Broken);
    }
    let Some(longer) = n.checked_add(1) else {
        return Err(Refusal::Room(0));
    };
    if !enough(words.len(), longer) {
        return Err(Refusal::Room(0));
    }
    store(words, n, b);
    Ok(longer)
}

// The length made m. The bits between the two lengths are made zeros.
#[tactic(auto, using(meaning::proofs::BitString::resize_broken, meaning::proofs::BitString::resize_room, crate::proofs::Checked::resize_to))]
pub fn resize(words: &mut [u64], n: usize, m: usize) -> Result<usize, Refusal>
    ensures { edited (said_number result) words.new ≡ string_resize words.old n m }
{
    if !enough(words.len(), n) {
        return Err(Refusal::Broken);
    }
    if !enough(words.len(), m) {
        return Err(Refusal::Room(0));
    }
    clear(words, n.min(m), n.max(m));
    Ok(m)
}

// The place from which the ones are sought on, by value.
#[derive(Clone, Copy)]
pub struct Cursor {
    pub next: usize,
}

impl Cursor {
    pub fn new() -> Self
        ensures { result.next ≡ 0 }
    {
        Cursor { next: 0 }
    }

    // The one that it meets and the cursor behind it.
    #[tactic(auto, using(crate::proofs::Stepped::step_lt, crate::proofs::Stepped::step_end, crate::proofs::Stepped::step_refused))]
    pub fn step(self, string: &BitString<'_>) -> Result<Option<(usize, Cursor)>, Refusal>
        ensures { said_step result ≡ one_from string.now.words.now string.now.len self.next }
    {
        let Some(place) = string.succ_one(self.next)? else {
            return Ok(None);
        };
        Ok(Some((place, Cursor { next: place + 1 })))
    }
}
