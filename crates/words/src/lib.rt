// Lent words: a bit read and stored, and whether they hold a length; the low bits of a word.
#![tactic(auto)]

ghost use Rattle.std.specs.Prelude.{◌≡◌, ◌*◌, ◌%◌, ◌^◌, ◌<◌, ◌≤◌, leb, eqb, length, get_or};
ghost use Rattle.meaning.specs.Bits.{bit, as_bit, with_bit, bit_at, stored, word_count};

// Whether `len` words hold n bits.
pub fn enough(len: usize, n: usize) -> bool
    ensures { result ≡ leb n (64 * len) }
{
    word_count(n) <= len
}

// n / 64 rounded up.
pub fn word_count(n: usize) -> usize
    ensures { result ≡ word_count n }
{
    n.div_ceil(64)
}

// Word q, and zero where there is none.
pub fn word_at(words: &[u64], q: usize) -> u64
    ensures { result ≡ get_or words.now q 0 }
{
    words.get(q).copied().unwrap_or(0)
}

// The k low bits of x.
pub fn low(x: u64, k: usize) -> u64
    ensures { result ≡ x % 2 ^ k }
{
    if k < 64 { x & ((1 << k) - 1) } else { x }
}

// Bit i of x; a place at or past 64 is counted from its start again.
pub fn bit_of(x: u64, i: usize) -> bool
    ensures { result ≡ eqb (bit x (i % 64)) 1 }
{
    (x >> (i % 64)) % 2 == 1
}

// Bit i; past the end it reads as a zero.
#[tactic(auto, unfolding(meaning::specs::Bits::bit_at))]
pub fn bit_at(words: &[u64], i: usize) -> bool
    ensures { result ≡ bit_at words.now i }
{
    bit_of(word_at(words, i / 64), i)
}

// x with bit i made b; a place at or past 64 is counted from its start again.
pub fn with_bit(x: u64, i: usize, b: bool) -> u64
    ensures { result ≡ with_bit x (i % 64) (as_bit b) }
{
    let one: u64 = 1 << (i % 64);
    if b { x | one } else { x ^ (one & x) }
}

// Bit i made b; past the end nothing changes.
pub fn store(words: &mut [u64], i: usize, b: bool)
    ensures { words.new ≡ stored words.old i b }
{
    let q = i / 64;
    // Tried with `get_mut`; the proof did not close: what a slice's `get_mut` leaves has no clause on its elements.
    if q < words.len() {
        words[q] = with_bit(words[q], i, b);
    }
}
