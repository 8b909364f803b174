// The pioneer string: "the string of its flagged bits in order", in the place of the string.
ghost use Rattle.std.specs.Prelude.{◌≡◌, true, ◌+◌, ◌*◌, ◌<◌, ◌≤◌, length};
ghost use Rattle.meaning.specs.Bits.{bits_of, pack};
ghost use Rattle.pioneers.specs.Scratch.{fits_in};
ghost use Rattle.pioneers.specs.Keep.{keeping, keep_turn, compact_in, trimmed};

use crate::flags::{Layout, fits};
use words::{bit_at, low, store};

// The first n bits stay, and all behind them are made zero. The words, lent to be written, and the length come apart: a struct that holds a
// `&mut` is no plainer.
pub fn trim(words: &mut [u64], n: usize)
    ensures { words.new ≡ pack (length words.old) (bits_of words.old n) }
{
    let q = n / 64;
    if q < words.len() {
        words[q] = low(words[q], n % 64);
        words[q + 1..].fill(0);
    }
}

// Place i: if it is flagged its bit goes to the next place of the pioneer string, which is i or before it. Answers the place after that.
#[tactic(auto, unfolding(crate::specs::Keep::keep_turn))]
fn keep_turn(scr: &mut [u64], lay: Layout, i: usize, at: usize) -> usize
    requires { (64 * lay.flags + i < 4294967296) × (lay.text ≤ lay.flags) × (at ≤ i) }
    ensures { keeping result scr.new ≡ keep_turn scr.old lay i at }
{
    if bit_at(scr, 64 * lay.flags + i) {
        let b = bit_at(scr, 64 * lay.text + i);
        store(scr, 64 * lay.text + at, b);
        return at + 1;
    }
    at
}

// The flagged bits to the front of the string, and zeros behind them, also where the flags were.
fn gather(scr: &mut [u64], lay: Layout) -> usize
    requires { fits_in lay (length scr.old) ≡ true }
    ensures { keeping result scr.new ≡ trimmed scr.old lay }
{
    let mut at = 0;
    for i in 0..lay.bits {
        at = keep_turn(scr, lay, i, at);
    }
    trim(&mut scr[lay.text..], at);
    at
}

// The pioneer string in the place of the string, and no flags. Answers its length; if the parts do not fit, 0, and scratch is zero.
#[tactic(auto, unfolding(crate::specs::Keep::compact_in))]
// A length of 0 stays a number: `compact_in` says it so.
pub fn compact(scr: &mut [u64], lay: Layout) -> usize
    ensures { keeping result scr.new ≡ compact_in scr.old lay }
{
    if fits(lay, scr.len()) {
        return gather(scr, lay);
    }
    scr.fill(0);
    0
}
