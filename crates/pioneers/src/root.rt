// "balanced under one root", of a packed string.
ghost use Rattle.std.specs.Prelude.{◌≡◌};
ghost use Rattle.meaning.specs.Bits.{bits_of};
ghost use Rattle.meaning.specs.Growth.{one_root};

use words::bit_at;

// The root opens first, never closes below its nodes, and closes with the last bit. Bits past the words are zeros.
// The words and the length come apart: bits past the words are zeros here, and no refusal.
pub fn one_root(words: &[u64], n: usize) -> bool
    ensures { result ≡ one_root (bits_of words.now n) }
{
    let mut depth: usize = 0;
    for i in 0..n {
        if bit_at(words, i) {
            depth += 1;
        } else if depth == 0 {
            return false;
        } else if depth == 1 {
            return i + 1 == n;
        } else {
            depth -= 1;
        }
    }
    false
}
