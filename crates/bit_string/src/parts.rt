// Words of a string: a word's ones or zeros, and bits cleared word by word.
ghost use Rattle.std.specs.Prelude.{◌≡◌, ◌-◌, ◌*◌, ◌≤◌, min};
ghost use Rattle.meaning.specs.Bits.{cleared};
ghost use Rattle.bit_string.specs.Part.{Sided, Cut};

use words::low;

// The ones of x as ones, or its zeros.
#[tactic(auto, using(crate::proofs::Part::sided_one, crate::proofs::Part::sided_zero))]
pub(crate) fn sided(x: u64, one: bool) -> u64
    ensures { Sided one x result }
{
    if one { x } else { !x }
}

// How many of the bits of word q are before place a.
fn bits_in(q: usize, a: usize) -> usize
    ensures { result ≡ min 64 (a - 64 * q) }
{
    let whole = a / 64;
    if q < whole {
        64
    } else if q == whole {
        a % 64
    } else {
        0
    }
}

// Word q without its bits from place a to before place e.
fn without(x: u64, q: usize, a: usize, e: usize) -> u64
    ensures { Cut a e q x result }
{
    if e <= a {
        return x;
    }
    let below = low(x, bits_in(q, a));
    let under = low(x, bits_in(q, e));
    below + (x - under)
}

// The bits from place a to before place e made zeros.
#[tactic(auto, using(crate::proofs::Clear::clear_over))]
pub(crate) fn clear(words: &mut [u64], a: usize, e: usize)
    requires { a ≤ e }
    ensures { words.new ≡ cleared words.old a (e - a) }
{
    let end = words.len().min(e / 64 + 1);
    for q in a / 64..end {
        words[q] = without(words[q], q, a, e);
    }
}
