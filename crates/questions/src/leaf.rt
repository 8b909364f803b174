// The leaves between two places.
ghost use Rattle.std.specs.Prelude.{◌≡◌, ◌≤◌, get_or};
ghost use Rattle.meaning.specs.Bits.{bits_of};
ghost use Rattle.meaning.specs.Leaves.{leaf_count};

use closes::level::Bits;
use record::Catalogue;

// The leaves strictly between p and c: "each a 1 then a 0". Each turn reads one bit, beside the one before, and takes no branch on either.
pub(crate) fn leaves_between(catalogue: &Catalogue<'_>, p: usize, c: usize) -> usize
    requires { (p ≤ c) × (c ≤ get_or catalogue.now.counts.bits 0 0) }
    ensures { result ≡ leaf_count (bits_of catalogue.now.words.now (get_or catalogue.now.counts.bits 0 0)) p c }
{
    let string = Bits {
        words: catalogue.words,
        len: catalogue.counts.bits[0],
    };
    let mut total: usize = 0;
    let mut open = false;
    for i in p..c.saturating_sub(1) {
        let next = string.open_at(i + 1);
        total += usize::from(open & !next);
        open = next;
    }
    total
}
