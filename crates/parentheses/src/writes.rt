// The writing of a string's levels into areas 0 to 3, of which each has room.
ghost use Rattle.std.specs.Prelude.{◌≡◌, ◌+◌, ◌≤◌, length, drop};
ghost use Rattle.std.proofs.Math.Seq.{paste};
ghost use Rattle.meaning.specs.Bits.{word_count};
ghost use Rattle.parentheses.specs.Writes.{held_in, Same, Putting, PutIs, Writing, WrittenIs};

use crate::levels::Areas;
use crate::plans::{Family, Sizes};
use pioneers::compact::compact;
use pioneers::flags::{Layout, mark};
use sparse_one_nnd::SparseOneNnd;
use words::word_count;

// The string's words, past `at` of area 0.
fn write_string(scr: &[u64], lay: Layout, words: &mut [u64], at: usize)
    requires { (lay.text + word_count lay.bits ≤ length scr.now) × (at + word_count lay.bits ≤ length words.old) }
    ensures { words.new ≡ paste words.old at (drop lay.text scr.now) (word_count lay.bits) }
{
    let count = word_count(lay.bits);
    // Not `copy_from_slice`: it would have the archive for C ask for `memmove`.
    for (i, word) in words[at..at + count].iter_mut().enumerate() {
        *word = scr[lay.text + i];
    }
}

// The dictionary of a string's flags, past `from`; then the pioneer string stands in the string's place. It takes areas 1 to 3 alone, as
// `SparseOneNnd::write` does.
fn write_family(
    scr: &mut [u64],
    lay: Layout,
    from: SparseOneNnd,
    bytes: &mut [u8],
    middles: &mut [u16],
    larges: &mut [u64],
) -> Option<Family>
    requires { Putting scr.old lay from bytes.old middles.old larges.old }
    ensures { PutIs result scr.old lay from bytes.old middles.old larges.old scr.new bytes.new middles.new larges.new }
{
    if !mark(scr, lay) {
        return None;
    }
    let Ok(dict) = SparseOneNnd::write(&scr[lay.flags..], lay.bits, from, bytes, middles, larges)
    else {
        return None;
    };
    let bits = compact(scr, lay);
    Some(Family { dict, bits })
}

// The string, and then its pioneer levels, at most `left` of them, past `at`. Scratch is zero after it.
pub(crate) fn write_levels(
    scr: &mut [u64],
    lay: Layout,
    left: usize,
    at: Sizes,
    areas: &mut Areas<'_>,
)
    requires { Writing scr.old lay left at (held_in areas.old) }
    ensures same { Same areas.old areas.new }
    ensures written { WrittenIs scr.old lay left at (held_in areas.old) (held_in areas.new) scr.new }
{
    write_string(scr, lay, areas.words, at.words);
    if lay.bits <= 64 || left == 0 {
        scr.fill(0);
        return;
    }
    let Some(family) = write_family(scr, lay, at.dict, areas.bytes, areas.middles, areas.larges)
    else {
        scr.fill(0);
        return;
    };
    let next = Layout {
        bits: family.bits,
        ..lay
    };
    let past = at.add(lay.bits, family.dict);
    write_levels(scr, next, left - 1, past, areas);
}
