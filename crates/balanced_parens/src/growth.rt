// Growth: a node at the list's end, from the bit string alone.
ghost use Rattle.std.specs.Prelude.{◌≡◌, suc, length, set};
ghost use Rattle.meaning.specs.Bits.{bits_of};
ghost use Rattle.meaning.specs.Growth.{grown};
ghost use Rattle.meaning.specs.Refusals.{first_of};
ghost use Rattle.longer.specs.Longer.{longer_checks};
ghost use Rattle.parentheses.specs.Writes.{held_in, Same};
ghost use Rattle.balanced_parens.specs.Areas.{lent_at, staged_in};
ghost use Rattle.balanced_parens.specs.Contract.{GrowsTo, Staged};

use longer::place_longer;
use parentheses::levels::{Areas, raise};
use record::Counts;
use refusal::Refusal;

// The same for the list longer by a node of the level, from the string of n nodes and m bits in area 0.
fn raise_longer(
    areas: &mut Areas<'_>,
    labels: usize,
    scratch: &mut [u64],
    n: usize,
    m: usize,
    level: u32,
) -> Result<Counts, Refusal>
    ensures same { Same areas.old areas.new }
    ensures staged { Staged (staged_in (first_of (longer_checks areas.old.words.now n m level (length scratch.old))) (grown (bits_of areas.old.words.now m) level) (suc n) (held_in areas.old) labels (length scratch.old)) (held_in areas.new) scratch.new result }
{
    let words = &mut *areas.words;
    place_longer(words, n, m, level, scratch)?;
    raise(
        scratch,
        n + 1,
        words,
        areas.bytes,
        areas.middles,
        areas.larges,
        labels,
    )
}

// The label at place n, if there is one.
fn write_label(area: &mut [u32], n: usize, label: u32)
    ensures { area.new ≡ set area.old n label }
{
    // Tried with `get_mut`; the proof did not close: what a slice's `get_mut` leaves has no clause on its elements.
    if n < area.len() {
        area[n] = label;
    }
}

// "Refused growth leaves 0 to 4 as they stood"; else "in area 4 only the new label is written".
// The areas come one by one, as C lends them and as FirstDemand names them.
pub fn grow(
    words: &mut [u64],
    bytes: &mut [u8],
    middles: &mut [u16],
    larges: &mut [u64],
    label_area: &mut [u32],
    scratch: &mut [u64],
    c: Counts,
    level: u32,
    label: u32,
) -> Result<Counts, Refusal>
    ensures { GrowsTo c level label (lent_at words.old bytes.old middles.old larges.old label_area.old scratch.old) (lent_at words.new bytes.new middles.new larges.new label_area.new scratch.new) result }
{
    let n = c.nodes;
    let m = c.bits[0];
    let mut areas = Areas {
        words,
        bytes,
        middles,
        larges,
    };
    let counts = raise_longer(&mut areas, label_area.len(), scratch, n, m, level)?;
    write_label(label_area, n, label);
    Ok(counts)
}
