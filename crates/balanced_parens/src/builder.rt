// Build: a tree from a list of levels and one of labels.
ghost use Rattle.std.specs.Prelude.{◌≡◌, ◌≤◌, length};
ghost use Rattle.std.proofs.Math.Seq.{paste};
ghost use Rattle.meaning.specs.String.{string};
ghost use Rattle.meaning.specs.Refusals.{first_of};
ghost use Rattle.pioneers.specs.Placed.{list_checks};
ghost use Rattle.parentheses.specs.Writes.{held_in, Same};
ghost use Rattle.balanced_parens.specs.Areas.{lent_at, lent_in, staged_in, Cleared, Blank};
ghost use Rattle.balanced_parens.specs.Contract.{Builds, Staged};

use parentheses::levels::{Areas, raise};
use pioneers::string::place;
use record::Counts;
use refusal::Refusal;

// MANY, LEVEL, ROOM for scratch and what the level builder refuses leave areas 0 to 3 as they stood; else they hold the levels of the
// list's string, to their ends. `labels` is the length of area 4. Scratch is zero after it.
fn raise_list(
    levels: &[u32],
    areas: &mut Areas<'_>,
    labels: usize,
    scratch: &mut [u64],
) -> Result<Counts, Refusal>
    ensures same { Same areas.old areas.new }
    ensures staged { Staged (staged_in (first_of (list_checks levels.now (length scratch.old))) (string levels.now) (length levels.now) (held_in areas.old) labels (length scratch.old)) (held_in areas.new) scratch.new result }
{
    place(levels, scratch)?;
    raise(
        scratch,
        levels.len(),
        areas.words,
        areas.bytes,
        areas.middles,
        areas.larges,
        labels,
    )
}

// The labels to the front of area 4.
fn copy_labels(labels: &[u32], area: &mut [u32])
    requires { length labels.now ≤ length area.old }
    ensures { area.new ≡ paste area.old 0 labels.now (length labels.now) }
{
    // Not `copy_from_slice`: it would have the archive for C ask for `memmove`.
    for (i, label) in area[..labels.len()].iter_mut().enumerate() {
        *label = labels[i];
    }
}

// The five catalogue areas to zero. They come one by one, as C lends them.
pub fn zero_areas(
    words: &mut [u64],
    bytes: &mut [u8],
    middles: &mut [u16],
    larges: &mut [u64],
    label_area: &mut [u32],
)
    ensures { Cleared words.old bytes.old middles.old larges.old label_area.old words.new bytes.new middles.new larges.new label_area.new }
{
    words.fill(0);
    bytes.fill(0);
    middles.fill(0);
    larges.fill(0);
    label_area.fill(0);
}

// A build into catalogue areas that are zero, of as many levels as labels.
fn build_list(
    levels: &[u32],
    labels: &[u32],
    areas: &mut Areas<'_>,
    label_area: &mut [u32],
    scratch: &mut [u64],
) -> Result<Counts, Refusal>
    requires { (length levels.now ≡ length labels.now) × Blank areas.old.words.now areas.old.bytes.now areas.old.middles.now areas.old.larges.now label_area.old }
    ensures same { Same areas.old areas.new }
    ensures built { Builds levels.now labels.now (lent_in areas.old label_area.old scratch.old) (lent_in areas.new label_area.new scratch.new) result }
{
    let counts = raise_list(levels, areas, label_area.len(), scratch)?;
    copy_labels(labels, label_area);
    Ok(counts)
}

// "A refused build leaves all six areas zero".
// The areas come one by one, as C lends them and as FirstDemand names them.
pub fn build(
    levels: &[u32],
    labels: &[u32],
    words: &mut [u64],
    bytes: &mut [u8],
    middles: &mut [u16],
    larges: &mut [u64],
    label_area: &mut [u32],
    scratch: &mut [u64],
) -> Result<Counts, Refusal>
    ensures { Builds levels.now labels.now (lent_at words.old bytes.old middles.old larges.old label_area.old scratch.old) (lent_at words.new bytes.new middles.new larges.new label_area.new scratch.new) result }
{
    zero_areas(words, bytes, middles, larges, label_area);
    if levels.len() != labels.len() {
        scratch.fill(0);
        return Err(Refusal::Lengths);
    }
    let mut areas = Areas {
        words,
        bytes,
        middles,
        larges,
    };
    build_list(levels, labels, &mut areas, label_area, scratch)
}
