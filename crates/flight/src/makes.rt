// Build and growth, with the record of counts. The areas come one by one: the C interface (include/oscjardum.h).
ghost use Rattle.std.specs.Prelude.{◌≡◌, ◌≤◌, length, replicate};
ghost use Rattle.std.proofs.lemmas.List.Edits.{sets};
ghost use Rattle.record.specs.Record.{said_tree};
ghost use Rattle.balanced_parens.specs.Areas.{lent_at};
ghost use Rattle.flight.specs.Calls.{make, kept, building, growing};

use crate::layout::{SHORT, counts_of, put_counts, short, tell};
use crate::reply;
use balanced_parens::builder::{build, zero_areas};
use balanced_parens::growth::grow;
use record::Counts;
use refusal::Refusal;

// The record after growth: refused, it stays.
fn record_grown(counts: &mut [usize], grown: Result<Counts, Refusal>)
    requires { 18 ≤ length counts.old }
    ensures { counts.new ≡ kept counts.old counts.old (said_tree grown) }
{
    if let Ok(c) = grown {
        put_counts(counts, c);
    }
}

// The record after a build: refused, it counts nothing.
fn record_built(counts: &mut [usize], built: Result<Counts, Refusal>)
    requires { 18 ≤ length counts.old }
    ensures { counts.new ≡ kept counts.old (sets counts.old 0 (replicate 18 0)) (said_tree built) }
{
    match built {
        Ok(c) => put_counts(counts, c),
        Err(_) => counts[..18].fill(0),
    }
}

// A tree from a list of levels and one of labels. Refused, the areas and the record are zeros.
#[unsafe(no_mangle)]
pub extern "C" fn oscjardum_build(
    levels: &[u32],
    list_labels: &[u32],
    words: &mut [u64],
    bytes: &mut [u8],
    middles: &mut [u16],
    larges: &mut [u64],
    labels: &mut [u32],
    scratch: &mut [u64],
    counts: &mut [usize],
    out: &mut [usize],
) -> usize
    ensures { make result out.new counts.new (lent_at words.new bytes.new middles.new larges.new labels.new scratch.new) ≡ building levels.now list_labels.now (lent_at words.old bytes.old middles.old larges.old labels.old scratch.old) counts.old out.old }
{
    if short(counts.len(), out.len()) {
        zero_areas(words, bytes, middles, larges, labels);
        scratch.fill(0);
        return SHORT;
    }
    let built = build(
        levels,
        list_labels,
        words,
        bytes,
        middles,
        larges,
        labels,
        scratch,
    );
    record_built(counts, built);
    tell(out, reply::of_built(built))
}

// A node more at the list's end. Refused, the areas and the record stay.
#[unsafe(no_mangle)]
pub extern "C" fn oscjardum_grow(
    words: &mut [u64],
    bytes: &mut [u8],
    middles: &mut [u16],
    larges: &mut [u64],
    labels: &mut [u32],
    scratch: &mut [u64],
    counts: &mut [usize],
    level: u32,
    label: u32,
    out: &mut [usize],
) -> usize
    ensures { make result out.new counts.new (lent_at words.new bytes.new middles.new larges.new labels.new scratch.new) ≡ growing (lent_at words.old bytes.old middles.old larges.old labels.old scratch.old) counts.old level label out.old }
{
    if short(counts.len(), out.len()) {
        scratch.fill(0);
        return SHORT;
    }
    let c = counts_of(counts);
    let grown = grow(
        words, bytes, middles, larges, labels, scratch, c, level, label,
    );
    record_grown(counts, grown);
    tell(out, reply::of_built(grown))
}
