// A list's tree built, and its listing or the refusal of the build.
ghost use Rattle.std.specs.Prelude.{◌≡◌, ◌≤◌, length};
ghost use Rattle.meaning.specs.List.{offending};
ghost use Rattle.meaning.specs.Refusals.{level_rule};
ghost use Rattle.meaning.specs.Questions.{bytes_held};
ghost use Rattle.meaning.specs.Listing.{listing, built};
ghost use Rattle.record.specs.Record.{tree_of, lent_of};
ghost use Rattle.listing.specs.Said.{Puts};
ghost use Rattle.listwalk.specs.Standing.{Standing};
ghost use Rattle.listwalk.specs.Told.{or_zero};

use crate::siblings::siblings_of;
use balanced_parens::builder::build;
use listing::lines::write_nodes;
use listing::writer::{write_head, write_refused};
use questions::byte_size;
use record::Catalogue;

// The byte size, and 0 if the question is refused, as `or_zero` has it, which it is not about a tree that stands.
fn size_of(catalogue: &Catalogue<'_>) -> usize
    ensures { result ≡ or_zero (bytes_held (tree_of catalogue.now) (lent_of catalogue.now)) }
{
    byte_size(catalogue).unwrap_or(0)
}

// The listing of a tree that stands in the areas.
fn write_listing(
    out: &mut [u8],
    levels: &[u32],
    labels: &[u32],
    catalogue: &Catalogue<'_>,
) -> Option<usize>
    requires { (length levels.now ≤ 512) × Standing levels.now catalogue.now }
    ensures { Puts out.old 0 (listing levels.now labels.now) result out.new }
{
    let mut siblings = [0; 512];
    siblings_of(levels, catalogue, &mut siblings);
    let counts = catalogue.counts;
    let size = size_of(catalogue);
    let at = write_head(out, 0, counts.nodes, counts.bits[0], size)?;
    write_nodes(out, at, levels, labels, &siblings)
}

// The listing of levels and labels, or the refusal of their build. In these areas that is LEVEL.
pub(crate) fn listed(levels: &[u32], labels: &[u32], out: &mut [u8]) -> Option<usize>
    requires { (length levels.now ≡ length labels.now) × (length levels.now ≤ 512) }
    ensures { Puts out.old 0 (built (level_rule (offending levels.now)) levels.now labels.now) result out.new }
{
    let mut words = [0; 32];
    let mut bytes = [0; 128];
    let mut middles = [0; 16];
    let mut larges = [0; 16];
    let mut area = [0; 512];
    let mut scratch = [0; 1026];
    let counts = match build(
        levels,
        labels,
        &mut words,
        &mut bytes,
        &mut middles,
        &mut larges,
        &mut area,
        &mut scratch,
    ) {
        Ok(counts) => counts,
        Err(refusal) => return write_refused(out, 0, refusal),
    };
    let catalogue = Catalogue {
        words: &words,
        bytes: &bytes,
        middles: &middles,
        larges: &larges,
        labels: &area,
        counts,
    };
    write_listing(out, levels, labels, &catalogue)
}
