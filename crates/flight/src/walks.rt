// The walk, with the record of counts. The areas come one by one: the C interface (include/oscjardum.h).
ghost use Rattle.std.specs.Prelude.{◌≡◌};
ghost use Rattle.meaning.specs.Questions.{lent_at};
ghost use Rattle.walk.specs.Said.{rooms_at};
ghost use Rattle.flight.specs.Calls.{tour, touring};

use crate::layout::{SHORT, counts_of, short, tell};
use crate::reply;
use record::Catalogue;
use walk::walk;

// Levels and labels in order into two lists. Refused, the lists are zeros.
#[unsafe(no_mangle)]
pub extern "C" fn oscjardum_walk(
    words: &[u64],
    bytes: &[u8],
    middles: &[u16],
    larges: &[u64],
    labels: &[u32],
    scratch: &mut [u64],
    counts: &[usize],
    out_levels: &mut [u32],
    out_labels: &mut [u32],
    out: &mut [usize],
) -> usize
    ensures { tour result out.new out_levels.new out_labels.new scratch.new ≡ touring (lent_at words.now bytes.now middles.now larges.now labels.now) counts.now (rooms_at out_levels.old out_labels.old scratch.old) out.old }
{
    if short(counts.len(), out.len()) {
        out_levels.fill(0);
        out_labels.fill(0);
        scratch.fill(0);
        return SHORT;
    }
    let catalogue = Catalogue {
        words,
        bytes,
        middles,
        larges,
        labels,
        counts: counts_of(counts),
    };
    let walked = walk(&catalogue, out_levels, out_labels, scratch);
    tell(out, reply::of_number(walked))
}
