// Parts of areas 1 to 3: a dictionary's own, and what is past another level's.
ghost use Rattle.std.specs.Prelude.{◌≡◌, drop};
ghost use Rattle.meaning.specs.Dictionary.{is_empty};
ghost use Rattle.meaning.specs.Direct.{dict_past};
ghost use Rattle.sparse_one_nnd.specs.Said.{entries_in, areas_in, IsOwn};

use crate::{DictAreas, SparseOneNnd};
use refusal::Refusal;

// What is past the first n elements.
fn past<T>(a: &[T], n: usize) -> &[T]
    ensures { result.now ≡ drop n a.now }
{
    &a[n.min(a.len())..]
}

impl<'a> DictAreas<'a> {
    // The first entries of each kind, by the record of counts; refused if they are not all there.
    pub(crate) fn own(self, counts: SparseOneNnd) -> Result<DictAreas<'a>, Refusal>
        ensures { IsOwn (entries_in counts) (areas_in self.entry) result }
    {
        if self.bytes.len() < counts.bytes
            || self.middles.len() / 2 < counts.middles
            || self.larges.len() / 2 < counts.larges
        {
            return Err(Refusal::Broken);
        }
        Ok(DictAreas {
            bytes: &self.bytes[..counts.bytes],
            middles: &self.middles[..2 * counts.middles],
            larges: &self.larges[..2 * counts.larges],
        })
    }

    // What is past so many entries of each kind.
    pub(crate) fn past(self, from: SparseOneNnd) -> DictAreas<'a>
        ensures { areas_in result ≡ dict_past (entries_in from) (areas_in self.entry) }
    {
        DictAreas {
            bytes: past(self.bytes, from.bytes),
            middles: past(self.middles, from.middles.saturating_mul(2)),
            larges: past(self.larges, from.larges.saturating_mul(2)),
        }
    }

    // Whether there are no entries.
    pub(crate) fn is_empty(self) -> bool
        ensures { result ≡ is_empty (areas_in self.entry) }
    {
        self.bytes.is_empty() && self.middles.is_empty() && self.larges.is_empty()
    }
}
