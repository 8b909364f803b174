// "counts that do not fit the areas": the test that every question makes first.
ghost use Rattle.std.specs.Prelude.{◌≡◌, leb, length};
ghost use Rattle.meaning.specs.Size.{sum};
ghost use Rattle.meaning.specs.Questions.{counts_fit};
ghost use Rattle.record.specs.Record.{tree_of, lent_of};

use record::Catalogue;

// Whether the counts together are within a room; they are taken off it one by one, so that no sum overflows.
fn all_fit<const N: usize>(room: usize, counts: &[usize; N]) -> bool
    ensures within { result ≡ leb (sum counts.now) room }
    ensures size { length counts.now ≡ N }
{
    let mut left = room;
    for n in counts {
        if left < *n {
            return false;
        }
        left -= *n;
    }
    true
}

// The words of the five strings, each rounded up; "two u16", and "two u64", an entry.
pub fn counts_fit(catalogue: &Catalogue<'_>) -> bool
    ensures { result ≡ counts_fit (tree_of catalogue.now) (lent_of catalogue.now) }
{
    let counts = &catalogue.counts;
    let words = counts.bits.map(words::word_count);
    all_fit(catalogue.words.len(), &words)
        && all_fit(catalogue.bytes.len(), &counts.bytes)
        && all_fit(catalogue.middles.len() / 2, &counts.middles)
        && all_fit(catalogue.larges.len() / 2, &counts.larges)
        && counts.nodes <= catalogue.labels.len()
}
