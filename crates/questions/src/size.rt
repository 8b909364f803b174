// Byte size: "8 per bit-string word, 1, 4 and 16 per dictionary entry of the three kinds", "plus 8 and 4 per label".
ghost use Rattle.std.specs.Prelude.{◌+◌, ◌*◌, ◌^◌, ◌<◌, SomeIff};
ghost use Rattle.meaning.specs.Questions.{count_size, size_in};
ghost use Rattle.record.specs.Record.{level_in, tree_in};

use record::Counts;

// A size with k bytes more for each of n.
fn with(size: usize, k: usize, n: usize) -> Option<usize>
    ensures { SomeIff result (size + k * n < 2 ^ 64) (size + k * n) }
{
    size.checked_add(k.checked_mul(n)?)
}

// A size with the string of a level, and the bytes, middle and large entries of its dictionary.
fn with_level(size: usize, counts: &Counts, level: usize) -> Option<usize>
    requires { level < 4 }
    ensures { SomeIff result (size + count_size (level_in counts.now level) < 2 ^ 64) (size + count_size (level_in counts.now level)) }
{
    let words = with(size, 8, words::word_count(counts.bits[level]))?;
    let bytes = with(words, 1, counts.bytes[level])?;
    let middles = with(bytes, 4, counts.middles[level])?;
    with(middles, 16, counts.larges[level])
}

// The size of all that the record counts.
pub(crate) fn size_of(counts: &Counts) -> Option<usize>
    ensures { SomeIff result (size_in (tree_in counts.now) < 2 ^ 64) (size_in (tree_in counts.now)) }
{
    let mut size = 8;
    for level in 0..4 {
        size = with_level(size, counts, level)?;
    }
    let size = with(size, 8, words::word_count(counts.bits[4]))?;
    with(size, 4, counts.nodes)
}
