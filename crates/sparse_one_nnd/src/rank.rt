// Rank by its steps over a level's own part: "walks the blocks and counts leading offsets up to its place".
ghost use Rattle.std.specs.Prelude.{◌≡◌, ◌*◌, ◌/◌, ◌≤◌, ◌<◌};
ghost use Rattle.meaning.specs.Answers.{or_broken};
ghost use Rattle.meaning.specs.Dictionary.{limit, leading, rank_walk, rank_from, rank_of};
ghost use Rattle.refusal.specs.Said.{said_number, option_of};
ghost use Rattle.sparse_one_nnd.specs.Said.{areas_in};

use crate::{DictAreas, SparseOneNnd};
use refusal::Refusal;

// The leading offsets up to x among the first n of `bytes`, added to r.
fn count_in(bytes: &[u8], x: usize, r: usize, n: usize) -> Option<usize>
    ensures { option_of result ≡ limit (leading x r n bytes.now) }
{
    let mut rank = r;
    for i in 0..n {
        let offset = usize::from(*bytes.get(i)?);
        if x < offset {
            return Some(rank);
        }
        rank = rank.checked_add(1)?;
    }
    Some(rank)
}

// Rank from a block on, with k blocks to pass and r ones passed.
fn rank_walk(bytes: &[u8], x: usize, k: usize, r: usize) -> Option<usize>
    ensures { option_of result ≡ limit (rank_walk x k r bytes.now) }
{
    let mut left = k;
    let mut rank = r;
    let mut rest = bytes;
    // A block's step is its count and its offsets, so no `for`.
    while let Some((&count, offsets)) = rest.split_first() {
        let n = usize::from(count);
        if left == 0 {
            return count_in(offsets, x, rank, n);
        }
        rest = offsets.get(n..)?;
        rank = rank.checked_add(n)?;
        left -= 1;
    }
    Some(rank)
}

impl DictAreas<'_> {
    // Rank from large entry g and middle entry m.
    fn rank_from(self, place: usize, g: usize, m: usize) -> Option<usize>
        requires { 8 * m ≤ place / 256 }
        ensures { option_of result ≡ limit (rank_from (areas_in self.entry) place g m) }
    {
        let start = self.start(g, m)?;
        let x = place % SparseOneNnd::SMALL_SIZE;
        let k = place / SparseOneNnd::SMALL_SIZE - 8 * m;
        rank_walk(start.rest, x, k, start.ones)
    }

    // The ones up to and at a place.
    pub fn rank(self, place: usize) -> Result<usize, Refusal>
        ensures { said_number result ≡ or_broken (rank_of (areas_in self.entry) place) }
    {
        if self.is_empty() {
            return Ok(0);
        }
        // The entries of the place, or the last there are.
        let g = (place / SparseOneNnd::LARGE_SIZE).min((self.larges.len() / 2).saturating_sub(1));
        let m = (place / SparseOneNnd::MIDDLE_SIZE).min((self.middles.len() / 2).saturating_sub(1));
        self.rank_from(place, g, m).ok_or(Refusal::Broken)
    }
}
