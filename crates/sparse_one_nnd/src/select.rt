// Select by its steps over a level's own part, and pred and succ by rank and select.
ghost use Rattle.std.specs.Prelude.{◌≡◌, pred, ◌+◌, ◌*◌, ◌/◌, ◌<◌, length, get_or, take, drop};
ghost use Rattle.std.proofs.Math.Option.{some};
ghost use Rattle.meaning.specs.Dictionary.{limit, before, nth, plus, placed, select_walk, select_start, select_from, start_middle, select_of, pred_of, succ_of};
ghost use Rattle.refusal.specs.Said.{found_number, option_of};
ghost use Rattle.sparse_one_nnd.specs.Said.{areas_in};

use crate::entries::{Start, before, entry};
use crate::{DictAreas, SparseOneNnd};
use refusal::Refusal;

// The middle entry among the 32 of large entry g.
fn middle_of(middles: &[u16], g: usize, q: usize) -> usize
    requires { 32 * g < length middles.now / 2 }
    ensures { result ≡ 32 * g + pred (before 0 q (take 64 (drop (64 * g) middles.now))) }
{
    let rest = &middles[64 * g..];
    let own = &rest[..rest.len().min(64)];
    32 * g + before(own, q).saturating_sub(1)
}

// Place o of block j from middle entry m on, if it does not overflow.
fn place_of(m: usize, j: usize, o: usize) -> Option<usize>
    ensures { option_of result ≡ limit (some (2048 * m + 256 * j + o)) }
{
    let middle = m.checked_mul(SparseOneNnd::MIDDLE_SIZE)?;
    let block = j.checked_mul(SparseOneNnd::SMALL_SIZE)?;
    middle.checked_add(block)?.checked_add(o)
}

// Offset q of that block, whose offsets `bytes` begins with.
fn offset_at(bytes: &[u8], m: usize, j: usize, q: usize) -> Result<Option<usize>, Refusal>
    ensures { found_number result ≡ placed (plus (2048 * m + 256 * j) (nth q bytes.now)) }
{
    let offset = *bytes.get(q).ok_or(Refusal::Broken)?;
    let place = place_of(m, j, usize::from(offset)).ok_or(Refusal::Broken)?;
    Ok(Some(place))
}

// Select from the first block of middle entry m on, with q ones to come.
fn select_walk(bytes: &[u8], m: usize, q: usize) -> Result<Option<usize>, Refusal>
    ensures { found_number result ≡ placed (select_walk 0 (2048 * m) q bytes.now) }
{
    let mut j: usize = 0;
    let mut left = q;
    let mut rest = bytes;
    // A block's step is its count and its offsets, so no `for`.
    while let Some((&count, offsets)) = rest.split_first() {
        let n = usize::from(count);
        if left <= n {
            return offset_at(offsets, m, j, left.saturating_sub(1));
        }
        rest = offsets.get(n..).ok_or(Refusal::Broken)?;
        left -= n;
        j += 1;
    }
    Ok(None)
}

// Select of q from a start at middle entry m.
fn select_start(start: Start<'_>, m: usize, q: usize) -> Result<Option<usize>, Refusal>
    ensures { found_number result ≡ placed (select_start (2048 * m) q start.entry.ones start.entry.rest.now) }
{
    if start.rest.is_empty() {
        return Ok(None);
    }
    if q <= start.ones {
        return Err(Refusal::Broken);
    }
    select_walk(start.rest, m, q - start.ones)
}

impl DictAreas<'_> {
    // Select from large entry g, whose rank does not exceed q - 1, and middle entry m.
    fn select_from(self, q: usize, g: usize, m: usize) -> Result<Option<usize>, Refusal>
        requires { get_or self.larges.now (2 * g + 1) 0 < q }
        ensures { found_number result ≡ placed (select_from (areas_in self.entry) q g m) }
    {
        let start = self.start(g, m).ok_or(Refusal::Broken)?;
        select_start(start, m, q)
    }

    // Select from large entry g.
    fn select_large(self, q: usize, g: usize) -> Result<Option<usize>, Refusal>
        ensures { found_number result ≡ placed (select_from (areas_in self.entry) q g (start_middle (areas_in self.entry) q g)) }
    {
        let (_, ones) = entry(self.larges, g).ok_or(Refusal::Broken)?;
        if q <= ones || self.middles.len() / 2 <= 32 * g {
            return Err(Refusal::Broken);
        }
        let m = middle_of(self.middles, g, q - ones);
        self.select_from(q, g, m)
    }

    // The place of the r-th one, counted from 1.
    pub fn select(self, r: usize) -> Result<Option<usize>, Refusal>
        ensures { found_number result ≡ select_of (areas_in self.entry) r }
    {
        if r == 0 || self.is_empty() {
            return Ok(None);
        }
        let g = before(self.larges, r).saturating_sub(1);
        self.select_large(r, g)
    }

    // The last one up to and at a place.
    pub fn pred(self, place: usize) -> Result<Option<usize>, Refusal>
        ensures { found_number result ≡ pred_of (areas_in self.entry) place }
    {
        self.select(self.rank(place)?)
    }

    // The first one at or after a place: the last one up to it if that is it, else the next.
    pub fn succ(self, place: usize) -> Result<Option<usize>, Refusal>
        ensures { found_number result ≡ succ_of (areas_in self.entry) place }
    {
        let r = self.rank(place)?;
        if self.select(r)? == Some(place) {
            return Ok(Some(place));
        }
        self.select(r.checked_add(1).ok_or(Refusal::Broken)?)
    }
}
