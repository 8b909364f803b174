// The first pass of a build, which looks at no area: the ones of each block of 256 places.
ghost use Rattle.std.specs.Prelude.{◌≡◌, ◌+◌, ◌*◌, ◌<◌, ◌≤◌, take, drop};
ghost use Rattle.meaning.specs.Bits.{opens, tab, bit_at, bits_of};
ghost use Rattle.sparse_one_nnd.specs.Blocks.{StretchIs, last_of, Held, PassIs, counts_of};
ghost use Rattle.sparse_one_nnd.specs.Said.{entries_in};

use crate::SparseOneNnd;
use refusal::Refusal;

// "for a dictionary built directly, bits above 2,097,152"
const MOST_BITS: usize = 2097152;

// A stretch of places: zeros, but for a one at the last if `one`.
#[derive(Clone, Copy)]
pub struct Stretch {
    pub places: usize,
    pub one: bool,
}

// What the first pass finds: how many blocks and ones there are.
#[derive(Clone, Copy)]
pub struct Found {
    pub blocks: usize,
    pub ones: usize,
}

// The places of a word from one on: up to its next one, or to its end, but no more than `left`.
fn next_stretch(ws: &[u64], at: usize, left: usize) -> Stretch
    requires { 0 < left }
    ensures { StretchIs (bit_at ws.now) at left result }
{
    let rest = words::word_at(ws, at / 64) >> (at % 64);
    let zeros = rest.trailing_zeros() as usize;
    let most = (64 - at % 64).min(left);
    if zeros < most {
        return Stretch {
            places: zeros + 1,
            one: true,
        };
    }
    Stretch {
        places: most,
        one: false,
    }
}

// The ones of k places from a place on.
fn count_ones(ws: &[u64], from: usize, k: usize) -> usize
    requires { from + k ≤ 2097152 }
    ensures { result ≡ opens (tab (bit_at ws.now) from k) }
{
    let mut c: usize = 0;
    let mut i: usize = 0;
    // A step is a stretch, so no `for`.
    while i < k {
        let s = next_stretch(ws, from + i, k - i);
        c += usize::from(s.one);
        i += s.places;
    }
    c
}

// The ones of block b of n places.
pub(crate) fn block_ones(ws: &[u64], n: usize, b: usize) -> usize
    requires { (n ≤ 2097152) × (256 * b ≤ n) }
    ensures { result ≡ opens (take 256 (drop (256 * b) (bits_of ws.now n))) }
{
    let from = SparseOneNnd::SMALL_SIZE * b;
    count_ones(ws, from, SparseOneNnd::SMALL_SIZE.min(n - from))
}

// One past block b, which has c ones, if it has any; else what there was.
fn last_of(c: usize, b: usize, blocks: usize) -> usize
    requires { b < 2097152 }
    ensures { result ≡ last_of c b blocks }
{
    if c == 0 { blocks } else { b + 1 }
}

// Block by block.
fn scan_blocks(ws: &[u64], n: usize) -> Result<Found, Refusal>
    requires { Held ws.now n }
    ensures { PassIs ws.now n result }
{
    let mut blocks: usize = 0;
    let mut ones: usize = 0;
    for b in 0..n / SparseOneNnd::SMALL_SIZE + 1 {
        let c = block_ones(ws, n, b);
        if c == SparseOneNnd::SMALL_SIZE {
            return Err(Refusal::Full(0, b));
        }
        blocks = last_of(c, b, blocks);
        ones += c;
    }
    Ok(Found { blocks, ones })
}

// The first pass.
pub(crate) fn scan(ws: &[u64], n: usize) -> Result<Found, Refusal>
    ensures { PassIs ws.now n result }
{
    if !words::enough(ws.len(), n) {
        return Err(Refusal::Broken);
    }
    if MOST_BITS < n {
        return Err(Refusal::Many(n));
    }
    scan_blocks(ws, n)
}

// The counts of a dictionary of so many blocks and ones.
pub(crate) fn counts_of(found: Found) -> SparseOneNnd
    requires { (found.blocks ≤ 2097152) × (found.ones ≤ 2097152) }
    ensures { entries_in result ≡ counts_of found.blocks found.ones }
{
    SparseOneNnd {
        bytes: found.blocks + found.ones,
        middles: found.blocks.div_ceil(8),
        larges: found.blocks.div_ceil(256),
    }
}
