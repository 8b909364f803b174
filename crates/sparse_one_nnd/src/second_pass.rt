// The second pass of a build: the entries and the blocks, written past `from` entries of each kind.
ghost use Rattle.std.specs.Prelude.{◌≡◌, ◌+◌, ◌*◌, ◌/◌, ◌<◌, length, set};
ghost use Rattle.std.proofs.lemmas.List.Edits.{sets};
ghost use Rattle.meaning.specs.Bits.{opens, places, bits_of};
ghost use Rattle.meaning.specs.Dictionary.{block, dict_with};
ghost use Rattle.sparse_one_nnd.specs.Writing.{block_at, Writable, large_state, large_area, middle_area, passed, Near, BlockFits};
ghost use Rattle.sparse_one_nnd.specs.Offsets.{OffsetsFit};

use crate::SparseOneNnd;
use crate::first_pass::block_ones;
use bit_string::BitString;
use bit_string::one_indices::OneIndices;

// Where the pass is: byte position and rank, and those of the large entry.
#[derive(Clone, Copy)]
pub struct Writing {
    pub at: usize,
    pub rank: usize,
    pub home: usize,
    pub base: usize,
}

// The large entry of block b, if it has one.
fn put_large(larges: &mut [u64], o: usize, b: usize, s: Writing) -> Writing
    requires { 2 * (o + b / 256) + 1 < length larges.old }
    ensures { (result ≡ large_state b s) × (larges.new ≡ large_area o b s larges.old) }
{
    if b % 256 != 0 {
        return s;
    }
    let i = 2 * (o + b / 256);
    larges[i] = s.at as u64;
    larges[i + 1] = s.rank as u64;
    Writing {
        home: s.at,
        base: s.rank,
        ..s
    }
}

// The middle entry of block b, if it has one.
fn put_middle(middles: &mut [u16], o: usize, b: usize, s: Writing)
    requires { Near o b s middles.old }
    ensures { middles.new ≡ middle_area o b s middles.old }
{
    if b % 8 == 0 {
        let i = 2 * (o + b / 8);
        middles[i] = (s.at - s.home) as u16;
        middles[i + 1] = (s.rank - s.base) as u16;
    }
}

// The offsets of the ones of a block's k places, one after another, from byte `at` on.
fn put_offsets(ws: &[u64], bytes: &mut [u8], k: usize, at: usize)
    requires { OffsetsFit ws.now bytes.old k at }
    ensures { bytes.new ≡ sets bytes.old at (places 0 (bits_of ws.now k)) }
{
    let mut ones = OneIndices::new(BitString { words: ws, len: k });
    let mut next = at;
    // `OneIndices` is no `Iterator`, since a string that it refuses has no end of items: so no `for`.
    while let Some(place) = ones.next().unwrap_or(None) {
        bytes[next] = place as u8;
        next += 1;
    }
}

// The count byte of a block of c ones. One line by itself, since must-fail/empty_uncounted is about it.
fn put_count(bytes: &mut [u8], at: usize, c: usize)
    requires { (at < length bytes.old) × (c < 256) }
    ensures { bytes.new ≡ set bytes.old at c }
{
    bytes[at] = c as u8;
}

// Block b: its count and its offsets.
fn put_block(ws: &[u64], n: usize, bytes: &mut [u8], o: usize, b: usize, s: Writing) -> Writing
    requires { BlockFits ws.now n o b s bytes.old }
    ensures { (result ≡ passed s (opens (block_at ws.now n b))) × (bytes.new ≡ sets bytes.old (o + s.at) (block (block_at ws.now n b))) }
{
    let c = block_ones(ws, n, b);
    put_count(bytes, o + s.at, c);
    let k = SparseOneNnd::SMALL_SIZE.min(n - SparseOneNnd::SMALL_SIZE * b);
    put_offsets(&ws[4 * b..], bytes, k, o + s.at + 1);
    Writing {
        at: s.at + 1 + c,
        rank: s.rank + c,
        ..s
    }
}

// The blocks up to the last one's.
pub(crate) fn put_blocks(
    ws: &[u64],
    n: usize,
    from: SparseOneNnd,
    bytes: &mut [u8],
    middles: &mut [u16],
    larges: &mut [u64],
    blocks: usize,
)
    requires { Writable ws.now n blocks from bytes.old middles.old larges.old }
    ensures bytes_after { bytes.new ≡ sets bytes.old from.bytes (dict_with (bits_of ws.now n) blocks).bytes }
    ensures middles_after { middles.new ≡ sets middles.old (2 * from.middles) (dict_with (bits_of ws.now n) blocks).middle }
    ensures larges_after { larges.new ≡ sets larges.old (2 * from.larges) (dict_with (bits_of ws.now n) blocks).large }
{
    let mut s = Writing {
        at: 0,
        rank: 0,
        home: 0,
        base: 0,
    };
    for b in 0..blocks {
        s = put_large(larges, from.larges, b, s);
        put_middle(middles, from.middles, b, s);
        s = put_block(ws, n, bytes, from.bytes, b, s);
    }
}
