// The sparse dictionary: the questions to it in areas 1 to 3, the plan, and the build.
#![tactic(auto)]

ghost use Rattle.std.specs.Prelude.{◌≡◌, ◌+◌, ◌*◌, length};
ghost use Rattle.std.proofs.Math.Option.{some};
ghost use Rattle.meaning.specs.Dictionary.{limit};
ghost use Rattle.meaning.specs.Direct.{dict_rank, dict_select, dict_pred, dict_succ, dict_past, dict_size, dict_plan, dict_write, dict_build};
ghost use Rattle.refusal.specs.Said.{said_number, found_number, option_of};
ghost use Rattle.sparse_one_nnd.specs.Said.{entries_in, areas_in, dict_at, said_entries, after};

mod areas;
mod entries;
mod first_pass;
mod rank;
mod second_pass;
mod select;

use first_pass::{counts_of, scan};
use refusal::Refusal;
use second_pass::put_blocks;

// The record of counts of a dictionary: bytes, middle entries and large entries.
#[derive(Clone, Copy)]
pub struct SparseOneNnd {
    pub bytes: usize,
    pub middles: usize,
    pub larges: usize,
}

// Areas 1 to 3, or a level's own part of them. An entry is two numbers: a byte position and a rank.
#[derive(Clone, Copy)]
pub struct DictAreas<'a> {
    pub bytes: &'a [u8],
    pub middles: &'a [u16],
    pub larges: &'a [u64],
}

impl SparseOneNnd {
    pub const SMALL_SIZE: usize = 256;

    pub const MIDDLE_SIZE: usize = 2048;

    pub const LARGE_SIZE: usize = 65536;

    // A dictionary without entries.
    pub fn empty() -> Self
        ensures { entries_in result ≡ record { bytes = 0; middle = 0; large = 0 } }
    {
        Self {
            bytes: 0,
            middles: 0,
            larges: 0,
        }
    }

    // The ones up to and at a place.
    pub fn rank_one(self, areas: DictAreas<'_>, place: usize) -> Result<usize, Refusal>
        ensures { said_number result ≡ dict_rank (entries_in self) (areas_in areas.entry) place }
    {
        areas.own(self)?.rank(place)
    }

    // The place of the r-th one, counted from 1.
    pub fn select_one(self, areas: DictAreas<'_>, r: usize) -> Result<Option<usize>, Refusal>
        ensures { found_number result ≡ dict_select (entries_in self) (areas_in areas.entry) r }
    {
        areas.own(self)?.select(r)
    }

    // The last one up to and at a place.
    pub fn pred_one(self, areas: DictAreas<'_>, place: usize) -> Result<Option<usize>, Refusal>
        ensures { found_number result ≡ dict_pred (entries_in self) (areas_in areas.entry) place }
    {
        areas.own(self)?.pred(place)
    }

    // The first one at or after a place.
    pub fn succ_one(self, areas: DictAreas<'_>, place: usize) -> Result<Option<usize>, Refusal>
        ensures { found_number result ≡ dict_succ (entries_in self) (areas_in areas.entry) place }
    {
        areas.own(self)?.succ(place)
    }

    // The same of a level's part, with `from` entries of each kind before it.
    pub fn rank_part(
        self,
        from: SparseOneNnd,
        areas: DictAreas<'_>,
        place: usize,
    ) -> Result<usize, Refusal>
        ensures { said_number result ≡ dict_rank (entries_in self) (dict_past (entries_in from) (areas_in areas.entry)) place }
    {
        self.rank_one(areas.past(from), place)
    }

    pub fn select_part(
        self,
        from: SparseOneNnd,
        areas: DictAreas<'_>,
        r: usize,
    ) -> Result<Option<usize>, Refusal>
        ensures { found_number result ≡ dict_select (entries_in self) (dict_past (entries_in from) (areas_in areas.entry)) r }
    {
        self.select_one(areas.past(from), r)
    }

    pub fn pred_part(
        self,
        from: SparseOneNnd,
        areas: DictAreas<'_>,
        place: usize,
    ) -> Result<Option<usize>, Refusal>
        ensures { found_number result ≡ dict_pred (entries_in self) (dict_past (entries_in from) (areas_in areas.entry)) place }
    {
        self.pred_one(areas.past(from), place)
    }

    pub fn succ_part(
        self,
        from: SparseOneNnd,
        areas: DictAreas<'_>,
        place: usize,
    ) -> Result<Option<usize>, Refusal>
        ensures { found_number result ≡ dict_succ (entries_in self) (dict_past (entries_in from) (areas_in areas.entry)) place }
    {
        self.succ_one(areas.past(from), place)
    }

    // 1, 4 and 16 bytes for each entry of the three kinds, if the sum does not overflow.
    fn size(self) -> Option<usize>
        ensures { option_of result ≡ limit (some (self.bytes + 4 * self.middles + 16 * self.larges)) }
    {
        let middles = self.middles.checked_mul(4)?;
        let larges = self.larges.checked_mul(16)?;
        self.bytes.checked_add(middles)?.checked_add(larges)
    }

    // The byte size.
    pub fn byte_size(self) -> Result<usize, Refusal>
        ensures { said_number result ≡ dict_size (entries_in self) }
    {
        self.size().ok_or(Refusal::Broken)
    }

    // The plan of a dictionary of the ones of n bits, which looks at no area.
    pub fn plan(ws: &[u64], n: usize) -> Result<SparseOneNnd, Refusal>
        ensures { said_entries result ≡ dict_plan ws.now n }
    {
        let found = scan(ws, n)?;
        Ok(counts_of(found))
    }

    // The dictionary of the ones of n bits, written past `from` entries of each kind; refused, it changes nothing.
    // The areas come as three slices: a struct that holds `&mut` would need a clause in each function that it keeps its borrows, which is no plainer.
    pub fn write(
        ws: &[u64],
        n: usize,
        from: SparseOneNnd,
        bytes: &mut [u8],
        middles: &mut [u16],
        larges: &mut [u64],
    ) -> Result<SparseOneNnd, Refusal>
        ensures { after (said_entries result) (dict_at bytes.new middles.new larges.new) ≡ dict_write ws.now n (entries_in from) (dict_at bytes.old middles.old larges.old) }
    {
        let found = scan(ws, n)?;
        let counts = counts_of(found);
        if bytes.len().saturating_sub(from.bytes) < counts.bytes {
            return Err(Refusal::Room(1));
        }
        if (middles.len() / 2).saturating_sub(from.middles) < counts.middles {
            return Err(Refusal::Room(2));
        }
        if (larges.len() / 2).saturating_sub(from.larges) < counts.larges {
            return Err(Refusal::Room(3));
        }
        put_blocks(ws, n, from, bytes, middles, larges, found.blocks);
        Ok(counts)
    }

    // A dictionary built directly in areas 1 to 3: zeros behind what it uses; refused, its areas are zero.
    pub fn build(
        ws: &[u64],
        n: usize,
        bytes: &mut [u8],
        middles: &mut [u16],
        larges: &mut [u64],
    ) -> Result<SparseOneNnd, Refusal>
        ensures { after (said_entries result) (dict_at bytes.new middles.new larges.new) ≡ dict_build ws.now n (record { bytes = length bytes.old; middle = length middles.old; large = length larges.old }) }
    {
        bytes.fill(0);
        middles.fill(0);
        larges.fill(0);
        SparseOneNnd::write(ws, n, SparseOneNnd::empty(), bytes, middles, larges)
    }
}
