// A level's family: the questions to the dictionary of its flags, in the level's own parts of areas 1 to 3.
ghost use Rattle.std.specs.Prelude.{◌≡◌, ◌&&◌, ◌/◌, ◌<◌, leb, eqb};
ghost use Rattle.std.proofs.Math.Option.{some};
ghost use Rattle.meaning.specs.Close.{and_then, found, test};
ghost use Rattle.meaning.specs.Direct.{dict_rank, dict_select, dict_pred};
ghost use Rattle.record.specs.Record.{level_in};
ghost use Rattle.refusal.specs.Said.{option_of};
ghost use Rattle.sparse_one_nnd.specs.Said.{entries_in, areas_in, dict_at};
ghost use Rattle.closes.specs.Parts.{entries_at, dict_of, past_at, Counted};

use record::Catalogue;
use sparse_one_nnd::{DictAreas, SparseOneNnd};

// A level, and where its parts start: its words, and how many entries of each kind lie before those of its dictionary.
#[derive(Clone, Copy)]
pub struct At {
    pub level: usize,
    pub words: usize,
    pub dict: SparseOneNnd,
}

// Areas 1 to 3.
fn dict_areas<'a>(catalogue: &Catalogue<'a>) -> DictAreas<'a>
    ensures { areas_in result ≡ dict_at catalogue.now.bytes.now catalogue.now.middles.now catalogue.now.larges.now }
{
    DictAreas {
        bytes: catalogue.bytes,
        middles: catalogue.middles,
        larges: catalogue.larges,
    }
}

impl At {
    // The first level, at the start of the areas.
    pub(crate) const START: At = At {
        level: 0,
        words: 0,
        dict: SparseOneNnd {
            bytes: 0,
            middles: 0,
            larges: 0,
        },
    };

    // The counts of the dictionary of the level's flags.
    fn entries(self, catalogue: &Catalogue<'_>) -> SparseOneNnd
        requires { self.level < 4 }
        ensures { entries_in result ≡ entries_at catalogue.now.counts self.level }
    {
        SparseOneNnd {
            bytes: catalogue.counts.bytes[self.level],
            middles: catalogue.counts.middles[self.level],
            larges: catalogue.counts.larges[self.level],
        }
    }

    // The next level, past this one's parts.
    pub(crate) fn above(self, catalogue: &Catalogue<'_>) -> At
        requires { (self.level < 4) × Counted (level_in catalogue.now.counts self.level) self }
        ensures { result ≡ past_at (level_in catalogue.now.counts self.level) self }
    {
        let own = self.entries(catalogue);
        At {
            level: self.level + 1,
            words: self.words + words::word_count(catalogue.counts.bits[self.level]),
            dict: SparseOneNnd {
                bytes: self.dict.bytes + own.bytes,
                middles: self.dict.middles + own.middles,
                larges: self.dict.larges + own.larges,
            },
        }
    }

    // How many flagged places stand at or before a place.
    pub(crate) fn rank(self, catalogue: &Catalogue<'_>, place: usize) -> Option<usize>
        requires { self.level < 4 }
        ensures { option_of result ≡ found (dict_rank (entries_at catalogue.now.counts self.level) (dict_of catalogue.now self) place) }
    {
        self.entries(catalogue)
            .rank_part(self.dict, dict_areas(catalogue), place)
            .ok()
    }

    // The r-th flagged place.
    pub(crate) fn select(self, catalogue: &Catalogue<'_>, r: usize) -> Option<usize>
        requires { self.level < 4 }
        ensures { option_of result ≡ found (dict_select (entries_at catalogue.now.counts self.level) (dict_of catalogue.now self) r) }
    {
        self.entries(catalogue)
            .select_part(self.dict, dict_areas(catalogue), r)
            .ok()?
    }

    // "the last flagged place at or before p", in p's own block.
    pub(crate) fn pred(self, catalogue: &Catalogue<'_>, p: usize) -> Option<usize>
        requires { self.level < 4 }
        ensures { option_of result ≡ and_then (found (dict_pred (entries_at catalogue.now.counts self.level) (dict_of catalogue.now self) p)) (λ q. test (leb q p && eqb (q / 64) (p / 64)) (some q)) }
    {
        let last = self
            .entries(catalogue)
            .pred_part(self.dict, dict_areas(catalogue), p)
            .ok()?;
        own_block(last?, p)
    }
}

// A q at or before p, in p's own block.
fn own_block(q: usize, p: usize) -> Option<usize>
    ensures { option_of result ≡ test (leb q p && eqb (q / 64) (p / 64)) (some q) }
{
    if q <= p && q / 64 == p / 64 {
        return Some(q);
    }
    None
}
