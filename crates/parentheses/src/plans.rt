// The plan: what each level takes, in scratch alone. "Each pioneer string is built upon in the same way until one has 64 bits or fewer".
ghost use Rattle.std.specs.Prelude.{◌≡◌, ℕ, ◌+◌, ◌<◌, ◌≤◌, length, replicate};
ghost use Rattle.meaning.specs.Refusals.{first_of};
ghost use Rattle.refusal.specs.Said.{refused_of};
ghost use Rattle.refusal.specs.declared.Refusal.TheVariants.{Full};
ghost use Rattle.pioneers.specs.Scratch.{text_of};
ghost use Rattle.parentheses.specs.Plans.{alone_of, shifted, sizes_of, added, above_of, Small, Standing, FamilyIs, PlanIs};
ghost use Rattle.parentheses.specs.Rooms.{size_checks};

use crate::levels::Areas;
use pioneers::compact::compact;
use pioneers::flags::{Layout, mark};
use record::Counts;
use refusal::Refusal;
use sparse_one_nnd::SparseOneNnd;
use words::word_count;

// Words of area 0, and entries of areas 1 to 3: what some levels take, or what lies before a level.
#[derive(Clone, Copy)]
pub(crate) struct Sizes {
    pub(crate) words: usize,
    pub(crate) dict: SparseOneNnd,
}

impl Sizes {
    // A level more.
    pub(crate) fn add(self, m: usize, d: SparseOneNnd) -> Sizes
        requires { Small self d }
        ensures { result ≡ added self m d }
    {
        Sizes {
            words: self.words + word_count(m),
            dict: SparseOneNnd {
                bytes: self.dict.bytes + d.bytes,
                middles: self.dict.middles + d.middles,
                larges: self.dict.larges + d.larges,
            },
        }
    }

    // ROOM for 0 to 4, for n nodes, by the lengths of the areas; `labels` is that of area 4.
    #[tactic(auto, unfolding(crate::specs::Rooms::size_checks, meaning::specs::Refusals::first_of, meaning::specs::Refusals::check))]
    pub(crate) fn room(self, n: usize, areas: &Areas<'_>, labels: usize) -> Result<(), Refusal>
        ensures { refused_of result ≡ first_of (size_checks self n (length areas.now.words.now) (length areas.now.bytes.now) (length areas.now.middles.now) (length areas.now.larges.now) labels) }
    {
        if areas.words.len() < self.words {
            return Err(Refusal::Room(0));
        }
        if areas.bytes.len() < self.dict.bytes {
            return Err(Refusal::Room(1));
        }
        if areas.middles.len() / 2 < self.dict.middles {
            return Err(Refusal::Room(2));
        }
        if areas.larges.len() / 2 < self.dict.larges {
            return Err(Refusal::Room(3));
        }
        if labels < n {
            return Err(Refusal::Room(4));
        }
        Ok(())
    }
}

// What the levels of a string take.
#[derive(Clone, Copy)]
pub(crate) struct Plan {
    pub(crate) counts: Counts,
    pub(crate) sizes: Sizes,
}

impl Plan {
    // A string of 64 bits or fewer.
    pub(crate) fn last(m: usize) -> Plan
        ensures { (result.counts ≡ alone_of m) × (result.sizes ≡ sizes_of m) }
    {
        Plan {
            counts: alone(m),
            sizes: Sizes {
                words: word_count(m),
                dict: SparseOneNnd::empty(),
            },
        }
    }

    // The same with a string and its dictionary before it.
    fn above(self, m: usize, d: SparseOneNnd) -> Plan
        requires { Small self.sizes d }
        ensures { result ≡ above_of m d self }
    {
        Plan {
            counts: shift(m, d, self.counts),
            sizes: self.sizes.add(m, d),
        }
    }
}

// The family of a string: its dictionary's counts, and the bits of the pioneer string, which then stands in the string's place.
#[derive(Clone, Copy)]
pub(crate) struct Family {
    pub(crate) dict: SparseOneNnd,
    pub(crate) bits: usize,
}

// One string alone.
fn alone(m: usize) -> Counts
    ensures { result ≡ alone_of m }
{
    Counts {
        nodes: 0,
        bits: [m, 0, 0, 0, 0],
        bytes: [0; 4],
        middles: [0; 4],
        larges: [0; 4],
    }
}

// A string and its dictionary before the others.
fn shift(m: usize, d: SparseOneNnd, c: Counts) -> Counts
    ensures { result ≡ shifted m d c }
{
    Counts {
        nodes: 0,
        bits: [m, c.bits[0], c.bits[1], c.bits[2], c.bits[3]],
        bytes: [d.bytes, c.bytes[0], c.bytes[1], c.bytes[2]],
        middles: [d.middles, c.middles[0], c.middles[1], c.middles[2]],
        larges: [d.larges, c.larges[0], c.larges[1], c.larges[2]],
    }
}

// A dictionary's FULL, told of the pioneer level whose flags it has.
fn at_level(r: Refusal, level: usize) -> Refusal
    ensures { (v b : ℕ) → r ≡ Full v b → result ≡ Full level b }
{
    match r {
        Refusal::Full(_, block) => Refusal::Full(level, block),
        _ => r,
    }
}

// What the family of a string takes, at the pioneer level `level`; then the pioneer string stands in its place.
fn plan_family(scr: &mut [u64], lay: Layout, level: usize) -> Result<Family, Refusal>
    requires { Standing scr.old lay × (64 < lay.bits) }
    ensures { FamilyIs result level scr.old lay scr.new }
{
    if !mark(scr, lay) {
        return Err(Refusal::Broken);
    }
    match SparseOneNnd::plan(&scr[lay.flags..], lay.bits) {
        Ok(dict) => {
            let bits = compact(scr, lay);
            Ok(Family { dict, bits })
        }
        Err(r) => Err(at_level(r, level)),
    }
}

// At most `left` pioneer levels above the string that scratch holds; the next one is `level`. Scratch is zero after it.
pub(crate) fn plan_levels(
    scr: &mut [u64],
    lay: Layout,
    left: usize,
    level: usize,
) -> Result<Plan, Refusal>
    requires { Standing scr.old lay × (left ≤ 4) × (left + level ≤ 5) }
    ensures { PlanIs result left level (text_of scr.old lay) × (scr.new ≡ replicate (length scr.old) 0) }
{
    let m = lay.bits;
    if m <= 64 {
        scr.fill(0);
        return Ok(Plan::last(m));
    }
    if left == 0 {
        scr.fill(0);
        return Err(Refusal::Deep);
    }
    match plan_family(scr, lay, level) {
        Ok(family) => {
            let next = Layout {
                bits: family.bits,
                ..lay
            };
            let rest = plan_levels(scr, next, left - 1, level + 1)?;
            Ok(rest.above(m, family.dict))
        }
        Err(r) => {
            scr.fill(0);
            Err(r)
        }
    }
}
