// The level builder. "Areas 0 to 3 hold the string first, then each pioneer level in turn, with no gaps".
ghost use Rattle.std.specs.Prelude.{◌≡◌, ◌+◌, ◌*◌, ◌≤◌, length, replicate};
ghost use Rattle.meaning.specs.Areas.{written};
ghost use Rattle.meaning.specs.Family.{tower};
ghost use Rattle.meaning.specs.List.{greatest};
ghost use Rattle.pioneers.specs.Placed.{holding};
ghost use Rattle.parentheses.specs.Plans.{PlanIs};
ghost use Rattle.parentheses.specs.Writes.{held_at, held_in, Same};
ghost use Rattle.parentheses.specs.Raises.{lay_of, string_in, rooms_at, Raises, Raised, Stands, Holds, Fills};

use crate::plans::{Plan, Sizes, plan_levels};
use crate::writes::write_levels;
use pioneers::compact::trim;
use pioneers::flags::Layout;
use pioneers::root::one_root;
use record::Counts;
use refusal::Refusal;
use sparse_one_nnd::SparseOneNnd;
use words::word_count;

// Areas 0 to 3, lent to be written.
#[derive(Drop)]
pub struct Areas<'a> {
    pub words: &'a mut [u64],
    pub bytes: &'a mut [u8],
    pub middles: &'a mut [u16],
    pub larges: &'a mut [u64],
}

// The parts of scratch for n nodes: n + 1 words of stack, then the string, then its flags.
fn layout(n: usize) -> Layout
    requires { n ≤ greatest }
    ensures { result ≡ lay_of n }
{
    let bits = 2 * n + 2;
    Layout {
        text: n + 1,
        flags: n + 1 + word_count(bits),
        bits,
    }
}

// Zeros before the string of n nodes and behind it.
fn tidy(scr: &mut [u64], n: usize)
    requires { Stands scr.old n }
    ensures { scr.new ≡ holding (n + 1) (length scr.old) (string_in scr.old n) }
{
    let text = n + 1;
    trim(&mut scr[text..], 2 * n + 2);
    scr[..text].fill(0);
}

// The plan of the string that scratch holds. A copy of it waits behind its flags, and comes back.
fn plan_string(scr: &mut [u64], n: usize) -> Result<Plan, Refusal>
    requires { Holds scr.old n }
    ensures { PlanIs result 4 1 (string_in scr.old n) × (scr.new ≡ scr.old) }
{
    if n < 32 {
        return Ok(Plan::last(2 * n + 2));
    }
    let lay = layout(n);
    let text = lay.text;
    let w = word_count(2 * n + 2);
    let spare = lay.flags + w;
    scr.copy_within(text..text + w, spare);
    let plan = plan_levels(&mut scr[..spare], lay, 4, 1);
    scr.copy_within(spare..spare + w, text);
    scr[spare..].fill(0);
    plan
}

// The levels into areas 0 to 3, and zeros behind them. Scratch is zero after it.
fn fill(scr: &mut [u64], n: usize, areas: &mut Areas<'_>)
    requires { Fills scr.old n (held_in areas.old) }
    ensures same { Same areas.old areas.new }
    ensures filled { (held_in areas.new ≡ written (rooms_at (held_in areas.old) 0 0) (tower 4 (string_in scr.old n))) × (scr.new ≡ replicate (length scr.old) 0) }
{
    areas.words.fill(0);
    areas.bytes.fill(0);
    areas.middles.fill(0);
    areas.larges.fill(0);
    let at = Sizes {
        words: 0,
        dict: SparseOneNnd::empty(),
    };
    write_levels(scr, layout(n), 4, at, areas);
}

// BROKEN, FULL, DEEP, ROOM for 0 to 4, or the levels of the string in areas 0 to 3. Scratch is zero where it is not refused.
fn raise_string(
    scr: &mut [u64],
    n: usize,
    areas: &mut Areas<'_>,
    labels: usize,
) -> Result<Counts, Refusal>
    ensures same { Same areas.old areas.new }
    ensures raised { Raised scr.old n (held_in areas.old) labels (held_in areas.new) scr.new result }
{
    if 1048575 < n || scr.len() < 2 * n + 2 || !one_root(&scr[n + 1..], 2 * n + 2) {
        return Err(Refusal::Broken);
    }
    tidy(scr, n);
    let plan = plan_string(scr, n)?;
    plan.sizes.room(n, areas, labels)?;
    fill(scr, n, areas);
    Ok(Counts {
        nodes: n,
        ..plan.counts
    })
}

// The levels of the string of n nodes that stands in scratch from word n + 1 on. Where there is none it is BROKEN. A refusal leaves
// areas 0 to 3 as they stood; else they hold the levels, to their ends. `labels` is the length of area 4. Scratch is zero after it.
// The areas are lent one by one, as the theorem `raise_determined` names them.
pub fn raise(
    scr: &mut [u64],
    n: usize,
    words: &mut [u64],
    bytes: &mut [u8],
    middles: &mut [u16],
    larges: &mut [u64],
    labels: usize,
) -> Result<Counts, Refusal>
    ensures { Raises scr.old n (held_at words.old bytes.old middles.old larges.old) labels (held_at words.new bytes.new middles.new larges.new) scr.new result }
{
    let mut areas = Areas {
        words,
        bytes,
        middles,
        larges,
    };
    let raised = raise_string(scr, n, &mut areas, labels);
    if raised.is_err() {
        scr.fill(0);
    }
    raised
}
