// The walk of a tree: "From the root: the first child if there is one, else the next sibling of the nearest node on the way
// back that has one." Levels and labels go in order into lent lists, the way back into scratch.
#![tactic(auto)]

ghost use Rattle.std.specs.Prelude.{◌≡◌, [], ◌∷◌};
ghost use Rattle.meaning.specs.Child as child;
ghost use Rattle.meaning.specs.Walking.{walk_refusal, walk_by, walked_by, walking};
ghost use Rattle.record.specs.Record.{tree_of, lent_of};
ghost use Rattle.refusal.specs.Said.{refused_of, said_number};
ghost use Rattle.walk.specs.Said.{walked, rooms_at};
ghost use Rattle.walk.specs.Told.{Cleared, Zeros, Roomy, ended};

use crate::onward::Step;
use record::Catalogue;
use refusal::Refusal;

mod onward;
mod way;

// The two lists and scratch are passed apart: a struct that holds a `&mut` needs a clause that it stays the same `&mut`, so it is no plainer.

// "counts that do not fit the areas (9)", then ROOM: scratch is area 5, the lists of levels and labels are 10 and 11.
fn check(
    catalogue: &Catalogue<'_>,
    out_levels: &[u32],
    out_labels: &[u32],
    scratch: &[u64],
) -> Result<(), Refusal>
    ensures { refused_of result ≡ walk_refusal (tree_of catalogue.now) (lent_of catalogue.now) (rooms_at out_levels.now out_labels.now scratch.now) }
{
    let nodes = questions::nodes(catalogue)?;
    if scratch.len() < 2 * nodes + 2 {
        return Err(Refusal::Room(5));
    }
    if out_levels.len() < nodes {
        return Err(Refusal::Room(10));
    }
    if out_labels.len() < nodes {
        return Err(Refusal::Room(11));
    }
    Ok(())
}

// The nodes in order from the root on, into lists of zeros.
fn walk_all(
    catalogue: &Catalogue<'_>,
    out_levels: &mut [u32],
    out_labels: &mut [u32],
    scratch: &mut [u64],
) -> Result<usize, Refusal>
    requires { Roomy catalogue.now.counts.nodes out_levels.old out_labels.old scratch.old }
    ensures { ended (said_number result) out_levels.new out_labels.new scratch.new ≡ walked_by (rooms_at out_levels.new out_labels.new scratch.new) (walk_by (tree_of catalogue.now) (lent_of catalogue.now) catalogue.now.counts.nodes (child.root ∷ [])) }
{
    let nodes = catalogue.counts.nodes;
    way::put_node(scratch, 0, questions::root());
    let mut on: usize = 1;
    let mut told: usize = 0;
    // Each step is asked from where the last one led, so no `for`.
    while let Some(Step { under, edge }) = onward::onward(catalogue, scratch, on)? {
        // "A root's child has level 0".
        let Ok(level) = u32::try_from(under.saturating_sub(1)) else {
            return Err(Refusal::Broken);
        };
        if told == nodes {
            return Err(Refusal::Broken);
        }
        out_levels[told] = level;
        out_labels[told] = edge.label;
        way::put_node(scratch, under, edge.node);
        on = under + 1;
        told += 1;
    }
    Ok(told)
}

// The walk, if nothing is refused before it.
fn walk_checked(
    catalogue: &Catalogue<'_>,
    out_levels: &mut [u32],
    out_labels: &mut [u32],
    scratch: &mut [u64],
) -> Result<usize, Refusal>
    requires { Zeros out_levels.old out_labels.old }
    ensures { ended (said_number result) out_levels.new out_labels.new scratch.new ≡ walking (tree_of catalogue.now) (lent_of catalogue.now) (rooms_at out_levels.old out_labels.old scratch.old) }
{
    check(catalogue, out_levels, out_labels, scratch)?;
    walk_all(catalogue, out_levels, out_labels, scratch)
}

// Zeros in the two lists.
fn clear(out_levels: &mut [u32], out_labels: &mut [u32])
    ensures { Cleared out_levels.old out_labels.old out_levels.new out_labels.new }
{
    out_levels.fill(0);
    out_labels.fill(0);
}

// The walk: levels and labels in order into the two lists, zeros behind them; refused, the lists are zeros. Scratch is zero after it.
pub fn walk(
    catalogue: &Catalogue<'_>,
    out_levels: &mut [u32],
    out_labels: &mut [u32],
    scratch: &mut [u64],
) -> Result<usize, Refusal>
    ensures { walked (said_number result) out_levels.new out_labels.new scratch.new ≡ walking (tree_of catalogue.now) (lent_of catalogue.now) (rooms_at out_levels.old out_labels.old scratch.old) }
{
    clear(out_levels, out_labels);
    let met = walk_checked(catalogue, out_levels, out_labels, scratch);
    scratch.fill(0);
    if met.is_err() {
        clear(out_levels, out_labels);
    }
    met
}
