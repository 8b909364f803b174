// The listing's node lines, from the levels, the labels and the siblings' ids.
ghost use Rattle.std.specs.Prelude.{◌≡◌, ◌<◌, length};
ghost use Rattle.meaning.specs.Kin.{parent};
ghost use Rattle.meaning.specs.Listing.{node_text, nodes_text};
ghost use Rattle.listing.specs.Said.{Puts, ids_in};

use crate::writer::write_node_line;

// The parent's id of the node of list place k: looking back, the first node of a lower level; the root's id 0 if there is none.
pub fn parent_of(levels: &[u32], k: usize) -> usize
    ensures { result ≡ parent levels.now k }
{
    let Some(&v) = levels.get(k) else {
        return 0;
    };
    for j in (0..k).rev() {
        if levels[j] < v {
            return j + 1;
        }
    }
    0
}

// The line of the node of list place k. What a slice does not have is 0.
#[tactic(auto, unfolding(meaning::specs::Listing::node_text))]
fn write_node(
    out: &mut [u8],
    at: usize,
    levels: &[u32],
    labels: &[u32],
    siblings: &[usize],
    k: usize,
) -> Option<usize>
    requires { k < length levels.now }
    ensures { Puts out.old at (node_text levels.now labels.now (ids_in siblings.now) k) result out.new }
{
    let level = levels[k] as usize;
    let label = labels.get(k).copied().unwrap_or(0) as usize;
    let parent = parent_of(levels, k);
    let sibling = siblings.get(k).copied().unwrap_or(0);
    write_node_line(out, at, k + 1, level, label, parent, sibling)
}

// One line a node in id order.
pub fn write_nodes(
    out: &mut [u8],
    at: usize,
    levels: &[u32],
    labels: &[u32],
    siblings: &[usize],
) -> Option<usize>
    ensures { Puts out.old at (nodes_text levels.now labels.now (ids_in siblings.now) (length levels.now)) result out.new }
{
    if out.len() < at {
        return None;
    }
    let mut next = at;
    for k in 0..levels.len() {
        next = write_node(out, next, levels, labels, siblings, k)?;
    }
    Some(next)
}
