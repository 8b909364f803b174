// The last column of the listing: the next sibling of each node, asked of the tree.
ghost use Rattle.std.specs.Prelude.{◌≡◌, ◌<◌, ◌≤◌, length};
ghost use Rattle.std.proofs.lemmas.List.Edits.{sets};
ghost use Rattle.meaning.specs.Bits.{tab};
ghost use Rattle.meaning.specs.Listing.{sibling_id};
ghost use Rattle.listwalk.specs.Standing.{Standing};

use questions::{Node, next_sibling};
use record::Catalogue;

// The next sibling's id of the node of list place k, and 0 if there is none, as `sibling_id` has it. No question about a tree that stands is refused.
fn sibling_of(levels: &[u32], catalogue: &Catalogue<'_>, k: usize) -> usize
    requires { (k < length levels.now) × Standing levels.now catalogue.now }
    ensures { result ≡ sibling_id levels.now k }
{
    let node = Node {
        place: 2 * k + 1 - levels[k] as usize,
        id: k + 1,
    };
    match next_sibling(catalogue, node) {
        Ok(Some(edge)) => edge.node.id,
        Ok(None) => 0,
        Err(_) => 0,
    }
}

// The next siblings of all nodes, at the front of out.
pub(crate) fn siblings_of(levels: &[u32], catalogue: &Catalogue<'_>, out: &mut [usize])
    requires { (length levels.now ≤ length out.old) × Standing levels.now catalogue.now }
    ensures { out.new ≡ sets out.old 0 (tab (sibling_id levels.now) 0 (length levels.now)) }
{
    for k in 0..levels.len() {
        out[k] = sibling_of(levels, catalogue, k);
    }
}
