// The way back to the root, in scratch: the node at depth d is its place at 2 d and its id at 2 d + 1; the root has depth 0.
// Scratch is lent, since memory is fixed.
ghost use Rattle.std.specs.Prelude.{◌≡◌, ◌+◌, ◌*◌, ◌<◌, length};
ghost use Rattle.questions.specs.Said.{node_of};
ghost use Rattle.walk.specs.Kept.{node_in, put_in};

use questions::Node;

// The node at a depth.
pub(crate) fn node_at(scratch: &[u64], d: usize) -> Node
    requires { 2 * d + 1 < length scratch.now }
    ensures { node_of result ≡ node_in scratch.now d }
{
    Node {
        place: scratch[2 * d] as usize,
        id: scratch[2 * d + 1] as usize,
    }
}

// A node kept at a depth.
pub(crate) fn put_node(scratch: &mut [u64], d: usize, node: Node)
    requires { 2 * d + 1 < length scratch.old }
    ensures { scratch.new ≡ put_in scratch.old d (node_of node) }
{
    scratch[2 * d] = node.place as u64;
    scratch[2 * d + 1] = node.id as u64;
}
