// What a call returns and the four numbers of `out`, for each answer of the tree.
ghost use Rattle.std.specs.Prelude.{◌≡◌, [], ◌∷◌};
ghost use Rattle.meaning.specs.Answers as answers;
ghost use Rattle.refusal.specs.Said.{refusal_of, said_number, said_truth, said_bit, found_number};
ghost use Rattle.questions.specs.Said.{node_of, said_edge};
ghost use Rattle.record.specs.Record.{said_tree};
ghost use Rattle.flight.specs.Layout.{numbers, reply, of_number, of_truth, of_node, of_edge, of_tree};

use questions::{Edge, Node};
use record::Counts;
use refusal::Refusal;

// The number returned; then the four of `out`: 1 if a value is found, and the values or what a refusal carries.
#[derive(Clone, Copy)]
pub struct Reply {
    pub returned: usize,
    pub out: [usize; 4],
}

impl Reply {
    // A value of up to three numbers.
    fn found(first: usize, second: usize, third: usize) -> Self
        ensures { numbers result ≡ 0 ∷ 1 ∷ first ∷ second ∷ third ∷ [] }
    {
        Reply {
            returned: 0,
            out: [1, first, second, third],
        }
    }

    // Nothing is found, which is no refusal.
    fn nothing() -> Self
        ensures { numbers result ≡ 0 ∷ 0 ∷ 0 ∷ 0 ∷ 0 ∷ [] }
    {
        Reply {
            returned: 0,
            out: [0; 4],
        }
    }

    // A refusal's number, and what it carries.
    fn refused(refusal: Refusal) -> Self
        ensures { numbers result ≡ reply of_number (answers.refused (refusal_of refusal)) }
    {
        let (first, second) = refusal.carried();
        Reply {
            returned: refusal.number(),
            out: [0, first, second, 0],
        }
    }
}

pub(crate) fn of_node(node: Node) -> Reply
    ensures { numbers result ≡ reply of_node (answers.is (node_of node)) }
{
    Reply::found(node.place, node.id, 0)
}

pub(crate) fn of_edge(edge: Result<Option<Edge>, Refusal>) -> Reply
    ensures { numbers result ≡ reply of_edge (said_edge edge) }
{
    match edge {
        Ok(Some(e)) => Reply::found(e.node.place, e.node.id, e.label as usize),
        Ok(None) => Reply::nothing(),
        Err(r) => Reply::refused(r),
    }
}

pub(crate) fn of_label(label: Result<Option<u32>, Refusal>) -> Reply
    ensures { numbers result ≡ reply of_number (found_number label) }
{
    match label {
        Ok(Some(n)) => Reply::found(n as usize, 0, 0),
        Ok(None) => Reply::nothing(),
        Err(r) => Reply::refused(r),
    }
}

pub(crate) fn of_number(number: Result<usize, Refusal>) -> Reply
    ensures { numbers result ≡ reply of_number (said_number number) }
{
    match number {
        Ok(n) => Reply::found(n, 0, 0),
        Err(r) => Reply::refused(r),
    }
}

// 1 for yes, 0 for no.
pub(crate) fn of_truth(truth: Result<bool, Refusal>) -> Reply
    ensures { numbers result ≡ reply of_truth (said_truth truth) }
{
    match truth {
        Ok(b) => Reply::found(usize::from(b), 0, 0),
        Err(r) => Reply::refused(r),
    }
}

// 1 for an open, 0 for a close.
pub(crate) fn of_bit(bit: Result<bool, Refusal>) -> Reply
    ensures { numbers result ≡ reply of_number (said_bit bit) }
{
    match bit {
        Ok(b) => Reply::found(usize::from(b), 0, 0),
        Err(r) => Reply::refused(r),
    }
}

// What build and growth say: the nodes, or the refusal.
pub(crate) fn of_built(built: Result<Counts, Refusal>) -> Reply
    ensures { numbers result ≡ reply of_tree (said_tree built) }
{
    match built {
        Ok(counts) => Reply::found(counts.nodes, 0, 0),
        Err(r) => Reply::refused(r),
    }
}
