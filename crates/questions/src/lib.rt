// The tree's questions: root, first child, next sibling, label, leaf count, nodes, byte size.
#![tactic(auto)]

ghost use Rattle.std.specs.Prelude.{◌≡◌};
ghost use Rattle.meaning.specs.Child as child;
ghost use Rattle.meaning.specs.Questions.{first_child, next_sibling, leaves_below, label_in, nodes_in, is_empty_in, bytes_held};
ghost use Rattle.record.specs.Record.{tree_of, lent_of};
ghost use Rattle.refusal.specs.Said.{said_number, said_truth, found_number};
ghost use Rattle.questions.specs.Said.{node_of, said_edge};

use closes::fit;
use record::Catalogue;
use refusal::Refusal;

mod checks;
mod leaf;
mod link;
mod size;

// A node is a place and an id.
#[derive(Clone, Copy)]
pub struct Node {
    pub place: usize,
    pub id: usize,
}

// An edge is the new node and its label.
#[derive(Clone, Copy)]
pub struct Edge {
    pub node: Node,
    pub label: u32,
}

// "the root is id 0".
pub fn root() -> Node
    ensures { node_of result ≡ child.root }
{
    Node { place: 0, id: 0 }
}

// "From place i it is at i + 1, if that is an open before the length".
pub fn first_child(catalogue: &Catalogue<'_>, node: Node) -> Result<Option<Edge>, Refusal>
    ensures { said_edge result ≡ first_child (tree_of catalogue.now) (lent_of catalogue.now) (node_of node) }
{
    checks::check(catalogue, node)?;
    let Some(place) = link::open_after(catalogue, node.place) else {
        return Ok(None);
    };
    link::edge_to(catalogue, place, node.id)
}

// "From place i with close c it is at c + 1, if that is an open before the length".
pub fn next_sibling(catalogue: &Catalogue<'_>, node: Node) -> Result<Option<Edge>, Refusal>
    ensures { said_edge result ≡ next_sibling (tree_of catalogue.now) (lent_of catalogue.now) (node_of node) }
{
    let close = checks::close_of(catalogue, node)?;
    let Some(place) = link::open_after(catalogue, close) else {
        return Ok(None);
    };
    link::edge_to(catalogue, place, node.id + (close - node.place) / 2)
}

// "its label is label k", of id k + 1; the root has none.
pub fn label(catalogue: &Catalogue<'_>, node: Node) -> Result<Option<u32>, Refusal>
    ensures { found_number result ≡ label_in (tree_of catalogue.now) (lent_of catalogue.now) (node_of node) }
{
    checks::check(catalogue, node)?;
    if node.id == 0 {
        return Ok(None);
    }
    let label = link::label_at(catalogue, node.id - 1)?;
    Ok(Some(label))
}

// "the nodes without children strictly below a node".
pub fn leaf_count(catalogue: &Catalogue<'_>, node: Node) -> Result<usize, Refusal>
    ensures { said_number result ≡ leaves_below (tree_of catalogue.now) (lent_of catalogue.now) (node_of node) }
{
    let close = checks::close_of(catalogue, node)?;
    Ok(leaf::leaves_between(catalogue, node.place, close))
}

pub fn nodes(catalogue: &Catalogue<'_>) -> Result<usize, Refusal>
    ensures { said_number result ≡ nodes_in (tree_of catalogue.now) (lent_of catalogue.now) }
{
    if !fit::counts_fit(catalogue) {
        return Err(Refusal::Broken);
    }
    Ok(catalogue.counts.nodes)
}

pub fn is_empty(catalogue: &Catalogue<'_>) -> Result<bool, Refusal>
    ensures { said_truth result ≡ is_empty_in (tree_of catalogue.now) (lent_of catalogue.now) }
{
    Ok(nodes(catalogue)? == 0)
}

// "Byte size", of all that the record counts.
pub fn byte_size(catalogue: &Catalogue<'_>) -> Result<usize, Refusal>
    ensures { said_number result ≡ bytes_held (tree_of catalogue.now) (lent_of catalogue.now) }
{
    if !fit::counts_fit(catalogue) {
        return Err(Refusal::Broken);
    }
    size::size_of(&catalogue.counts).ok_or(Refusal::Broken)
}
