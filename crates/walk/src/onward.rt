// One step of the walk: "the first child if there is one, else the next sibling of the nearest node on the way back that has one".
ghost use Rattle.std.specs.Prelude.{◌≡◌, ◌*◌, ◌≤◌, length};
ghost use Rattle.meaning.specs.Walking.{back_by, onward_by};
ghost use Rattle.record.specs.Record.{tree_of, lent_of};
ghost use Rattle.walk.specs.Kept.{way_in, step_in};

use crate::way;
use questions::Edge;
use record::Catalogue;
use refusal::Refusal;

// An edge to a node under so many nodes of the way back.
#[derive(Clone, Copy)]
pub(crate) struct Step {
    pub under: usize,
    pub edge: Edge,
}

// "else the next sibling of the nearest node on the way back that has one", of n nodes.
fn back(catalogue: &Catalogue<'_>, scratch: &[u64], n: usize) -> Result<Option<Step>, Refusal>
    requires { 2 * n ≤ length scratch.now }
    ensures { step_in scratch.now result ≡ back_by (tree_of catalogue.now) (lent_of catalogue.now) (way_in scratch.now n) }
{
    for d in (0..n).rev() {
        let node = way::node_at(scratch, d);
        if let Some(edge) = questions::next_sibling(catalogue, node)? {
            return Ok(Some(Step {
                under: d,
                edge: edge,
            }));
        }
    }
    Ok(None)
}

// The step from a path of n nodes.
pub(crate) fn onward(
    catalogue: &Catalogue<'_>,
    scratch: &[u64],
    n: usize,
) -> Result<Option<Step>, Refusal>
    requires { 2 * n ≤ length scratch.now }
    ensures { step_in scratch.now result ≡ onward_by (tree_of catalogue.now) (lent_of catalogue.now) (way_in scratch.now n) }
{
    if n == 0 {
        return Ok(None);
    }
    let node = way::node_at(scratch, n - 1);
    if let Some(edge) = questions::first_child(catalogue, node)? {
        return Ok(Some(Step {
            under: n,
            edge: edge,
        }));
    }
    back(catalogue, scratch, n)
}
