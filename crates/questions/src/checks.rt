// The checks of a node, and its close.
ghost use Rattle.std.specs.Prelude.{◌≡◌};
ghost use Rattle.meaning.specs.Questions.{node_refusal};
ghost use Rattle.record.specs.Record.{tree_of, lent_of};
ghost use Rattle.refusal.specs.Said.{refused_of, said_number};
ghost use Rattle.questions.specs.Closed.{closed};
ghost use Rattle.questions.specs.Said.{node_of};

use crate::Node;
use bit_string::BitString;
use ops::Fid;
use record::Catalogue;
use refusal::Refusal;

// "no such bit, or a node whose id is not the number of opens before its place" is PLACE, "the place holds a close" is CLOSE.
pub(crate) fn check(catalogue: &Catalogue<'_>, node: Node) -> Result<(), Refusal>
    ensures { refused_of result ≡ node_refusal (tree_of catalogue.now) (lent_of catalogue.now) (node_of node) }
{
    let open = closes::get(catalogue, node.place)?;
    // The opens before the place: "rank_one past the end is the total".
    let before = BitString {
        words: catalogue.words,
        len: node.place,
    };
    if node.id != before.rank_one(node.place)? {
        return Err(Refusal::Place(node.place));
    }
    if !open {
        return Err(Refusal::Close(node.place));
    }
    Ok(())
}

// The close of a node that passes the checks; a close before it is BROKEN.
pub(crate) fn close_of(catalogue: &Catalogue<'_>, node: Node) -> Result<usize, Refusal>
    ensures { said_number result ≡ closed (tree_of catalogue.now) (lent_of catalogue.now) (node_of node) }
{
    check(catalogue, node)?;
    let close = closes::get_close(catalogue, node.place)?;
    if close < node.place {
        return Err(Refusal::Broken);
    }
    Ok(close)
}
