// An edge: the open right after a place, and the label of the node there.
ghost use Rattle.std.specs.Prelude.{◌≡◌, false, suc, ◌+◌, ◌^◌, ◌<◌, ltb, get_or, OnOk};
ghost use Rattle.std.proofs.Math.Option.{some};
ghost use Rattle.meaning.specs.Answers.{is, broken, provided};
ghost use Rattle.meaning.specs.Bits.{bits_of};
ghost use Rattle.meaning.specs.Close.{test};
ghost use Rattle.meaning.specs.Questions.{labelled};
ghost use Rattle.record.specs.Record.{tree_of, lent_of};
ghost use Rattle.refusal.specs.Said.{option_of, said_number};
ghost use Rattle.questions.specs.Said.{said_edge};

use crate::{Edge, Node};
use closes::level::Bits;
use record::Catalogue;
use refusal::Refusal;

// The place after i, if it is an open before the length.
pub(crate) fn open_after(catalogue: &Catalogue<'_>, i: usize) -> Option<usize>
    ensures { option_of result ≡ test (get_or (bits_of catalogue.now.words.now (get_or catalogue.now.counts.bits 0 0)) (i + 1) false) (some (i + 1)) }
{
    let string = Bits {
        words: catalogue.words,
        len: catalogue.counts.bits[0],
    };
    if i < string.len && string.open_at(i + 1) {
        return Some(i + 1);
    }
    None
}

// Label k, of the node of id k + 1, if the record counts so many nodes.
pub(crate) fn label_at(catalogue: &Catalogue<'_>, k: usize) -> Result<u32, Refusal>
    ensures label { said_number result ≡ provided (ltb k catalogue.now.counts.nodes) broken (is (get_or catalogue.now.labels.now k 0)) }
    ensures next { OnOk result (k + 1 < 2 ^ 64) }
{
    if catalogue.counts.nodes <= k {
        return Err(Refusal::Broken);
    }
    Ok(catalogue.labels.get(k).copied().unwrap_or(0))
}

// The edge to the node of id k + 1: "its label is label k".
pub(crate) fn edge_to(
    catalogue: &Catalogue<'_>,
    place: usize,
    k: usize,
) -> Result<Option<Edge>, Refusal>
    ensures { said_edge result ≡ labelled (tree_of catalogue.now) (lent_of catalogue.now) (some (record { place = place; id = suc k })) }
{
    let label = label_at(catalogue, k)?;
    let node = Node {
        place: place,
        id: k + 1,
    };
    Ok(Some(Edge {
        node: node,
        label: label,
    }))
}
