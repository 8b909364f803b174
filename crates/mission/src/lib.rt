// The demands, joined to the contracts of all the operations. The functions here only call the questions with the record that a build or growth answered: their check
// holds the contracts of these against the definitions of specs/Allowed.antt.
#![tactic(auto)]

ghost use Rattle.record.specs.Record.{lent_of};
ghost use Rattle.mission.specs.Allowed.{GetClose, FirstChild, NextSibling, Label, LeafCount, Nodes, ByteSize, Walks};

use questions::{Edge, Node};
use record::Catalogue;
use refusal::Refusal;

fn get_close(catalogue: &Catalogue<'_>, place: usize) -> Result<usize, Refusal>
    ensures { GetClose (Ok catalogue.now.counts) (lent_of catalogue.now) place result }
{
    closes::get_close(catalogue, place)
}

fn first_child(catalogue: &Catalogue<'_>, node: Node) -> Result<Option<Edge>, Refusal>
    ensures { FirstChild (Ok catalogue.now.counts) (lent_of catalogue.now) node result }
{
    questions::first_child(catalogue, node)
}

fn next_sibling(catalogue: &Catalogue<'_>, node: Node) -> Result<Option<Edge>, Refusal>
    ensures { NextSibling (Ok catalogue.now.counts) (lent_of catalogue.now) node result }
{
    questions::next_sibling(catalogue, node)
}

fn label(catalogue: &Catalogue<'_>, node: Node) -> Result<Option<u32>, Refusal>
    ensures { Label (Ok catalogue.now.counts) (lent_of catalogue.now) node result }
{
    questions::label(catalogue, node)
}

fn leaf_count(catalogue: &Catalogue<'_>, node: Node) -> Result<usize, Refusal>
    ensures { LeafCount (Ok catalogue.now.counts) (lent_of catalogue.now) node result }
{
    questions::leaf_count(catalogue, node)
}

fn nodes(catalogue: &Catalogue<'_>) -> Result<usize, Refusal>
    ensures { Nodes (Ok catalogue.now.counts) (lent_of catalogue.now) result }
{
    questions::nodes(catalogue)
}

fn byte_size(catalogue: &Catalogue<'_>) -> Result<usize, Refusal>
    ensures { ByteSize (Ok catalogue.now.counts) (lent_of catalogue.now) result }
{
    questions::byte_size(catalogue)
}

fn walk(
    catalogue: &Catalogue<'_>,
    out_levels: &mut [u32],
    out_labels: &mut [u32],
    scratch: &mut [u64],
) -> Result<usize, Refusal>
    ensures { Walks (Ok catalogue.now.counts) (lent_of catalogue.now) out_levels.old out_labels.old scratch.old out_levels.new out_labels.new scratch.new result }
{
    walk::walk(catalogue, out_levels, out_labels, scratch)
}
