// A dictionary built by itself: areas 1 to 3, with the record's counts of the first dictionary.
use asking::Answer;
use sparse_one_nnd::SparseOneNnd;
use standing::Tree;

// `dict build`: the dictionary of the bit string's ones. Refused, its counts are zeros.
pub fn build_dict(tree: &mut Tree) -> Answer {
    let built = SparseOneNnd::build(
        tree.words.as_slice(),
        tree.counts.bits[0],
        tree.bytes.as_mut_slice(),
        tree.middles.as_mut_slice(),
        tree.larges.as_mut_slice(),
    );
    let dict = built.unwrap_or(SparseOneNnd::empty());
    tree.counts.bytes[0] = dict.bytes;
    tree.counts.middles[0] = dict.middles;
    tree.counts.larges[0] = dict.larges;
    built
        .map(|d| Answer::Triple(d.bytes, d.middles, d.larges))
        .into()
}
