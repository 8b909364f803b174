// The questions: each puts the record of counts together, asks the tree, and tells the answer. The areas come one by one: the C interface (include/oscjardum.h).
// The catalogue is put together in each: a helper would take the same six.
ghost use Rattle.std.specs.Prelude.{◌≡◌, [], ◌∷◌, length};
ghost use Rattle.meaning.specs.Answers.{is};
ghost use Rattle.meaning.specs.Child as child;
ghost use Rattle.meaning.specs.Questions.{lent_at, first_child, next_sibling, leaves_below, label_in, nodes_in, is_empty_in, bytes_held, close_in, bit_in};
ghost use Rattle.flight.specs.Layout.{tree_at, of_number, of_truth, of_node, of_edge};
ghost use Rattle.flight.specs.Calls.{call, asked, answering};

use crate::layout::{SHORT, counts_of, short, tell};
use crate::reply;
use crate::reply::Reply;
use questions::Node;
use record::Catalogue;

// A reply into `out`, by a record of so many numbers.
fn answer(counts: usize, out: &mut [usize], r: Reply) -> usize
    ensures { call result out.new ≡ answering r counts out.old }
{
    if short(counts, out.len()) {
        return SHORT;
    }
    tell(out, r)
}

#[unsafe(no_mangle)]
pub extern "C" fn oscjardum_root(out: &mut [usize]) -> usize
    ensures { call result out.new ≡ asked of_node (is child.root) 18 out.old }
{
    answer(18, out, reply::of_node(questions::root()))
}

// The first child of a node: place, id and label.
#[unsafe(no_mangle)]
pub extern "C" fn oscjardum_first_child(
    words: &[u64],
    bytes: &[u8],
    middles: &[u16],
    larges: &[u64],
    labels: &[u32],
    counts: &[usize],
    place: usize,
    id: usize,
    out: &mut [usize],
) -> usize
    ensures { call result out.new ≡ asked of_edge (first_child (tree_at counts.now) (lent_at words.now bytes.now middles.now larges.now labels.now) (record { place = place; id = id })) (length counts.now) out.old }
{
    let catalogue = Catalogue {
        words,
        bytes,
        middles,
        larges,
        labels,
        counts: counts_of(counts),
    };
    let said = questions::first_child(&catalogue, Node { place, id });
    answer(counts.len(), out, reply::of_edge(said))
}

// Its next sibling: place, id and label.
#[unsafe(no_mangle)]
pub extern "C" fn oscjardum_next_sibling(
    words: &[u64],
    bytes: &[u8],
    middles: &[u16],
    larges: &[u64],
    labels: &[u32],
    counts: &[usize],
    place: usize,
    id: usize,
    out: &mut [usize],
) -> usize
    ensures { call result out.new ≡ asked of_edge (next_sibling (tree_at counts.now) (lent_at words.now bytes.now middles.now larges.now labels.now) (record { place = place; id = id })) (length counts.now) out.old }
{
    let catalogue = Catalogue {
        words,
        bytes,
        middles,
        larges,
        labels,
        counts: counts_of(counts),
    };
    let said = questions::next_sibling(&catalogue, Node { place, id });
    answer(counts.len(), out, reply::of_edge(said))
}

// Its label.
#[unsafe(no_mangle)]
pub extern "C" fn oscjardum_label(
    words: &[u64],
    bytes: &[u8],
    middles: &[u16],
    larges: &[u64],
    labels: &[u32],
    counts: &[usize],
    place: usize,
    id: usize,
    out: &mut [usize],
) -> usize
    ensures { call result out.new ≡ asked of_number (label_in (tree_at counts.now) (lent_at words.now bytes.now middles.now larges.now labels.now) (record { place = place; id = id })) (length counts.now) out.old }
{
    let catalogue = Catalogue {
        words,
        bytes,
        middles,
        larges,
        labels,
        counts: counts_of(counts),
    };
    let said = questions::label(&catalogue, Node { place, id });
    answer(counts.len(), out, reply::of_label(said))
}

// The leaves below it.
#[unsafe(no_mangle)]
pub extern "C" fn oscjardum_leaf_count(
    words: &[u64],
    bytes: &[u8],
    middles: &[u16],
    larges: &[u64],
    labels: &[u32],
    counts: &[usize],
    place: usize,
    id: usize,
    out: &mut [usize],
) -> usize
    ensures { call result out.new ≡ asked of_number (leaves_below (tree_at counts.now) (lent_at words.now bytes.now middles.now larges.now labels.now) (record { place = place; id = id })) (length counts.now) out.old }
{
    let catalogue = Catalogue {
        words,
        bytes,
        middles,
        larges,
        labels,
        counts: counts_of(counts),
    };
    let said = questions::leaf_count(&catalogue, Node { place, id });
    answer(counts.len(), out, reply::of_number(said))
}

// The byte size.
#[unsafe(no_mangle)]
pub extern "C" fn oscjardum_byte_size(
    words: &[u64],
    bytes: &[u8],
    middles: &[u16],
    larges: &[u64],
    labels: &[u32],
    counts: &[usize],
    out: &mut [usize],
) -> usize
    ensures { call result out.new ≡ asked of_number (bytes_held (tree_at counts.now) (lent_at words.now bytes.now middles.now larges.now labels.now)) (length counts.now) out.old }
{
    let catalogue = Catalogue {
        words,
        bytes,
        middles,
        larges,
        labels,
        counts: counts_of(counts),
    };
    let said = questions::byte_size(&catalogue);
    answer(counts.len(), out, reply::of_number(said))
}

// The number of nodes.
#[unsafe(no_mangle)]
pub extern "C" fn oscjardum_nodes(
    words: &[u64],
    bytes: &[u8],
    middles: &[u16],
    larges: &[u64],
    labels: &[u32],
    counts: &[usize],
    out: &mut [usize],
) -> usize
    ensures { call result out.new ≡ asked of_number (nodes_in (tree_at counts.now) (lent_at words.now bytes.now middles.now larges.now labels.now)) (length counts.now) out.old }
{
    let catalogue = Catalogue {
        words,
        bytes,
        middles,
        larges,
        labels,
        counts: counts_of(counts),
    };
    let said = questions::nodes(&catalogue);
    answer(counts.len(), out, reply::of_number(said))
}

// Whether there is none.
#[unsafe(no_mangle)]
pub extern "C" fn oscjardum_is_empty(
    words: &[u64],
    bytes: &[u8],
    middles: &[u16],
    larges: &[u64],
    labels: &[u32],
    counts: &[usize],
    out: &mut [usize],
) -> usize
    ensures { call result out.new ≡ asked of_truth (is_empty_in (tree_at counts.now) (lent_at words.now bytes.now middles.now larges.now labels.now)) (length counts.now) out.old }
{
    let catalogue = Catalogue {
        words,
        bytes,
        middles,
        larges,
        labels,
        counts: counts_of(counts),
    };
    let said = questions::is_empty(&catalogue);
    answer(counts.len(), out, reply::of_truth(said))
}

// The close of the open at a place.
#[unsafe(no_mangle)]
pub extern "C" fn oscjardum_close(
    words: &[u64],
    bytes: &[u8],
    middles: &[u16],
    larges: &[u64],
    labels: &[u32],
    counts: &[usize],
    place: usize,
    out: &mut [usize],
) -> usize
    ensures { call result out.new ≡ asked of_number (close_in (tree_at counts.now) (lent_at words.now bytes.now middles.now larges.now labels.now) place) (length counts.now) out.old }
{
    let catalogue = Catalogue {
        words,
        bytes,
        middles,
        larges,
        labels,
        counts: counts_of(counts),
    };
    let said = closes::get_close(&catalogue, place);
    answer(counts.len(), out, reply::of_number(said))
}

// The bit at a place.
#[unsafe(no_mangle)]
pub extern "C" fn oscjardum_bit(
    words: &[u64],
    bytes: &[u8],
    middles: &[u16],
    larges: &[u64],
    labels: &[u32],
    counts: &[usize],
    place: usize,
    out: &mut [usize],
) -> usize
    ensures { call result out.new ≡ asked of_number (bit_in (tree_at counts.now) (lent_at words.now bytes.now middles.now larges.now labels.now) place) (length counts.now) out.old }
{
    let catalogue = Catalogue {
        words,
        bytes,
        middles,
        larges,
        labels,
        counts: counts_of(counts),
    };
    let said = closes::get(&catalogue, place);
    answer(counts.len(), out, reply::of_bit(said))
}
