// The record of counts as 18 numbers, and the four numbers of an answer in `out`.
ghost use Rattle.std.specs.Prelude.{◌≡◌, ◌+◌, ◌≤◌, ◌<◌, length, get_or};
ghost use Rattle.std.proofs.lemmas.List.Edits.{sets};
ghost use Rattle.record.specs.Record.{tree_in};
ghost use Rattle.flight.specs.Layout as layout;
ghost use Rattle.flight.specs.Layout.{tree_at, numbers_of, four_at, four};
ghost use Rattle.flight.specs.Calls.{call, replied};

use crate::reply::Reply;
use record::Counts;

// What C is told; no other call answers it (include/oscjardum.h).
pub const SHORT: usize = 15;

// A record of fewer than 18 numbers, or an `out` of fewer than four.
#[tactic(auto, unfolding(crate::specs::Layout::short))]
pub(crate) fn short(counts: usize, out: usize) -> bool
    ensures { result ≡ layout.short counts out }
{
    counts < 18 || out < 4
}

// Number i, and zero where there is none.
fn number(counts: &[usize], i: usize) -> usize
    ensures { result ≡ get_or counts.now i 0 }
{
    counts.get(i).copied().unwrap_or(0)
}

// Four numbers from a place on.
fn four_at(counts: &[usize], at: usize) -> [usize; 4]
    requires { at < 18 }
    ensures { result ≡ four_at counts.now at }
{
    [
        number(counts, at),
        number(counts, at + 1),
        number(counts, at + 2),
        number(counts, at + 3),
    ]
}

// The record that the numbers say.
pub(crate) fn counts_of(counts: &[usize]) -> Counts
    ensures { tree_in result ≡ tree_at counts.now }
{
    let [b1, b2, b3, b4] = four_at(counts, 2);
    Counts {
        nodes: number(counts, 0),
        bits: [number(counts, 1), b1, b2, b3, b4],
        bytes: four_at(counts, 6),
        middles: four_at(counts, 10),
        larges: four_at(counts, 14),
    }
}

// Four numbers put from a place on.
fn put_four(s: &mut [usize], at: usize, a: [usize; 4])
    requires { at + 4 ≤ length s.old }
    ensures { s.new ≡ sets s.old at (four a) }
{
    s[at..at + 4].copy_from_slice(&a);
}

// The numbers that say a record.
pub(crate) fn put_counts(counts: &mut [usize], c: Counts)
    requires { 18 ≤ length counts.old }
    ensures { counts.new ≡ sets counts.old 0 (numbers_of (tree_in c)) }
{
    let [b0, b1, b2, b3, b4] = c.bits;
    counts[0] = c.nodes;
    counts[1] = b0;
    put_four(counts, 2, [b1, b2, b3, b4]);
    put_four(counts, 6, c.bytes);
    put_four(counts, 10, c.middles);
    put_four(counts, 14, c.larges);
}

// A reply into `out`.
pub(crate) fn tell(out: &mut [usize], r: Reply) -> usize
    requires { 4 ≤ length out.old }
    ensures { call result out.new ≡ replied r out.old }
{
    put_four(out, 0, r.out);
    r.returned
}
