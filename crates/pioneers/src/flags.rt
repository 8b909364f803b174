// The flags of a string. Scratch holds the stack of open places, then from word `text` on the string, then from word `flags` on its flags.
ghost use Rattle.std.specs.Prelude.{◌≡◌, false, ◌+◌, ◌*◌, ◌<◌, length};
ghost use Rattle.meaning.specs.Bits.{bit_at};
ghost use Rattle.meaning.specs.Pioneers.{flags};
ghost use Rattle.pioneers.specs.Scratch.{fits_in, text_of, with_flags, marking, mark_in, Bare};
ghost use Rattle.pioneers.specs.Turn.{scan_of, apart_of, marked, settled, turned, open_turn, pair_turn, turn_of, Turns, Near};

use crate::root::one_root;
use words::{bit_at, enough, store};

// Where the parts start, and the bits of the string. It goes beside scratch, not into one struct with it: one that holds a `&mut` is no plainer.
#[derive(Clone, Copy, PartialEq, Eq, Debug)]
pub struct Layout {
    pub text: usize,
    pub flags: usize,
    pub bits: usize,
}

// The stack's height, and the last far pair that closed: no pair closes at 0, which says that there is none,
// so no Option: `scan_of` and `apart_of` read it so. The stack itself is in scratch, since memory is fixed.
#[derive(Clone, Copy, PartialEq, Eq, Debug)]
pub struct Scan {
    pub depth: usize,
    pub fore: usize,
    pub aft: usize,
}

impl Scan {
    // A far pair is pending, and (p, i) has not both blocks in common with it.
    #[tactic(auto, unfolding(crate::specs::Turn::apart_of))]
    fn apart(self, p: usize, i: usize) -> bool
        ensures { result ≡ apart_of self p i }
    {
        self.aft != 0 && (self.fore / 64 != p / 64 || self.aft / 64 != i / 64)
    }

    // The pending pair is flagged at both ends.
    #[tactic(auto, unfolding(crate::specs::Turn::marked))]
    fn mark_pair(self, scr: &mut [u64], at: usize)
        requires { Near at self }
        ensures { scr.new ≡ marked scr.old at self }
    {
        store(scr, at + self.fore, true);
        store(scr, at + self.aft, true);
    }

    // The last pending pair, if there is one.
    #[tactic(auto, unfolding(crate::specs::Turn::settled))]
    fn settle(self, scr: &mut [u64], at: usize)
        requires { Near at self }
        ensures { scr.new ≡ settled scr.old at self }
    {
        if self.aft != 0 {
            self.mark_pair(scr, at);
        }
    }
}

// An open at i.
#[tactic(auto, unfolding(crate::specs::Turn::open_turn))]
fn open_turn(scr: &mut [u64], i: usize, s: Scan) -> Scan
    requires { s.depth < length scr.old }
    ensures { turned result scr.new ≡ open_turn scr.old i s }
{
    scr[s.depth] = i as u64;
    Scan {
        depth: s.depth + 1,
        ..s
    }
}

// "the outermost is flagged": (p, i) waits, in the place of a pending pair that lies inside it.
fn outer(depth: usize, p: usize, i: usize) -> Scan
    ensures { result ≡ scan_of depth p i }
{
    Scan {
        depth,
        fore: p,
        aft: i,
    }
}

// A close at i, of the open p.
#[tactic(auto, unfolding(crate::specs::Turn::pair_turn))]
fn pair_turn(scr: &mut [u64], at: usize, p: usize, i: usize, s: Scan) -> Scan
    requires { (0 < s.depth) × Near at s }
    ensures { turned result scr.new ≡ pair_turn scr.old at p i s }
{
    let depth = s.depth - 1;
    if p / 64 == i / 64 {
        return Scan { depth, ..s };
    }
    if s.apart(p, i) {
        s.mark_pair(scr, at);
        return Scan {
            depth,
            fore: p,
            aft: i,
        };
    }
    outer(depth, p, i)
}

// The place i, by its bit.
#[tactic(auto, unfolding(crate::specs::Turn::turn_of))]
fn turn(scr: &mut [u64], lay: Layout, i: usize, s: Scan) -> Scan
    requires { Turns scr.old lay i s }
    ensures { turned result scr.new ≡ turn_of scr.old (64 * lay.flags) (bit_at scr.old (64 * lay.text + i)) i s }
{
    if bit_at(scr, 64 * lay.text + i) {
        return open_turn(scr, i, s);
    }
    let p = scr[s.depth - 1] as usize;
    pair_turn(scr, 64 * lay.flags, p, i, s)
}

// The pass over a string balanced under one root, into flags that are zero; then the stack is made zero.
fn flag_all(scr: &mut [u64], lay: Layout)
    requires { Bare scr.old lay }
    ensures { scr.new ≡ with_flags scr.old lay (flags (text_of scr.old lay)) }
{
    let mut s = Scan {
        depth: 0,
        fore: 0,
        aft: 0,
    };
    for i in 0..lay.bits {
        s = turn(scr, lay, i, s);
    }
    s.settle(scr, 64 * lay.flags);
    scr[..lay.text].fill(0);
}

// Whether the parts fit `len` words: the stack takes half the bits, and each of the two others the bits.
#[tactic(auto, unfolding(crate::specs::Scratch::fits_in))]
pub fn fits(lay: Layout, len: usize) -> bool
    ensures { result ≡ fits_in lay len }
{
    lay.text <= lay.flags
        && lay.flags <= len
        && lay.flags <= 33554432
        && lay.bits <= 2 * lay.text
        && lay.bits <= 64 * (lay.flags - lay.text)
        && enough(len - lay.flags, lay.bits)
}

// The flags of the string that scratch holds. Answers whether the parts fit and the string is balanced under one root; if not, scratch is zero.
pub fn mark(scr: &mut [u64], lay: Layout) -> bool
    ensures { marking result scr.new ≡ mark_in scr.old lay }
{
    if fits(lay, scr.len()) && one_root(&scr[lay.text..], lay.bits) {
        scr[lay.flags..].fill(0);
        flag_all(scr, lay);
        return true;
    }
    scr.fill(0);
    false
}
