// What stands from one line of `answers` to the next: the tree's areas with its record, the two lists and scratch, in fixed memory.
#![tactic(auto)]

use arrayvec::ArrayVec;
use record::{Catalogue, Counts};

pub mod give;
pub mod show;

// The most elements of each area, in their order, of all six together, and of a list.
pub const MOST_WORDS: usize = 33280;

pub const MOST_BYTES: usize = 196448;

pub const MOST_MIDDLES: usize = 4096;

pub const MOST_LARGES: usize = 1024;

pub const MOST_LABELS: usize = 32831;

pub const MOST_SCRATCH: usize = 65664;

pub const MOST_TOGETHER: usize = 196448;

pub const MOST_LISTED: usize = 32831;

// Areas 0 to 4 and the record of counts.
#[derive(Drop)]
pub struct Tree {
    pub words: ArrayVec<u64, MOST_WORDS>,
    pub bytes: ArrayVec<u8, MOST_BYTES>,
    pub middles: ArrayVec<u16, MOST_MIDDLES>,
    pub larges: ArrayVec<u64, MOST_LARGES>,
    pub labels: ArrayVec<u32, MOST_LABELS>,
    pub counts: Counts,
}

// Area 5 is scratch.
#[derive(Drop)]
pub struct Standing {
    pub tree: Tree,
    pub scratch: ArrayVec<u64, MOST_SCRATCH>,
    pub levels: ArrayVec<u32, MOST_LISTED>,
    pub labels: ArrayVec<u32, MOST_LISTED>,
}

// A record of nothing.
pub fn no_counts() -> Counts {
    Counts {
        nodes: 0,
        bits: [0; 5],
        bytes: [0; 4],
        middles: [0; 4],
        larges: [0; 4],
    }
}

// n zeros, or as many as there is room for.
pub fn zeros<T: Default + Drop, const N: usize>(area: &mut ArrayVec<T, N>, n: usize) {
    area.truncate(n);
    area.as_mut_slice().fill_with(|| T::default());
    for _ in area.len()..n {
        if area.try_push(T::default()).is_err() {
            return;
        }
    }
}

// So many elements are put behind an area at once.
const BLOCK: usize = 256;

// Blocks behind the elements of an area, as many as it lacks of n elements, or as there is room for.
fn lengthen<T: Copy + Drop, const N: usize>(area: &mut ArrayVec<T, N>, n: usize, block: &[T]) {
    for _ in 0..n.saturating_sub(area.len()) / BLOCK {
        if area.try_extend_from_slice(block).is_err() {
            return;
        }
    }
}

// `zeros` of an area that may be long: what it lacks comes in blocks of BLOCK elements, and is not pushed one by one.
fn renew_area<T: Default + Copy + Drop, const N: usize>(
    area: &mut ArrayVec<T, N>,
    n: usize,
    block: &[T],
) {
    lengthen(area, n, block);
    zeros(area, n);
}

impl Tree {
    pub fn catalogue(&self) -> Catalogue<'_> {
        Catalogue {
            words: self.words.as_slice(),
            bytes: self.bytes.as_slice(),
            middles: self.middles.as_slice(),
            larges: self.larges.as_slice(),
            labels: self.labels.as_slice(),
            counts: self.counts,
        }
    }
}

impl Standing {
    // Areas of no elements, empty lists and a record of nothing.
    pub fn new() -> Self {
        Standing {
            tree: Tree {
                words: ArrayVec::new(),
                bytes: ArrayVec::new(),
                middles: ArrayVec::new(),
                larges: ArrayVec::new(),
                labels: ArrayVec::new(),
                counts: no_counts(),
            },
            scratch: ArrayVec::new(),
            levels: ArrayVec::new(),
            labels: ArrayVec::new(),
        }
    }

    // Areas of these lengths, all zeros, empty lists and a record of nothing.
    fn renew(&mut self, sizes: [usize; 6]) {
        let [words, bytes, middles, larges, labels, scratch] = sizes;
        renew_area(&mut self.tree.words, words, &[0; BLOCK]);
        renew_area(&mut self.tree.bytes, bytes, &[0; BLOCK]);
        renew_area(&mut self.tree.middles, middles, &[0; BLOCK]);
        renew_area(&mut self.tree.larges, larges, &[0; BLOCK]);
        renew_area(&mut self.tree.labels, labels, &[0; BLOCK]);
        renew_area(&mut self.scratch, scratch, &[0; BLOCK]);
        self.tree.counts = no_counts();
        self.levels.clear();
        self.labels.clear();
    }
}
