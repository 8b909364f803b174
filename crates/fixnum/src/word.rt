// The words of the two widths, and what of a word depends on its width: the rest is done on a word of 64 bits that holds it.
ghost use Rattle.std.specs.Prelude.{◌≡◌, ℕ, ◌-◌, ◌%◌, ◌^◌, ◌<◌, ◌≤◌, true};
ghost use Rattle.meaning.specs.Word.{word_ones, word_select};
ghost use Rattle.refusal.specs.Said.{only_found};
ghost use Rattle.std.proofs.Common.{rules};

use super::count::{levels8, levels64};

pub trait Word: Copy {
    // How many bits it has.
    ghost BITWIDTH: { ℕ };

    const BITWIDTH: usize;

    // The number that they write.
    ghost value: { Self → ℕ };

    fn wide(self) -> u64
        ensures same { result ≡ value self }
        ensures fits { value self < 2 ^ BITWIDTH };

    // The low bits of x.
    fn narrow(x: u64) -> Self
        ensures { value result ≡ x % 2 ^ BITWIDTH };

    // Each bit the other way.
    fn complement(self) -> Self
        ensures bits { value result ≡ 2 ^ BITWIDTH - 1 - value self }
        ensures fits { value self < 2 ^ BITWIDTH };

    fn pop_count(self) -> usize
        ensures { result ≡ word_ones BITWIDTH (value self) };

    fn select_one(self, rank: usize) -> Option<usize>
        ensures { only_found result ≡ word_select true BITWIDTH (value self) rank };

    ghost some: { 1 ≤ BITWIDTH };

    ghost few: { BITWIDTH ≤ 64 };

    ghost told: { (x y : Self) → value x ≡ value y → x ≡ y };
}

impl Word for u8 {
    ghost BITWIDTH = { 8 };

    const BITWIDTH: usize = 8;

    ghost value = { λ x. x };

    ghost some = { Prim.search rules };

    ghost few = { Prim.search rules };

    ghost told = { λ x y e. e };

    fn wide(self) -> u64 {
        u64::from(self)
    }

    fn narrow(x: u64) -> u8 {
        (x % 256) as u8
    }

    fn complement(self) -> u8 {
        !self
    }

    #[tactic(auto, using(crate::proofs::Descent::all_ones))]
    fn pop_count(self) -> usize {
        levels8(self).ones
    }

    fn select_one(self, rank: usize) -> Option<usize> {
        levels8(self).select(rank)
    }
}

impl Word for u64 {
    ghost BITWIDTH = { 64 };

    const BITWIDTH: usize = 64;

    ghost value = { λ x. x };

    ghost some = { Prim.search rules };

    ghost few = { Prim.search rules };

    ghost told = { λ x y e. e };

    fn wide(self) -> u64 {
        self
    }

    fn narrow(x: u64) -> u64 {
        x
    }

    fn complement(self) -> u64 {
        !self
    }

    #[tactic(auto, using(crate::proofs::Descent::all_ones))]
    fn pop_count(self) -> usize {
        levels64(self).ones
    }

    fn select_one(self, rank: usize) -> Option<usize> {
        levels64(self).select(rank)
    }
}
