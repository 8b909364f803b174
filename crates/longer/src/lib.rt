// Growth's string: the list longer by one node, made in scratch from the bit string alone.
#![tactic(auto)]

ghost use Rattle.std.specs.Prelude.{◌≡◌, true, ◌-◌, ◌≤◌, length, set};
ghost use Rattle.std.proofs.Math.Seq.{paste};
ghost use Rattle.meaning.specs.Bits.{bits_of, pack};
ghost use Rattle.meaning.specs.Growth.{sound_in};
ghost use Rattle.refusal.specs.Said.{refused_of};
ghost use Rattle.pioneers.specs.Placed.{placing};
ghost use Rattle.longer.specs.Longer.{longer_in, LastOne, Copying, Turning};

use pioneers::compact::trim;
use pioneers::root::one_root;
use refusal::Refusal;
use words::{bit_at, store, word_count};

// "BROKEN if it is past area 0, not balanced under one root or its count disagrees".
#[tactic(auto, unfolding(meaning::specs::Growth::sound_in))]
fn sound(words: &[u64], nodes: usize, bits: usize) -> bool
    ensures { result ≡ sound_in words.now nodes bits }
{
    word_count(bits) <= words.len()
        && bits >= 2
        && bits % 2 == 0
        && bits / 2 - 1 == nodes
        && one_root(words, bits)
}

// The place of the last one before place m; 0 if there is none, as `LastOne` has it: a sound string has a one there.
fn last_one(words: &[u64], m: usize) -> usize
    ensures { LastOne words.now m result }
{
    for i in (0..m).rev() {
        if bit_at(words, i) {
            return i;
        }
    }
    0
}

// The first `count` words to the front of the part.
fn copy_words(words: &[u64], part: &mut [u64], count: usize)
    requires { (count ≤ length words.now) × (count ≤ length part.old) }
    ensures { part.new ≡ paste part.old 0 words.now count }
{
    // Not `copy_from_slice`: it would have the archive for C ask for `memmove`.
    for (i, word) in part[..count].iter_mut().enumerate() {
        *word = words[i];
    }
}

// The first m bits of the words, and zeros behind them.
fn copy_bits(words: &[u64], part: &mut [u64], m: usize)
    requires { Copying words.now part.old m }
    ensures { part.new ≡ pack (length part.old) (bits_of words.now m) }
{
    copy_words(words, part, word_count(m));
    trim(part, m);
}

// The same, with the bit turned that a new node of level v turns; the two closes it adds are zeros that stand there.
fn copy_longer(words: &[u64], part: &mut [u64], m: usize, v: usize)
    requires { Turning words.now part.old m v }
    ensures { part.new ≡ pack (length part.old) (set (bits_of words.now m) (m - 1 - v) true) }
{
    copy_bits(words, part, m);
    store(part, m - 1 - v, true);
}

// The string of the list longer by a node of the level, in scratch from word n + 2 on; scratch is zeros if it is refused.
pub fn place_longer(
    words: &[u64],
    nodes: usize,
    bits: usize,
    level: u32,
    scr: &mut [u64],
) -> Result<(), Refusal>
    ensures { placing (refused_of result) scr.new ≡ longer_in words.now nodes bits level (length scr.old) }
{
    scr.fill(0);
    if !sound(words, nodes, bits) {
        return Err(Refusal::Broken);
    }
    if 1048575 <= nodes {
        return Err(Refusal::Many(nodes + 1));
    }
    let p = last_one(words, bits);
    let v = level as usize;
    if bits - 2 - p < v {
        return Err(Refusal::Level(nodes));
    }
    if scr.len() < 2 * nodes + 4 {
        return Err(Refusal::Room(5));
    }
    copy_longer(words, &mut scr[nodes + 2..], bits, v);
    Ok(())
}
