// The string of a level list, in scratch.
ghost use Rattle.std.specs.Prelude.{◌≡◌, true, ◌+◌, ◌-◌, ◌*◌, ◌<◌, ◌≤◌, length, is_some, unwrap_or};
ghost use Rattle.meaning.specs.Bits.{pack, stored};
ghost use Rattle.meaning.specs.String.{string};
ghost use Rattle.meaning.specs.List.{offending};
ghost use Rattle.refusal.specs.Said.{refused_of};
ghost use Rattle.pioneers.specs.Placed.{rule_of, placing, place_in, Ready, Opened};
ghost use Rattle.pioneers.specs.Node.{node_of, once_of, wrote_of, Allows};

use refusal::Refusal;
use words::store;

// LEVEL at the first place that breaks the list rule.
pub fn check_levels(levels: &[u32]) -> Result<(), Refusal>
    ensures { result ≡ rule_of (offending levels.now) }
{
    let mut most = 0;
    for (i, v) in levels.iter().enumerate() {
        let v = *v as usize;
        if most < v {
            return Err(Refusal::Level(i));
        }
        most = v + 1;
    }
    Ok(())
}

// The nodes taken, the bits so far, and the previous level: as the Rust counts it, the open nodes below the root.
#[derive(Clone, Copy, PartialEq, Eq, Debug)]
pub struct Builder {
    pub nodes: usize,
    pub bits: usize,
    pub prev: usize,
}

// One node: prev - v nodes close, whose zeros stand there already, and it opens.
fn put_node(words: &mut [u64], s: Builder, v: usize) -> Builder
    requires { (v ≤ s.prev) × (s.bits + s.prev < 4294967296) × (s.nodes < 4294967296) }
    ensures value { result ≡ node_of s v }
    ensures words_after { words.new ≡ stored words.old (s.bits + (s.prev - v)) true }
{
    let at = s.bits + (s.prev - v);
    store(words, at, true);
    Builder {
        nodes: s.nodes + 1,
        bits: at + 1,
        prev: v + 1,
    }
}

// The builder after the next node of the list, if it has one: the step by value.
fn next_node(levels: &[u32], words: &mut [u64], s: Builder) -> Option<Builder>
    requires { Allows levels.now s }
    ensures { (result ≡ once_of levels.now s) × (words.new ≡ wrote_of levels.now words.old s) }
{
    let v = levels.get(s.nodes).copied()?;
    Some(put_node(words, s, v as usize))
}

impl Builder {
    // The same through a lent builder, which is changed. Answers whether the list had a node.
    fn build_once(&mut self, levels: &[u32], words: &mut [u64]) -> bool
        requires { Allows levels.now self.old }
        ensures { (result ≡ is_some (once_of levels.now self.old))
            × (self.new ≡ unwrap_or (once_of levels.now self.old) self.old)
            × (words.new ≡ wrote_of levels.now words.old self.old) }
    {
        let Some(builder) = next_node(levels, words, *self) else {
            return false;
        };
        *self = builder;
        true
    }
}

// All nodes, one after another, behind the root.
fn build_all(levels: &[u32], words: &mut [u64])
    requires { Opened levels.now words.old }
    ensures { words.new ≡ pack (length words.old) (string levels.now) }
{
    let mut builder = Builder {
        nodes: 0,
        bits: 1,
        prev: 0,
    };
    // Stays a `while`: each turn is a call that changes the lent builder, as 01 has it, and its answer ends the loop.
    while builder.build_once(levels, words) {}
}

// The string of an accepted list, into words that are all zero.
fn write_string(levels: &[u32], words: &mut [u64])
    requires { Ready levels.now words.old }
    ensures { words.new ≡ pack (length words.old) (string levels.now) }
{
    store(words, 0, true);
    build_all(levels, words);
}

// MANY, LEVEL and ROOM for scratch leave zeros; otherwise the string stands from word n + 1 on, and zeros before and behind it.
pub fn place(levels: &[u32], scr: &mut [u64]) -> Result<(), Refusal>
    ensures { placing (refused_of result) scr.new ≡ place_in levels.now (length scr.old) }
{
    scr.fill(0);
    let n = levels.len();
    if 1048575 < n {
        return Err(Refusal::Many(n));
    }
    check_levels(levels)?;
    if scr.len() < 2 * n + 2 {
        return Err(Refusal::Room(5));
    }
    write_string(levels, &mut scr[n + 1..]);
    Ok(())
}
