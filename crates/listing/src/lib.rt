// The text side of the program `listwalk`: its input read into levels and labels, its lines written into lent bytes.
#![tactic(auto)]

pub mod lines;
pub mod reader;
pub mod writer;

// What a refusal carries: FULL two values, the others one.
#[derive(Clone, Copy, PartialEq, Eq, Debug)]
pub enum Carried {
    One(usize),
    Two(usize, usize),
}

// A level, a label and the text after their line.
#[derive(Clone, Copy, PartialEq, Eq, Debug)]
struct Line<'a> {
    level: u32,
    label: u32,
    rest: &'a [u8],
}
