// The numbered refusals, and what each carries.
#![tactic(auto)]

ghost use Rattle.std.specs.Prelude.{◌≡◌};
ghost use Rattle.refusal.specs.Said.{refusal_of, carried_of};

#[derive(Clone, Copy, PartialEq, Eq, Debug)]
pub enum Refusal {
    // The lists have different lengths.
    Lengths,
    // Too many nodes or bits: how many.
    Many(usize),
    // A level that breaks the list rule: its place.
    Level(usize),
    // Too little room: the area.
    Room(usize),
    // A block with 256 flags: the pioneer level and the block.
    Full(usize, usize),
    // More than four pioneer levels.
    Deep,
    // No such place, or not the node's: the place.
    Place(usize),
    // A close in the place of an open: the place.
    Close(usize),
    // Counts and areas that no build left.
    Broken,
    // A line that is no level and label: which, from 1.
    Text(usize),
}

impl Refusal {
    pub fn number(self) -> usize
        ensures { result ≡ (refusal_of self).number }
    {
        match self {
            Refusal::Lengths => 1,
            Refusal::Many(_) => 2,
            Refusal::Level(_) => 3,
            Refusal::Room(_) => 4,
            Refusal::Full(_, _) => 5,
            Refusal::Deep => 6,
            Refusal::Place(_) => 7,
            Refusal::Close(_) => 8,
            Refusal::Broken => 9,
            Refusal::Text(_) => 10,
        }
    }

    // What it carries, and zero behind that.
    pub fn carried(self) -> (usize, usize)
        ensures { result ≡ carried_of self }
    {
        match self {
            Refusal::Full(level, block) => (level, block),
            Refusal::Many(n)
            | Refusal::Level(n)
            | Refusal::Room(n)
            | Refusal::Place(n)
            | Refusal::Close(n)
            | Refusal::Text(n) => (n, 0),
            Refusal::Lengths | Refusal::Deep | Refusal::Broken => (0, 0),
        }
    }
}
