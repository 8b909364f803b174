// One level's bits, in words from its own start: the steps of a close that look at no other level.
ghost use Rattle.std.specs.Prelude.{◌≡◌, false, suc, ◌-◌, ◌*◌, ◌/◌, ◌%◌, ◌^◌, ◌<◌, ltb, get_or};
ghost use Rattle.std.proofs.Math.Option.{none};
ghost use Rattle.meaning.specs.Close.{in_word, excess, left_from, from_close, and_then, test};
ghost use Rattle.refusal.specs.Said.{option_of};
ghost use Rattle.closes.specs.Steps.{string_of, counted, Finds, NearIs};

use refusal::Refusal;

// One up or one down; below zero there is no count.
fn count(n: usize, up: bool) -> Option<usize>
    requires { n < 2 ^ 64 - 1 }
    ensures { option_of result ≡ counted up n }
{
    if up { Some(n + 1) } else { n.checked_sub(1) }
}

// So many bits, in words. (A question to `bit_string::BitString` first tests that the words hold them; a close asks bit after bit, of counts that fit.)
#[derive(Clone, Copy)]
pub struct Bits<'a> {
    pub words: &'a [u64],
    pub len: usize,
}

impl Bits<'_> {
    // The bit at a place; bits past the length read as zeros.
    pub fn open_at(&self, i: usize) -> bool
        ensures { result ≡ get_or (string_of self.now) i false }
    {
        i < self.len && words::bit_at(self.words, i)
    }

    // "If the word holds it, that one": the word is searched with zeros past the length.
    fn in_word(&self, place: usize) -> Option<usize>
        ensures { option_of result ≡ in_word (string_of self.now) 0 (suc place) (63 - place % 64) }
    {
        let mut depth: usize = 0;
        for step in 1..64 - place % 64 {
            let Some(n) = count(depth, self.open_at(place + step)) else {
                return Some(place + step);
            };
            depth = n;
        }
        None
    }

    // "opens less closes from q up to before p".
    fn relative_level(&self, q: usize, p: usize) -> Option<usize>
        ensures { option_of result ≡ excess (string_of self.now) 0 q (p - q) }
    {
        let mut depth: usize = 0;
        for i in q..p {
            depth = count(depth, self.open_at(i))?;
        }
        Some(depth)
    }

    // "walk left from c - 1 to c's word's start": "the LAST close at which the count is d".
    fn walk_left(&self, d: usize, c: usize) -> Option<usize>
        ensures { option_of result ≡ left_from (string_of self.now) (c / 64 * 64) d (c % 64) 0 none }
    {
        let mut depth: usize = 0;
        let mut best = None;
        for i in (c / 64 * 64..c).rev() {
            let open = self.open_at(i);
            depth = count(depth, !open)?;
            if !open && depth == d {
                best = Some(i);
            }
        }
        best
    }

    // "if d is 0 the answer is c. Otherwise walk left".
    fn far_child(&self, d: usize, c: usize) -> Option<usize>
        ensures { option_of result ≡ from_close (string_of self.now) d c }
    {
        if d == 0 {
            return Some(c);
        }
        self.walk_left(d, c)
    }

    // The close of an open, if its word holds it; or BROKEN.
    pub(crate) fn near_close(&self, p: usize) -> Result<Option<usize>, Refusal>
        ensures { NearIs (string_of self.now) p result }
    {
        if !self.open_at(p) {
            return Err(Refusal::Broken);
        }
        let Some(c) = self.in_word(p) else {
            return Ok(None);
        };
        if c < self.len {
            return Ok(Some(c));
        }
        Err(Refusal::Broken)
    }

    // The close of p from that of q, the last flagged place at or before it.
    pub(crate) fn from_pioneer(&self, p: usize, q: usize, c: usize) -> Option<usize>
        ensures { Finds result (test (ltb c self.now.len) (and_then (excess (string_of self.now) 0 q (p - q)) (λ d. from_close (string_of self.now) d c))) }
    {
        if self.len <= c {
            return None;
        }
        let d = self.relative_level(q, p)?;
        self.far_child(d, c)
    }
}
