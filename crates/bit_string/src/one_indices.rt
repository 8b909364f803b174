// The struct that holds the string it reads and its next place. Its step is thin: the cursor's, by value, does the work.
ghost use Rattle.std.specs.Prelude.{◌≡◌};
ghost use Rattle.meaning.specs.BitString.{one_from};
ghost use Rattle.refusal.specs.Said.{found_by, found_number};
ghost use Rattle.bit_string.specs.Indices.{step_of, met, moved};

use crate::{BitString, Cursor};
use refusal::Refusal;

// The one that a step meets, and the place from which the next one goes on.
#[derive(Clone, Copy)]
pub struct Moved {
    pub step: usize,
    pub next: usize,
}

// The cursor's step from a place.
fn advance(string: &BitString<'_>, next: usize) -> Result<Option<Moved>, Refusal>
    ensures { found_by step_of result ≡ one_from string.now.words.now string.now.len next }
{
    let cursor = Cursor { next };
    let Some((step, rest)) = cursor.step(string)? else {
        return Ok(None);
    };
    Ok(Some(Moved {
        step,
        next: rest.next,
    }))
}

#[derive(Clone, Copy)]
pub struct OneIndices<'a> {
    pub string: BitString<'a>,
    pub next: usize,
}

impl<'a> OneIndices<'a> {
    pub fn new(string: BitString<'a>) -> OneIndices<'a>
        ensures { (result.string ≡ string.entry) × (result.next ≡ 0) }
    {
        OneIndices { string, next: 0 }
    }

    // The next one; past the last, and where the string is refused, it stays.
    // No `Iterator`: a string that is refused answers its refusal for ever, so the items would have no end.
    pub fn next(&mut self) -> Result<Option<usize>, Refusal>
        ensures { (found_number result ≡ met self.old) × (self.new ≡ moved self.old) }
    {
        let Some(moved) = advance(&self.string, self.next)? else {
            return Ok(None);
        };
        self.next = moved.next;
        Ok(Some(moved.step))
    }
}
