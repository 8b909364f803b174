// String close and family close, which call each other, the pioneer level falling.
#![tactic(auto)]

ghost use Rattle.std.specs.Prelude.{◌≡◌, suc};
ghost use Rattle.meaning.specs.Areas.{own_dict, past};
ghost use Rattle.meaning.specs.Close.{family_close, close_at};
ghost use Rattle.meaning.specs.Questions.{bit_in, close_in};
ghost use Rattle.record.specs.Record.{level_in, tree_of, lent_of};
ghost use Rattle.refusal.specs.Said.{option_of, said_number, said_bit};
ghost use Rattle.closes.specs.Parts.{held_of, levels_from, FitsIn, HasNext};
ghost use Rattle.closes.specs.Steps.{Finds};

use crate::family::At;
use crate::level::Bits;
use record::Catalogue;
use refusal::Refusal;

mod family;
pub mod fit;
pub mod level;

// The close of the open p of a level's string.
#[cycle(family_close_string_close)]
fn string_close(catalogue: &Catalogue<'_>, at: At, p: usize) -> Option<usize>
    requires { FitsIn catalogue.now at }
    ensures { Finds result (close_at (levels_from catalogue.now.counts at.level (held_of catalogue.now at)) p) }
{
    if 5 <= at.level {
        return None;
    }
    let string = Bits {
        words: &catalogue.words[at.words..],
        len: catalogue.counts.bits[at.level],
    };
    if let Some(i) = string.near_close(p).ok()? {
        return Some(i);
    }
    if string.len <= 64 || at.level == 4 {
        return None;
    }
    let q = at.pred(catalogue, p)?;
    let close = family_close(catalogue, at, q)?;
    string.from_pioneer(p, q, close)
}

// The close of the flagged place q: the family asks its own string.
#[cycle(family_close_string_close)]
fn family_close(catalogue: &Catalogue<'_>, at: At, q: usize) -> Option<usize>
    requires { HasNext catalogue.now at }
    ensures { option_of result ≡ family_close (own_dict (level_in catalogue.now.counts at.level) (held_of catalogue.now at)) (λ i. close_at (levels_from catalogue.now.counts (suc at.level) (past (level_in catalogue.now.counts at.level) (held_of catalogue.now at))) i) q }
{
    let r = at.rank(catalogue, q)?;
    if r == 0 {
        return None;
    }
    let next = at.above(catalogue);
    let k = string_close(catalogue, next, r - 1)?;
    at.select(catalogue, k + 1)
}

// The close of the open at a place of the string.
pub fn get_close(catalogue: &Catalogue<'_>, place: usize) -> Result<usize, Refusal>
    ensures { said_number result ≡ close_in (tree_of catalogue.now) (lent_of catalogue.now) place }
{
    if !get(catalogue, place)? {
        return Err(Refusal::Close(place));
    }
    string_close(catalogue, At::START, place).ok_or(Refusal::Broken)
}

// The bit at a place of the string.
pub fn get(catalogue: &Catalogue<'_>, place: usize) -> Result<bool, Refusal>
    ensures { said_bit result ≡ bit_in (tree_of catalogue.now) (lent_of catalogue.now) place }
{
    if !fit::counts_fit(catalogue) {
        return Err(Refusal::Broken);
    }
    let string = Bits {
        words: catalogue.words,
        len: catalogue.counts.bits[0],
    };
    if string.len <= place {
        return Err(Refusal::Place(place));
    }
    Ok(string.open_at(place))
}
