// The close of an open, by a scan to the right.
ghost use Rattle.std.specs.Prelude.{◌≡◌, ◌≤◌, ◌<◌};
ghost use Rattle.meaning.specs.Word.{word_close};
ghost use Rattle.refusal.specs.Said.{found_number};
ghost use Rattle.fixnum.specs.Scan.{Passed, OneOpen};

use super::{Fixnum, Word, inside};
use refusal::Refusal;
use words::bit_of;

// How many opens wait for their closes behind place j, if `level` of them wait before it.
#[tactic(auto, using(crate::proofs::Within::bit_told))]
fn pass(x: u64, j: usize, level: usize) -> usize
    requires { OneOpen j level }
    ensures { Passed x j level result }
{
    if bit_of(x, j) { level + 1 } else { level - 1 }
}

impl<W: Word> Fixnum<W> {
    #[tactic(auto, using(crate::proofs::Closing::closing))]
    pub fn get_close(self, index: usize) -> Result<Option<usize>, Refusal>
        ensures { found_number result ≡ word_close W.BITWIDTH (W.value self.0) index }
    {
        inside(index, W::BITWIDTH)?;
        let x = self.0.wide();
        if !bit_of(x, index) {
            return Err(Refusal::Close(index));
        }
        let mut level: usize = 1;
        for j in index + 1..W::BITWIDTH {
            level = pass(x, j, level);
            if level == 0 {
                return Ok(Some(j));
            }
        }
        Ok(None)
    }
}
