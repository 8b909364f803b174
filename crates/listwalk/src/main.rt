// The program `listwalk`: a list from standard input, its tree's listing to standard output.
#![tactic(auto)]

ghost use Rattle.meaning.specs.Listing.{listwalk_of};
ghost use Rattle.listing.specs.Said.{Puts};
ghost use Rattle.listwalk.specs.Answered.{Answered};

use listing::reader::read_list;
use listing::writer::write_refused;
use tree::listed;

mod siblings;
mod tree;

// The answer to an input, as far as it fits: how many bytes it has, and nothing where there is no room for it.
fn walk(text: &[u8], out: &mut [u8]) -> Option<usize>
    ensures { Puts out.old 0 (listwalk_of text.now) result out.new }
{
    let mut levels = [0; 512];
    let mut labels = [0; 512];
    match read_list(text, &mut levels, &mut labels) {
        Ok(Some(n)) => listed(&levels[..n], &labels[..n], out),
        Ok(None) => None,
        Err(refusal) => write_refused(out, 0, refusal),
    }
}

// How many bytes at the start of out are the answer; 0 where there is no room for it, as `Answered` has it.
fn answer(text: &[u8], out: &mut [u8]) -> usize
    ensures { Answered text.now out.old result out.new }
{
    walk(text, out).unwrap_or(0)
}

// 512 lines have at most 11,264 bytes: what stands after the buffer's end changes nothing, and every answer fits (`whole_input` of proofs/Answered.antt).
fn main() {
    let mut text = io::large_buffer();
    let mut out = io::large_buffer();
    let n = io::read_full(0, &mut text);
    let m = answer(&text[..n], &mut out);
    io::write_all(1, &out[..m]);
}
