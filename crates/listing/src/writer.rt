// Writing: bytes, numbers and lines into lent bytes. Each function answers the place after what it wrote, and nothing where not all of it
// has room. The place goes through the functions as a value and is no field of a struct beside the bytes: after a failure there is none, where
// a struct would have to say in each contract at which place it then stands.
ghost use Rattle.std.specs.Prelude.{[], ◌∷◌, ◌++◌};
ghost use Rattle.meaning.specs.Listing.{digits, ended, sibling_field, head_line, node_line, refusal_line};
ghost use Rattle.refusal.specs.Said.{refusal_of};
ghost use Rattle.listing.specs.Said.{Puts, refusal_with, carried_text};

use crate::Carried;
use refusal::Refusal;

fn write_byte(out: &mut [u8], at: usize, b: u8) -> Option<usize>
    ensures { Puts out.old at (b ∷ []) result out.new }
{
    if out.len() <= at {
        return None;
    }
    // Tried with `get_mut`; the proof did not close: what a slice's `get_mut` leaves has no clause on its elements.
    out[at] = b;
    Some(at + 1)
}

// The decimal digits of n.
fn write_number(out: &mut [u8], at: usize, n: usize) -> Option<usize>
    ensures { Puts out.old at (digits n) result out.new }
{
    if n < 10 {
        return write_byte(out, at, b'0' + n as u8);
    }
    let at = write_number(out, at, n / 10)?;
    write_byte(out, at, b'0' + (n % 10) as u8)
}

// A number and the byte that ends it.
fn write_field(out: &mut [u8], at: usize, n: usize, end: u8) -> Option<usize>
    ensures { Puts out.old at (ended (digits n) end) result out.new }
{
    let at = write_number(out, at, n)?;
    write_byte(out, at, end)
}

// A number, a tab, and a number with the byte that ends it.
fn write_pair(out: &mut [u8], at: usize, x: usize, y: usize, end: u8) -> Option<usize>
    ensures { Puts out.old at (ended (digits x) 9 ++ ended (digits y) end) result out.new }
{
    let at = write_field(out, at, x, b'\t')?;
    write_field(out, at, y, end)
}

// The bytes of a slice.
fn write_bytes(out: &mut [u8], at: usize, text: &[u8]) -> Option<usize>
    ensures { Puts out.old at text.now result out.new }
{
    if out.len() < at {
        return None;
    }
    let mut next = at;
    for &b in text {
        next = write_byte(out, next, b)?;
    }
    Some(next)
}

// The head line: `tree`, nodes, bits, byte size.
pub fn write_head(
    out: &mut [u8],
    at: usize,
    nodes: usize,
    bits: usize,
    size: usize,
) -> Option<usize>
    ensures { Puts out.old at (head_line nodes bits size) result out.new }
{
    let at = write_bytes(out, at, b"tree\t")?;
    let at = write_pair(out, at, nodes, bits, b'\t')?;
    write_field(out, at, size, b'\n')
}

// A sibling's id, or `-` for 0, which is none, as `sibling_field` has it; and the line's end.
fn write_sibling(out: &mut [u8], at: usize, sibling: usize) -> Option<usize>
    ensures { Puts out.old at (ended (sibling_field sibling) 10) result out.new }
{
    if sibling == 0 {
        return write_bytes(out, at, b"-\n");
    }
    write_field(out, at, sibling, b'\n')
}

// A node's line: id, level, label, parent id, next sibling id or `-` for 0.
pub fn write_node_line(
    out: &mut [u8],
    at: usize,
    id: usize,
    level: usize,
    label: usize,
    parent: usize,
    sibling: usize,
) -> Option<usize>
    ensures { Puts out.old at (node_line id level label parent sibling) result out.new }
{
    let at = write_pair(out, at, id, level, b'\t')?;
    let at = write_pair(out, at, label, parent, b'\t')?;
    write_sibling(out, at, sibling)
}

// What a refusal carries, and the line's end.
fn write_carried(out: &mut [u8], at: usize, carried: Carried) -> Option<usize>
    ensures { Puts out.old at (carried_text carried) result out.new }
{
    match carried {
        Carried::One(x) => write_field(out, at, x, b'\n'),
        Carried::Two(x, y) => write_pair(out, at, x, y, b'\n'),
    }
}

// The line of a refusal with any number: `refused`, number, what it carries. The number is no `Refusal`, which would take less
// (`write_refusal_determined`).
pub fn write_refusal(out: &mut [u8], at: usize, number: usize, carried: Carried) -> Option<usize>
    ensures { Puts out.old at (refusal_line (refusal_with number carried)) result out.new }
{
    let at = write_bytes(out, at, b"refused\t")?;
    let at = write_field(out, at, number, b'\t')?;
    write_carried(out, at, carried)
}

// The line of one of the numbered refusals.
pub fn write_refused(out: &mut [u8], at: usize, refusal: Refusal) -> Option<usize>
    ensures { Puts out.old at (refusal_line (refusal_of refusal)) result out.new }
{
    let carried = match refusal {
        Refusal::Full(level, block) => Carried::Two(level, block),
        _ => Carried::One(refusal.carried().0),
    };
    write_refusal(out, at, refusal.number(), carried)
}
