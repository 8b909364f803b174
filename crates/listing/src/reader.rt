// Reading: numbers, lines and the list of levels and labels.
ghost use Rattle.std.specs.Prelude.{◌≡◌, length};
ghost use Rattle.meaning.specs.Listing.{digit, with_digit, scan, field, row, reading, read_of};
ghost use Rattle.refusal.specs.Said.{found_number, option_of};
ghost use Rattle.listing.specs.Said.{field_of, row_of};

use crate::Line;
use refusal::Refusal;

// An input has at most so many lines.
pub const MOST: usize = 512;

// The digit b.
fn digit_of(b: u8) -> Option<u32>
    ensures { option_of result ≡ digit b }
{
    char::from(b).to_digit(10)
}

// v with the digit b after it: no digit follows a zero, and the number fits.
fn with_digit(v: u32, b: u8) -> Option<u32>
    ensures { option_of result ≡ with_digit v b }
{
    if v == 0 {
        return None;
    }
    let d = digit_of(b)?;
    v.checked_mul(10)?.checked_add(d)
}

// The digits at the start of a text, after the value v, up to the byte that ends them: the number, and the text after that byte.
fn scan(text: &[u8], stop: u8, v: u32) -> Option<(u32, &[u8])>
    ensures { field_of result ≡ scan stop v text.now }
{
    match text.split_first() {
        Some((&b, rest)) => {
            if b == stop {
                return Some((v, rest));
            }
            scan(rest, stop, with_digit(v, b)?)
        }
        None => None,
    }
}

// The number at the start of a text, and the text after the byte that ends it.
fn number(text: &[u8], stop: u8) -> Option<(u32, &[u8])>
    ensures { field_of result ≡ field stop text.now }
{
    let (&b, rest) = text.split_first()?;
    scan(rest, stop, digit_of(b)?)
}

// The line at the start of a text.
fn line(text: &[u8]) -> Option<Line<'_>>
    ensures { row_of result ≡ row text.now }
{
    let (level, middle) = number(text, b'\t')?;
    let (label, rest) = number(middle, b'\n')?;
    Some(Line { level, label, rest })
}

// How many levels and labels an input has: they stand at the start of the two slices, with zeros after them. TEXT, which tells the first
// bad line, leaves zeros; so do fewer places than an input may have lines, and nothing is read into them. Two lists, as a build takes them.
pub fn read_list(
    text: &[u8],
    levels: &mut [u32],
    labels: &mut [u32],
) -> Result<Option<usize>, Refusal>
    ensures { reading (found_number result) levels.new labels.new ≡ read_of text.now (length levels.old) (length labels.old) }
{
    levels.fill(0);
    labels.fill(0);
    if levels.len() < MOST || labels.len() < MOST {
        return Ok(None);
    }
    let mut rest = text;
    let mut k: usize = 0;
    // A step is a line.
    while !rest.is_empty() {
        let next = if k < MOST { line(rest) } else { None };
        let Some(line) = next else {
            levels.fill(0);
            labels.fill(0);
            return Err(Refusal::Text(k + 1));
        };
        levels[k] = line.level;
        labels[k] = line.label;
        rest = line.rest;
        k += 1;
    }
    Ok(Some(k))
}
