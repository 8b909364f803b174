// The input in pieces, line by line.
ghost use Rattle.std.specs.Prelude.{◌≤◌, length};

use crate::line::answer_line;
use asking::out::Out;
use asking::{Answer, Fault};
use standing::Standing;

// Behind the first newline of a text; the end where there is none.
fn line_end(text: &[u8]) -> usize
    ensures { result ≤ length text.now }
{
    match text.iter().position(|b| *b == b'\n') {
        Some(i) => i + 1,
        None => text.len(),
    }
}

// How much of a text is whole lines.
fn whole(text: &[u8]) -> usize
    ensures { result ≤ length text.now }
{
    match text.iter().rposition(|b| *b == b'\n') {
        Some(i) => i + 1,
        None => 0,
    }
}

// The lines of a text, each answered by a line.
fn lines(text: &[u8], s: &mut Standing, out: &mut Out) {
    for line in text.split_inclusive(|b| *b == b'\n') {
        answer_line(line, s, out);
        out.byte(b'\n');
    }
    out.flush();
}

// What is kept of the last line, and whether the rest of a line is passed over.
#[derive(Clone, Copy)]
struct Page {
    kept: usize,
    pass: bool,
}

// The end of the input ends its last line. Where the text then ends.
fn close_line(text: &mut [u8], end: usize) -> usize
    requires { end ≤ length text.old }
    ensures { result ≤ length text.old }
{
    if end == 0 || text.len() <= end || text[end - 1] == b'\n' {
        return end;
    }
    text[end] = b'\n';
    end + 1
}

// A text without a newline: one answer, and none where it is the rest of a line that was passed over.
fn too_long(out: &mut Out, pass: bool) {
    if pass {
        return;
    }
    out.answer(Answer::Bad(Fault::Long));
    out.byte(b'\n');
    out.flush();
}

// One piece of the input: what was kept of the last line, and what is read behind it. The next page, if there is more to read.
fn read_page(text: &mut [u8], page: Page, s: &mut Standing, out: &mut Out) -> Option<Page> {
    let read = io::read_full(0, text.get_mut(page.kept..)?);
    let got = page.kept + read;
    let more = got == text.len();
    let end = close_line(text, got);
    let n = whole(&text[..end]);
    if n == 0 && more {
        too_long(out, page.pass);
        return Some(Page {
            kept: 0,
            pass: true,
        });
    }
    let from = if page.pass { line_end(&text[..n]) } else { 0 };
    lines(&text[from..n], s, out);
    text.copy_within(n..end, 0);
    if !more {
        return None;
    }
    Some(Page {
        kept: end - n,
        pass: false,
    })
}

// So many pieces at most.
const PIECES: usize = 1000000000000000;

// All of the input.
pub fn run(text: &mut [u8], s: &mut Standing, out: &mut Out) {
    let mut page = Page {
        kept: 0,
        pass: false,
    };
    for _ in 0..PIECES {
        match read_page(text, page, s, out) {
            Some(next) => page = next,
            None => return,
        }
    }
}
