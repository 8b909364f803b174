// `show`: an area, a list or the record.
use crate::Standing;
use asking::out::Out;
use asking::read::{number, word};
use asking::{Answer, Fault};
use record::Counts;

// The record's 18 numbers.
fn show_record(c: &Counts, out: &mut Out) {
    out.answer(c.nodes.into());
    for n in c
        .bits
        .iter()
        .chain(c.bytes.iter())
        .chain(c.middles.iter())
        .chain(c.larges.iter())
    {
        out.entry(false, Answer::from(*n));
    }
}

// How many elements there are, and they up to the last that is not zero. Each is read as a u64, and cast: std has no `From<u32>` for usize.
fn show_area<T: Copy + Into<u64>>(area: &[T], out: &mut Out) {
    out.answer(area.len().into());
    let last = area.iter().rposition(|e| {
        let n: u64 = (*e).into();
        n != 0
    });
    let Some(last) = last else {
        return;
    };
    for element in &area[..last + 1] {
        let n: u64 = (*element).into();
        out.entry(false, Answer::Number(n as usize));
    }
}

pub fn show(text: &[u8], s: &Standing, out: &mut Out) {
    if let (b"record", _) = word(text) {
        return show_record(&s.tree.counts, out);
    }
    match number(text) {
        Ok((0, [])) => show_area(s.tree.words.as_slice(), out),
        Ok((1, [])) => show_area(s.tree.bytes.as_slice(), out),
        Ok((2, [])) => show_area(s.tree.middles.as_slice(), out),
        Ok((3, [])) => show_area(s.tree.larges.as_slice(), out),
        Ok((4, [])) => show_area(s.tree.labels.as_slice(), out),
        Ok((5, [])) => show_area(s.scratch.as_slice(), out),
        Ok((10, [])) => show_area(s.levels.as_slice(), out),
        Ok((11, [])) => show_area(s.labels.as_slice(), out),
        _ => out.answer(Answer::Bad(Fault::Number)),
    }
}
