// Lines that give what stands: areas, elements, the record, the lists.
use crate::{
    MOST_BYTES, MOST_LABELS, MOST_LARGES, MOST_MIDDLES, MOST_SCRATCH, MOST_TOGETHER, MOST_WORDS,
    Standing,
};
use arrayvec::ArrayVec;
use asking::Fault;
use asking::front::front;
use asking::items::{Items, fill, numbers};
use asking::read::{number, word};
use record::Counts;

// `areas a b c d e f`
fn give_areas(text: &[u8], s: &mut Standing) -> Result<(), Fault> {
    let sizes: [usize; 6] = numbers(text)?;
    let most = [
        MOST_WORDS,
        MOST_BYTES,
        MOST_MIDDLES,
        MOST_LARGES,
        MOST_LABELS,
        MOST_SCRATCH,
    ];
    let mut left = MOST_TOGETHER;
    for (n, most) in sizes.iter().zip(most) {
        if most < *n {
            return Err(Fault::Large);
        }
        left = left.checked_sub(*n).ok_or(Fault::Large)?;
    }
    s.renew(sizes);
    Ok(())
}

// The numbers of a list into an area from a place on.
fn put<T: TryFrom<usize> + Drop>(text: &[u8], area: &mut [T], at: usize) -> Result<(), Fault>
where
    T::Error: Drop,
{
    let from = front(area, at);
    fill(&mut Items::new(text), &mut area[from..])
}

// `put K AT v..`
fn put_line(text: &[u8], s: &mut Standing) -> Result<(), Fault> {
    let (k, behind) = number(text)?;
    let (at, list) = number(behind)?;
    match k {
        0 => put(list, s.tree.words.as_mut_slice(), at),
        1 => put(list, s.tree.bytes.as_mut_slice(), at),
        2 => put(list, s.tree.middles.as_mut_slice(), at),
        3 => put(list, s.tree.larges.as_mut_slice(), at),
        4 => put(list, s.tree.labels.as_mut_slice(), at),
        5 => put(list, s.scratch.as_mut_slice(), at),
        _ => Err(Fault::Words),
    }
}

// `record r..`
fn give_record(text: &[u8], s: &mut Standing) -> Result<(), Fault> {
    let r: [usize; 18] = numbers(text)?;
    s.tree.counts = Counts {
        nodes: r[0],
        bits: [r[1], r[2], r[3], r[4], r[5]],
        bytes: [r[6], r[7], r[8], r[9]],
        middles: [r[10], r[11], r[12], r[13]],
        larges: [r[14], r[15], r[16], r[17]],
    };
    Ok(())
}

// `length n`
fn give_length(text: &[u8], s: &mut Standing) -> Result<(), Fault> {
    let (n, rest) = number(text)?;
    if !rest.is_empty() {
        return Err(Fault::Number);
    }
    s.tree.counts.bits[0] = n;
    Ok(())
}

// The numbers of a list, as many as there are.
fn collect<const N: usize>(text: &[u8], list: &mut ArrayVec<u32, N>) -> Result<(), Fault> {
    let mut items = Items::new(text);
    list.clear();
    for _ in 0..N {
        let Some(n) = items.next()? else {
            return Ok(());
        };
        let _ = list.try_push(u32::try_from(n).map_err(|_| Fault::Number)?);
    }
    items.end()
}

// `levels v..` and `labels v..`: a list that is no list is empty.
fn give_list<const N: usize>(text: &[u8], list: &mut ArrayVec<u32, N>) -> Result<(), Fault> {
    let given = collect(text, list);
    if given.is_err() {
        list.clear();
    }
    given
}

// A line that gives what stands, if it is one.
pub fn give(line: &[u8], s: &mut Standing) -> Option<Result<(), Fault>> {
    let (first, rest) = word(line);
    match first {
        b"areas" => Some(give_areas(rest, s)),
        b"put" => Some(put_line(rest, s)),
        b"levels" => Some(give_list(rest, &mut s.levels)),
        b"labels" => Some(give_list(rest, &mut s.labels)),
        b"record" => Some(give_record(rest, s)),
        b"length" => Some(give_length(rest, s)),
        _ => None,
    }
}
