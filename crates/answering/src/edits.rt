// Edits of the bit string: area 0, with the record's first bits as its length.
use crate::each::answer_each;
use asking::out::Out;
use replies::op::Op;
use standing::Tree;

// `string push`, `set0`, `set1` and `resize`: the length after each. Refused, it stays.
pub fn edit_line(op: Op, list: &[u8], tree: &mut Tree, out: &mut Out) {
    let words = tree.words.as_mut_slice();
    let mut len = tree.counts.bits[0];
    answer_each(list, out, |i, _| {
        // Each arm calls another function, so a table of them would be no plainer.
        let edited = match op {
            Op::Push => bit_string::push(words, len, i != 0),
            Op::SetZero => bit_string::set(words, len, i, false),
            Op::SetOne => bit_string::set(words, len, i, true),
            _ => bit_string::resize(words, len, i),
        };
        len = edited.unwrap_or(len);
        Ok(edited.into())
    });
    tree.counts.bits[0] = len;
}
