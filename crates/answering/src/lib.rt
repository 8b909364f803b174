// The questions of the program `answers` to what stands: what a line asks, and of which nodes, places or arguments; and the edits of its bit string.
#![tactic(auto)]

mod each;
pub mod edits;

use asking::out::Out;
use asking::read::{number, only_word, word};
use asking::{Answer, Fault};
use bit_string::BitString;
use each::answer_each;
use fixnum::{Fixnum, Word};
use ops::linear_fid::LinearFid;
use questions::{Edge, Node};
use record::Catalogue;
use refusal::Refusal;
use replies::dict::{dict_asked, first_dict};
use replies::op::Op;
use replies::string::{fid_asked, string_asked, tell_ones};
use replies::word::word_asked;
use standing::Standing;

// A node's place and id, and its label: a cast, since std has no `From<u32>` for usize.
fn edge(said: Result<Option<Edge>, Refusal>) -> Answer {
    match said {
        Ok(Some(e)) => Answer::Triple(e.node.place, e.node.id, e.label as usize),
        Ok(None) => Answer::Nothing,
        Err(r) => r.into(),
    }
}

// A question for each place of a list.
fn each_place<F: Fn(usize) -> Answer>(list: &[u8], out: &mut Out, ask: F)
    requires { F.IsAlwaysCallable ask }
{
    answer_each(list, out, |place, _| Ok(ask(place)));
}

// A question for each node of a list, a place and an id.
fn each_node<F: Fn(Node) -> Answer>(list: &[u8], out: &mut Out, ask: F)
    requires { F.IsAlwaysCallable ask }
{
    answer_each(list, out, |place, items| {
        let id = items.needed()?;
        Ok(ask(Node { place, id }))
    });
}

// A question for each open of the string, by place: its node's id is the number of opens before it.
fn every_node<F: Fn(Node) -> Answer>(c: &Catalogue<'_>, out: &mut Out, ask: F)
    requires { F.IsAlwaysCallable ask }
{
    let mut id: usize = 0;
    for place in 0..c.counts.bits[0] {
        match closes::get(c, place) {
            Ok(false) => {}
            Ok(true) => {
                out.entry(id == 0, ask(Node { place, id }));
                id += 1;
            }
            Err(r) => return out.entry(id == 0, r.into()),
        }
    }
}

// The question that a text names, put to each argument behind its name.
fn each_argument<F: Fn(Op, usize) -> Result<Answer, Fault>>(text: &[u8], out: &mut Out, ask: F)
    requires { F.IsAlwaysCallable ask }
{
    let (name, list) = word(text);
    let named = Op::named(name);
    answer_each(list, out, |i, _| ask(named.ok_or(Fault::Words)?, i));
}

// `dict`
fn dict_line(text: &[u8], c: &Catalogue<'_>, out: &mut Out) {
    match only_word(text) {
        Some(b"byte_size") => out.answer(first_dict(c).byte_size().into()),
        _ => each_argument(text, out, |op, i| dict_asked(c, op, i)),
    }
}

// `string`
fn string_line(text: &[u8], string: BitString<'_>, out: &mut Out) {
    match only_word(text) {
        Some(b"byte_size") => out.answer(string.byte_size().into()),
        Some(b"ones") => tell_ones(string, out),
        _ => each_argument(text, out, |op, i| string_asked(&string, op, i)),
    }
}

// `word8` and `word64`, with their value.
fn word_line<W: Word + TryFrom<usize>>(text: &[u8], out: &mut Out) -> Result<(), Fault>
where
    W::Error: Drop,
{
    let (value, rest) = number(text)?;
    let x = Fixnum::new(W::try_from(value).map_err(|_| Fault::Large)?);
    match word(rest) {
        (b"pop_count", _) => out.answer(x.pop_count().into()),
        _ => each_argument(rest, out, |op, i| word_asked(x, op, i)),
    }
    Ok(())
}

// The questions without arguments.
fn ask_alone(line: &[u8], c: &Catalogue<'_>, out: &mut Out) {
    match only_word(line) {
        Some(b"nodes") => out.answer(questions::nodes(c).into()),
        Some(b"is_empty") => out.answer(questions::is_empty(c).into()),
        Some(b"byte_size") => out.answer(questions::byte_size(c).into()),
        Some(b"closes") => every_node(c, out, |n| closes::get_close(c, n.place).into()),
        Some(b"children") => every_node(c, out, |n| edge(questions::first_child(c, n))),
        Some(b"siblings") => every_node(c, out, |n| edge(questions::next_sibling(c, n))),
        Some(b"names") => every_node(c, out, |n| questions::label(c, n).into()),
        Some(b"leaves") => every_node(c, out, |n| questions::leaf_count(c, n).into()),
        _ => out.answer(Answer::Bad(Fault::Words)),
    }
}

// A line that changes nothing.
pub fn ask(line: &[u8], s: &Standing, out: &mut Out) {
    let c = &s.tree.catalogue();
    let len = c.counts.bits[0];
    let words = c.words;
    let (first, rest) = word(line);
    match first {
        b"close" => each_place(rest, out, |p| closes::get_close(c, p).into()),
        b"bit" => each_place(rest, out, |p| closes::get(c, p).into()),
        b"first_child" => each_node(rest, out, |n| edge(questions::first_child(c, n))),
        b"next_sibling" => each_node(rest, out, |n| edge(questions::next_sibling(c, n))),
        b"label" => each_node(rest, out, |n| questions::label(c, n).into()),
        b"leaf_count" => each_node(rest, out, |n| questions::leaf_count(c, n).into()),
        b"dict" => dict_line(rest, c, out),
        b"string" => string_line(rest, BitString { words, len }, out),
        b"scan" => {
            let string = LinearFid { words, len };
            each_argument(rest, out, |op, i| fid_asked(&string, op, i))
        }
        b"word8" => told(word_line::<u8>(rest, out), out),
        b"word64" => told(word_line::<u64>(rest, out), out),
        _ => ask_alone(line, c, out),
    }
}

// A line that is no case.
fn told(asked: Result<(), Fault>, out: &mut Out) {
    if let Err(fault) = asked {
        out.answer(fault.into());
    }
}
