// One line.
use answering::ask;
use answering::edits::edit_line;
use asking::out::Out;
use asking::read::{only_word, word};
use building::{build_stood, grow_line};
use changing::dict::build_dict;
use changing::walking::walk_line;
use replies::op::Op;
use standing::Standing;
use standing::give::give;
use standing::show::show;

// An edit of the bit string, if a text names one, and its list.
fn edit_of(text: &[u8]) -> Option<(Op, &[u8])> {
    let (name, list) = word(text);
    match Op::named(name) {
        Some(op) if op.is_edit() => Some((op, list)),
        _ => None,
    }
}

// A line that is neither empty nor a comment.
fn case(line: &[u8], s: &mut Standing, out: &mut Out) {
    if let Some(given) = give(line, s) {
        return out.answer(given.into());
    }
    let (first, rest) = word(line);
    match first {
        b"build" if rest.is_empty() => out.answer(build_stood(s)),
        b"grow" => out.answer(grow_line(rest, s).into()),
        b"walk" => if let Err(fault) = walk_line(rest, s, out) {
            out.answer(fault.into())
        }
        b"show" => show(rest, s, out),
        b"dict" if matches!(only_word(rest), Some(b"build")) => out.answer(build_dict(&mut s.tree)),
        b"string" => match edit_of(rest) {
            Some((op, list)) => edit_line(op, list, &mut s.tree, out),
            None => ask(line, s, out),
        },
        _ => ask(line, s, out),
    }
}

// A line. An empty one is answered by nothing, and a comment by its mark.
pub fn answer_line(line: &[u8], s: &mut Standing, out: &mut Out) {
    match line.first() {
        Some(b'\n') => {}
        Some(b'#') => out.byte(b'#'),
        _ => case(line, s, out),
    }
}
