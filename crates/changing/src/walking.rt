// The walk: its nodes go into the two lists and are told from there.
use asking::out::Out;
use asking::read::pair;
use asking::{Answer, Fault};
use standing::{MOST_LISTED, Standing, zeros};
use walk::walk;

// How many elements of each list are lent: `walk` and `walk a b`.
fn lent(text: &[u8], nodes: usize) -> Result<(usize, usize), Fault> {
    if text.is_empty() {
        let n = nodes.min(MOST_LISTED);
        return Ok((n, n));
    }
    let (n, m) = pair(text)?;
    if MOST_LISTED < n || MOST_LISTED < m {
        return Err(Fault::Large);
    }
    Ok((n, m))
}

// The walk of the tree that stands, `level:label` for each node: casts, since std has no `From<u32>` for usize.
pub fn walk_line(text: &[u8], s: &mut Standing, out: &mut Out) -> Result<(), Fault> {
    let (n, m) = lent(text, s.tree.counts.nodes)?;
    zeros(&mut s.levels, n);
    zeros(&mut s.labels, m);
    let walked = walk(
        &s.tree.catalogue(),
        s.levels.as_mut_slice(),
        s.labels.as_mut_slice(),
        s.scratch.as_mut_slice(),
    );
    match walked {
        Err(refusal) => out.answer(refusal.into()),
        Ok(nodes) => {
            let listed = s.levels.iter().zip(s.labels.iter()).take(nodes);
            for (i, (level, label)) in listed.enumerate() {
                out.entry(i == 0, Answer::Pair(*level as usize, *label as usize));
            }
        }
    }
    Ok(())
}
