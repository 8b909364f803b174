// Build and growth for the program `answers`, in the areas that stand.
#![tactic(auto)]

use asking::read::pair;
use asking::{Answer, Fault};
use balanced_parens::builder::build;
use balanced_parens::growth::grow;
use standing::{Standing, no_counts};

// `build`, of the two lists: the nodes. Refused, the record's counts are zeros.
pub fn build_stood(s: &mut Standing) -> Answer {
    let built = build(
        s.levels.as_slice(),
        s.labels.as_slice(),
        s.tree.words.as_mut_slice(),
        s.tree.bytes.as_mut_slice(),
        s.tree.middles.as_mut_slice(),
        s.tree.larges.as_mut_slice(),
        s.tree.labels.as_mut_slice(),
        s.scratch.as_mut_slice(),
    );
    s.tree.counts = built.unwrap_or(no_counts());
    built.map(|c| c.nodes).into()
}

// `grow LEVEL LABEL`: the nodes. Refused, the record stays.
pub fn grow_line(text: &[u8], s: &mut Standing) -> Result<Answer, Fault> {
    let (level, label) = pair(text)?;
    let level = u32::try_from(level).map_err(|_| Fault::Large)?;
    let label = u32::try_from(label).map_err(|_| Fault::Large)?;
    let grown = grow(
        s.tree.words.as_mut_slice(),
        s.tree.bytes.as_mut_slice(),
        s.tree.middles.as_mut_slice(),
        s.tree.larges.as_mut_slice(),
        s.tree.labels.as_mut_slice(),
        s.scratch.as_mut_slice(),
        s.tree.counts,
        level,
        label,
    );
    s.tree.counts = grown.unwrap_or(s.tree.counts);
    Ok(grown.map(|c| c.nodes).into())
}
