// What the record should have for a case: the dictionary's entries, and its answers at each argument.
use crate::text::Entry;
use refusal::Refusal;
use sparse_one_nnd::{DictAreas, SparseOneNnd};

// The fields of a line: the bytes, the middle and the large entries, the byte size, and the answers to the four questions.
#[derive(Clone, Copy, PartialEq, Eq, Debug)]
pub enum Field {
    Bytes,
    Middles,
    Larges,
    Size,
    Rank,
    Select,
    Pred,
    Succ,
}

impl Field {
    pub const QUESTIONS: [Field; 4] = [Field::Rank, Field::Select, Field::Pred, Field::Succ];

    pub const ALL: [Field; 8] = [
        Field::Bytes,
        Field::Middles,
        Field::Larges,
        Field::Size,
        Field::Rank,
        Field::Select,
        Field::Pred,
        Field::Succ,
    ];

    pub fn is_question(self) -> bool {
        matches!(
            self,
            Field::Rank | Field::Select | Field::Pred | Field::Succ
        )
    }
}

// A question at x.
pub fn ask(
    counts: SparseOneNnd,
    areas: DictAreas<'_>,
    question: Field,
    x: usize,
) -> Result<Option<usize>, Refusal> {
    match question {
        Field::Select => counts.select_one(areas, x),
        Field::Pred => counts.pred_one(areas, x),
        Field::Succ => counts.succ_one(areas, x),
        Field::Rank => Ok(Some(counts.rank_one(areas, x)?)),
        _ => Ok(Some(counts.byte_size()?)),
    }
}

// Entry i of a field of entries, or what is asked at i.
fn entry(counts: SparseOneNnd, areas: DictAreas<'_>, field: Field, i: usize) -> Option<Entry> {
    match field {
        Field::Bytes => Some(Entry::One(usize::from(*areas.bytes.get(i)?))),
        Field::Middles => {
            let [at, rank] = *areas.middles.as_chunks::<2>().0.get(i)?;
            Some(Entry::Two(usize::from(at), usize::from(rank)))
        }
        Field::Larges => {
            let [at, rank] = *areas.larges.as_chunks::<2>().0.get(i)?;
            Some(Entry::Two(at as usize, rank as usize))
        }
        _ => match ask(counts, areas, field, i) {
            Ok(Some(place)) => Some(Entry::One(place)),
            Ok(None) => Some(Entry::Nothing),
            Err(_) => None,
        },
    }
}

// A case: how many ones there are and the last of them, how many arguments, and the counts that the build answered, if it was not FULL.
#[derive(Clone, Copy)]
pub struct Case {
    pub ones: usize,
    pub last: usize,
    pub args: usize,
    pub counts: Option<SparseOneNnd>,
}

impl Case {
    // How many entries a field has.
    pub fn length(self, field: Field) -> usize {
        if field.is_question() {
            return self.args;
        }
        let Some(counts) = self.counts else {
            return 1;
        };
        match field {
            Field::Bytes => counts.bytes,
            Field::Middles => counts.middles,
            Field::Larges => counts.larges,
            _ => 1,
        }
    }

    // Whether the original stops there: a dictionary without entries, or a place past the last one's block. Select of 0 it answers.
    fn stops(self, question: Field, x: usize) -> bool {
        match question {
            Field::Select => self.ones == 0 && x != 0,
            _ => self.ones == 0 || self.last / 256 < x / 256,
        }
    }

    // What 01 answers there: the total, the last one or nothing.
    fn there(self, question: Field) -> Entry {
        match question {
            Field::Rank => Entry::One(self.ones),
            Field::Pred if self.ones != 0 => Entry::One(self.last),
            _ => Entry::Nothing,
        }
    }

    // Whether the record's entry of a field is right: at index x, or at argument x.
    pub fn is_right(self, areas: DictAreas<'_>, field: Field, x: usize, recorded: Entry) -> bool {
        let Some(counts) = self.counts else {
            return recorded == Entry::Stopped;
        };
        let ours = entry(counts, areas, field, x);
        if field.is_question() && self.stops(field, x) {
            return recorded == Entry::Stopped && ours == Some(self.there(field));
        }
        ours == Some(recorded)
    }
}
