// The entries of a level's own part, and where a walk starts from them.
ghost use Rattle.std.specs.Prelude.{◌≡◌, ◌≤◌, ◌/◌, ℕ, length, map};
ghost use Rattle.meaning.specs.Dictionary.{before, start_at};
ghost use Rattle.sparse_one_nnd.specs.Said.{areas_in};
ghost use Rattle.sparse_one_nnd.specs.Start.{entry_of, start_in, limit_start};

use crate::DictAreas;

// A number that an entry has.
pub(crate) trait Number: Copy {
    ghost number: { Self → ℕ };

    fn wide(self) -> usize
        ensures { result ≡ number self };
}

impl Number for u16 {
    ghost number = { λ x. x };

    fn wide(self) -> usize {
        usize::from(self)
    }
}

impl Number for u64 {
    ghost number = { λ x. x };

    fn wide(self) -> usize {
        self as usize
    }
}

// Entry i, if there is one: a byte position and a rank.
pub(crate) fn entry<T: Number>(es: &[T], i: usize) -> Option<(usize, usize)>
    ensures { result ≡ entry_of (map T.number es.now) i }
{
    if es.len() / 2 <= i {
        return None;
    }
    Some((es[2 * i].wide(), es[2 * i + 1].wide()))
}

// How many leading entries have a rank below q.
pub(crate) fn before<T: Number>(es: &[T], q: usize) -> usize
    ensures { (result ≡ before 0 q (map T.number es.now)) × (result ≤ length es.now / 2) }
{
    let n = es.len() / 2;
    // By index: `as_chunks` of a type parameter would owe that two of its elements are below 2^63 bytes, which no bound says.
    for i in 0..n {
        if q <= es[2 * i + 1].wide() {
            return i;
        }
    }
    n
}

// Where a walk starts: the ones before, and the bytes from there on.
#[derive(Clone, Copy)]
pub struct Start<'a> {
    pub ones: usize,
    pub rest: &'a [u8],
}

impl<'a> DictAreas<'a> {
    // The start that large entry g and middle entry m give; none where an entry is not there, or overflows, or is past the bytes.
    pub(crate) fn start(self, g: usize, m: usize) -> Option<Start<'a>>
        ensures { start_in result ≡ limit_start (start_at (areas_in self.entry) g m) }
    {
        let (base, rank) = entry(self.larges, g)?;
        let (more, ones) = entry(self.middles, m)?;
        let at = base.checked_add(more)?;
        Some(Start {
            ones: rank.checked_add(ones)?,
            rest: self.bytes.get(at..)?,
        })
    }
}
