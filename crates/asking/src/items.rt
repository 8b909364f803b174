// A list of numbers: the rest of a line, with entries `a`, `a:b` (each number from a to b, up or down) and `a:b:k` (each of these k times).
use crate::Fault;
use crate::read::{number_of, word};

// What stands behind the present entry; of that entry, the number told last, the last one, how often each is told again, and how often the
// present one still is.
#[derive(Clone, Copy)]
pub struct Items<'a> {
    rest: &'a [u8],
    from: usize,
    to: usize,
    again: usize,
    left: usize,
}

impl<'a> Items<'a> {
    // The list that a text is.
    pub fn new(text: &'a [u8]) -> Items<'a> {
        Items {
            rest: text,
            from: 0,
            to: 0,
            again: 0,
            left: 0,
        }
    }

    // The next number, if there is one.
    pub fn next(&mut self) -> Result<Option<usize>, Fault> {
        if 0 < self.left {
            self.left -= 1;
        } else if self.from != self.to {
            self.from = if self.from < self.to {
                self.from + 1
            } else {
                self.from - 1
            };
            self.left = self.again;
        } else if self.rest.is_empty() {
            return Ok(None);
        } else {
            self.enter()?;
        }
        Ok(Some(self.from))
    }

    // The next number, which has to be there.
    pub fn needed(&mut self) -> Result<usize, Fault> {
        self.next()?.ok_or(Fault::Number)
    }

    // That there is no number more: no place is left for one.
    pub fn end(&mut self) -> Result<(), Fault> {
        match self.next()? {
            None => Ok(()),
            Some(_) => Err(Fault::Large),
        }
    }

    // The next entry.
    fn enter(&mut self) -> Result<(), Fault> {
        let (entry, rest) = word(self.rest);
        let mut parts = entry.split(|b| *b == b':');
        let from = part(parts.next(), 0)?;
        let to = part(parts.next(), from)?;
        let times = part(parts.next(), 1)?;
        if times == 0 || parts.next().is_some() {
            return Err(Fault::Number);
        }
        self.rest = rest;
        self.from = from;
        self.to = to;
        self.again = times - 1;
        self.left = times - 1;
        Ok(())
    }
}

// The number that a part of an entry is; where there is no such part, what is meant.
fn part(digits: Option<&[u8]>, meant: usize) -> Result<usize, Fault> {
    match digits {
        Some(digits) => number_of(digits).ok_or(Fault::Number),
        None => Ok(meant),
    }
}

// Exactly as many numbers as the array has.
pub fn numbers<const N: usize>(text: &[u8]) -> Result<[usize; N], Fault> {
    let mut all = [0; N];
    let mut items = Items::new(text);
    for n in all.iter_mut() {
        *n = items.needed()?;
    }
    match items.next()? {
        None => Ok(all),
        Some(_) => Err(Fault::Number),
    }
}

// The numbers of a list into the elements of an area. Those before one that does not fit its element are put.
pub fn fill<T: TryFrom<usize> + Drop>(items: &mut Items<'_>, area: &mut [T]) -> Result<(), Fault>
where
    T::Error: Drop,
{
    for element in area.iter_mut() {
        let Some(n) = items.next()? else {
            return Ok(());
        };
        *element = T::try_from(n).map_err(|_| Fault::Number)?;
    }
    items.end()
}
