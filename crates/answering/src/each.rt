// A list of arguments, answered one by one.
use asking::items::Items;
use asking::out::Out;
use asking::{Answer, Fault};

// A line has at most so many arguments.
const MOST: usize = 4194304;

// An answer for each number of a list, up to the first that is none or has none.
pub(crate) fn answer_each<F: FnMut(usize, &mut Items<'_>) -> Result<Answer, Fault>>(
    text: &[u8],
    out: &mut Out,
    mut answer: F,
)
    requires { F.IsAlwaysCallable answer }
{
    let mut items = Items::new(text);
    for turn in 0..MOST {
        let first = turn == 0;
        let told = match items.next() {
            Ok(Some(n)) => answer(n, &mut items),
            Ok(None) if first => Err(Fault::Number),
            Ok(None) => return,
            Err(fault) => Err(fault),
        };
        out.entry(first, told.into());
        if told.is_err() {
            return;
        }
    }
    out.entry(false, Answer::Bad(Fault::Many));
}
