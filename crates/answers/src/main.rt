// The program `answers`: cases from standard input, an answer for each to standard output. docs/CASES.md has the form of the cases.
#![tactic(auto)]

mod line;
mod pages;

use asking::out::Out;
use standing::Standing;

fn main() {
    let mut text = [0u8; 262144];
    let mut standing = Standing::new();
    let mut out = Out::new();
    pages::run(&mut text, &mut standing, &mut out);
}
