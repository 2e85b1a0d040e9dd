// The entries for a host that has pools of its own: 60 and 61 of `CALLS`. Of six numbers, which are 7, the line says how many
// are lent.
use crate::args;
use crate::line::{Argument, number};
use crate::values::{Values, row};

// How many numbers are lent.
fn lent(line: &[u8]) -> usize {
    number(line, Argument::Node, 0).unwrap_or(0)
}

// What an entry returns, and all six numbers as it leaves them.
fn left(r: u32, n: &[u32; 6]) -> Values {
    row(&[r, n[0], n[1], n[2], n[3], n[4], n[5]])
}

// The walk of the line's first list.
pub(crate) fn walked(line: &[u8], words: &[u32], marks: &mut [u8]) -> Values {
    let mut numbers = [7u32; 6];
    let r = rewzhanok_pools::rewzhanok_walk(
        words,
        args::word(line, Argument::Current, 0, 0),
        args::word(line, Argument::Prev, 0, 0),
        marks,
        args::cut(&mut numbers, lent(line)),
    );
    left(r, &numbers)
}

// The audit of the line's four lists, and of empty ones after them.
pub(crate) fn audited(line: &[u8], words: &[u32], marks: &mut [u8]) -> Values {
    let mut numbers = [7u32; 6];
    let r = rewzhanok_pools::rewzhanok_audit(
        words,
        args::heads(line).lent(),
        args::tails(line).lent(),
        marks,
        args::cut(&mut numbers, lent(line)),
    );
    left(r, &numbers)
}
