// Printing of words and marks: all of them where they are eight at the most, else how many and a sum.
use crate::args;
use crate::line::Argument;
use std::io::{self, Stdout};

// A word of the case: the line gives eight at the most, and after them it is 1.
fn given(case: &[u8], i: usize) -> u32 {
    if i < 8 {
        return args::word(case, Argument::FirstWord, i, 1);
    }
    1
}

// Whether a pool has the words of the case.
fn same(case: &[u8], words: &[u32]) -> bool {
    words.iter().enumerate().all(|(i, w)| given(case, i) == *w)
}

// A sum with one number more. It shows a changed number, and two that are exchanged. (`pools_cases` has its own: a crate for the
// two would be a library to keep, for a line.)
fn added(sum: u64, x: u32) -> u64 {
    (sum % 1000003 * 31 + x as u64) % 1000003
}

// Words, or marks.
pub(crate) fn numbers<T: Copy + Into<u32>>(out: Stdout, all: &[T]) -> io::Result<()> {
    let few = all.len() <= 8;
    let mut sum = 0;
    for x in all {
        let x: u32 = (*x).into();
        if few {
            print!(out; " {x}")?;
        }
        sum = added(sum, x);
    }
    if few {
        return Ok(());
    }
    print!(out; " {} in all, sum {sum}", all.len())
}

// The words that a call leaves.
pub(crate) fn left(out: Stdout, case: &[u8], words: &[u32]) -> io::Result<()> {
    if same(case, words) {
        return out.write_all(b" same");
    }
    numbers(out, words)
}
