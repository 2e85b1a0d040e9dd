// The limits of the rules for desks: lent desks of 4,096 nodes and 64 lists, and of one more; orders that no line says, on a
// small desk and, without a desk, on the greatest pool and on one more. One line a call: the number that it answers, and what
// it hands back or leaves. The expected output was worked out from the paper that sets the rules, and not from a run.
#![tactic(auto)]

mod desks;
mod orders;
mod text;

use std::io::{self, Stdout};

// The cases, of which those without a desk are lent the one pool and its marks.
fn run(out: Stdout, words: &mut [u32; 1000001], marks: &mut [u8; 1000001]) -> io::Result<()> {
    desks::run(out)?;
    orders::run(out, words, marks)
}

// The pool and its marks are 5 MB of the stack.
fn main(rt: HostRuntime) -> io::Result<()> {
    let mut words = [1u32; 1000001];
    let mut marks = [9u8; 1000001];
    run(rt.stdout(), &mut words, &mut marks)
}
