// The limits of the rules for pools: a list of all 1,000,000 nodes, on which each kind of call is accepted, and the same words
// with one node more, on which each is refused 1, with right arguments and with wrong ones; the greatest node and the greatest
// word; records of width 256 and 257; directories of 64 lists and of 65. One line a call: the number that it answers, the node
// that it hands out, and what it hands back; after the calls on a pool, sums of the words and of the marks that are left. The
// expected output was worked out from the paper that sets the rules, and not from a run.
#![tactic(auto)]

mod directories;
mod greatest;
mod pools;
mod show;
mod text;
mod widths;

use std::io::{self, Stdout};

// The cases, each of which is lent the one pool and its marks.
fn run(out: Stdout, words: &mut [u32; 1000001], marks: &mut [u8; 1000001]) -> io::Result<()> {
    pools::run(out, words, marks)?;
    greatest::run(out, words, marks)?;
    widths::run(out, words)?;
    directories::run(out, words, marks)
}

// The pool and its marks are 5 MB of the stack.
fn main(rt: HostRuntime) -> io::Result<()> {
    let mut words = [1u32; 1000001];
    let mut marks = [9u8; 1000001];
    run(rt.stdout(), &mut words, &mut marks)
}
