// Directories of 64 lists and of 65, on the greatest pool and on one more. Node 0 is alone on list 0, node 999999 on list
// 63, and node 1 is stranded; all other lists are empty, and all other nodes are free.
use crate::{show, text};
use audit::Audited;
use std::io::{self, Stdout};
use words::link_ops::LinkOps;
use words::names::Name;

// Heads, and tails: they are the same where no list has more than one node. List 63 is given, as are lists 62 and 64.
fn side(before: u32, last: u32, after: u32) -> [u32; 65] {
    let mut ends = [0u32; 65];
    ends[0] = 2;
    ends[62] = before;
    ends[63] = last;
    ends[64] = after;
    ends
}

// What the audit answers, and the marks of nodes 0, 1 and 999999.
fn shown(out: Stdout, nodes: usize, lists: usize, r: Audited, m: &[u8]) -> io::Result<()> {
    println!(out;
        "audit: nodes {nodes}; lists {lists}: {} {} {} {} | {} {} {}",
        show::Answered(r.answer),
        r.list,
        r.on_lists,
        r.stranded,
        text::mark(m, 0),
        text::mark(m, 1),
        text::mark(m, 999999)
    )
}

// An audit of the nodes and the first lists, with all marks 9 before it: the name of the one node of list 62, head and
// tail of list 63, and the head of list 64, which has no tail.
fn audit(
    out: Stdout,
    words: &[u32],
    marks: &mut [u8],
    lists: usize,
    before: u32,
    head: u32,
    tail: u32,
    after: u32,
) -> io::Result<()> {
    let heads = side(before, head, after);
    let tails = side(before, tail, 0);
    marks.fill(9);
    let r = audit::audit(
        words,
        text::first(&heads, lists),
        text::first(&tails, lists),
        marks,
    );
    shown(out, words.len(), lists, r, marks)
}

// Right directories; then list 63 has no tail; then it is list 62 again.
fn audits(out: Stdout, words: &[u32], marks: &mut [u8]) -> io::Result<()> {
    audit(out, words, marks, 64, 0, 2000000, 2000000, 0)?;
    audit(out, words, marks, 65, 0, 2000000, 2000000, 0)?;
    println!(out; "list 63 has no tail, nor has 64")?;
    audit(out, words, marks, 64, 0, 2000000, 0, 8)?;
    audit(out, words, marks, 65, 0, 2000000, 0, 8)?;
    println!(out; "list 63 is list 62 again")?;
    audit(out, words, marks, 64, 2000000, 2000000, 2000000, 0)?;
    audit(out, words, marks, 65, 2000000, 2000000, 2000000, 0)
}

pub(crate) fn run(out: Stdout, words: &mut [u32], marks: &mut [u8]) -> io::Result<()> {
    words.fill(1);
    LinkOps::put(words, Name(2), 0);
    LinkOps::put(words, Name(4), 0);
    LinkOps::put(words, Name(2000000), 0);
    audits(out, text::first(words, 1000000), text::cut(marks, 1000000))?;
    audits(out, words, marks)
}
