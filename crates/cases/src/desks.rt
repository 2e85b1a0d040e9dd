// Lent desks of 4,096 nodes and 64 lists, and of one more, with a mark for each node and with one short. All nodes are free
// and all lists empty. Node 4095 is pushed on list 63, on list 64 or on list 0, or node 0 on list 0, and then all is audited.
use crate::text::cut;
use std::io::{self, Stdout};

// Five words a list.
#[derive(Clone, Copy)]
struct Desk {
    words: [u32; 4097],
    lists: [u32; 325],
    marks: [u8; 4097],
}

// How much of a desk is lent.
#[derive(Clone, Copy)]
struct Sizes {
    nodes: usize,
    marks: usize,
    lists: u8,
}

// A line, run on what is lent.
fn step(out: Stdout, line: &str, sizes: Sizes, d: &mut Desk) -> io::Result<()> {
    let r = lent_desk::step_bytes(
        cut(&mut d.words, sizes.nodes),
        cut(&mut d.lists, 5 * sizes.lists as usize),
        cut(&mut d.marks, sizes.marks),
        line.as_bytes(),
    );
    println!(out; "{line} {} {} {}", r.number, r.first, r.second)
}

// What the lines leave of node 4095 and of list 63: word, mark, ends, cursor.
fn left(out: Stdout, d: &Desk) -> io::Result<()> {
    println!(out;
        "left {} {} | {} {} | {} {} {}",
        d.words[4095],
        d.marks[4095],
        d.lists[315],
        d.lists[316],
        d.lists[317],
        d.lists[318],
        d.lists[319]
    )
}

// A line and an audit on a desk of which so much is lent, with all marks 9.
fn one(out: Stdout, line: &str, sizes: Sizes) -> io::Result<()> {
    let mut d = Desk {
        words: [1u32; 4097],
        lists: [0u32; 325],
        marks: [9u8; 4097],
    };
    let Sizes {
        nodes,
        marks,
        lists,
    } = sizes;
    println!(out; "# desk: nodes {nodes}; marks {marks}; lists {lists}")?;
    step(out, line, sizes, &mut d)?;
    step(out, "1400000000", sizes, &mut d)?;
    left(out, &d)
}

pub(crate) fn run(out: Stdout) -> io::Result<()> {
    let full = Sizes {
        nodes: 4096,
        marks: 4096,
        lists: 64,
    };
    let more_nodes = Sizes {
        nodes: 4097,
        marks: 4097,
        ..full
    };
    let more_lists = Sizes { lists: 65, ..full };
    let less_marks = Sizes {
        marks: 4095,
        ..full
    };
    one(out, "113f000fff", full)?;
    one(out, "1140000fff", full)?;
    one(out, "113f000fff", more_nodes)?;
    one(out, "1100000000", more_nodes)?;
    one(out, "1100000fff", full)?;
    one(out, "113f000fff", more_lists)?;
    one(out, "113f000fff", less_marks)
}
