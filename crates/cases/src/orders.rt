// Orders that are handed in without a line: with an unknown command, with something in a field that the command does not use, or
// with numbers that no line can say. Nodes 0 and 1 are on list 0, whose cursor is at 0; list 1 is empty.
use crate::text::cut;
use cursor::Cursor;
use desk::{Row, Worked};
use ends::Ends;
use lines::line::Order;
use std::fmt::{self, Display, Formatter, Write};
use std::io::{self, Stdout};
use words::link_ops::LinkOps;
use words::names::Name;

// Three nodes, two lists.
#[derive(Clone, Copy)]
struct Small {
    words: [u32; 3],
    lists: [u32; 10],
    marks: [u8; 3],
}

// The order's four numbers.
#[derive(Clone, Copy)]
struct Said(Order);

impl Display for Said {
    fn fmt<W: Write>(&self, f: &mut Formatter<W>) -> fmt::Result {
        let o = self.0;
        write!(f, "{} {} {} {}", o.code, o.list, o.other, o.node)
    }
}

// What a command answers, and the ends and the cursor of the named list.
#[derive(Clone, Copy)]
struct Outcome(Worked);

impl Display for Outcome {
    fn fmt<W: Write>(&self, f: &mut Formatter<W>) -> fmt::Result {
        let Row { ends, cursor } = self.0.named;
        write!(
            f,
            "{} | {} {} | {} {} {}",
            answers::number(self.0.answer),
            ends.head.0,
            ends.tail.0,
            cursor.current.0,
            cursor.prev.0,
            cursor.next.0
        )
    }
}

// An order on the lent desk.
fn step(out: Stdout, order: Order, d: &mut Small) -> io::Result<()> {
    let r = lent_desk::step(&mut d.words, &mut d.lists, &mut d.marks, Some(order));
    println!(out;
        "order {}: {} {} {}",
        Said(order),
        r.number,
        r.first,
        r.second
    )
}

// What it leaves: words, list 0, marks.
fn left(out: Stdout, d: &Small) -> io::Result<()> {
    let [a, b, c] = d.words;
    let [head, tail, current, prev, next, ..] = d.lists;
    let [x, y, z] = d.marks;
    println!(out; "left {a} {b} {c} | {head} {tail} {current} {prev} {next} | {x} {y} {z}")
}

// (Four numbers and no order: so a call of it is a line.)
fn one(out: Stdout, code: u32, list: u32, other: u32, node: u32) -> io::Result<()> {
    let mut d = Small {
        words: [4, 2, 1],
        lists: [2, 4, 2, 0, 4, 0, 0, 0, 0, 0],
        marks: [9u8; 3],
    };
    let order = Order {
        code,
        list,
        other,
        node,
    };
    step(out, order, &mut d)?;
    left(out, &d)
}

// List 0, with its cursor.
fn named() -> Row {
    Row {
        ends: Ends::new(Name(2), Name(4)),
        cursor: Cursor::new(Name(2), Name(0), Name(4)),
    }
}

// List 1.
fn other() -> Row {
    let ends = Ends::empty();
    Row {
        ends,
        cursor: Cursor::null(ends),
    }
}

// An order on so many words and on the two lists: its number, and the named list. It is the line that has the desk's limit;
// here the pool's is tested. (Four numbers and no order, as `one`.)
fn work(
    out: Stdout,
    words: &mut [u32],
    n: usize,
    code: u32,
    list: u32,
    with: u32,
    node: u32,
) -> io::Result<()> {
    let order = Order {
        code,
        list,
        other: with,
        node,
    };
    let r = desk::work::work(cut(words, n), named(), other(), order);
    println!(out; "work: nodes {n}; order {}: {}", Said(order), Outcome(r))
}

// Clear, on so many words and marks.
fn clear(out: Stdout, words: &mut [u32], marks: &mut [u8], n: usize) -> io::Result<()> {
    let r = desk::work::clear(cut(words, n), cut(marks, n), named(), other());
    println!(out; "clear: nodes {n}: {}", Outcome(r))
}

fn works(out: Stdout, words: &mut [u32]) -> io::Result<()> {
    work(out, words, 1000001, 5, 1, 1, 0)?;
    work(out, words, 1000000, 5, 1, 1, 0)?;
    work(out, words, 4097, 5, 1, 1, 0)?;
    work(out, words, 1000001, 13, 0, 0, 0)?;
    work(out, words, 1000000, 13, 0, 0, 0)?;
    work(out, words, 1000000, 20, 0, 0, 0)?;
    work(out, words, 1000000, 5, 1, 1, 7)?;
    work(out, words, 1000001, 9, 0, 0, 0)?;
    work(out, words, 1000000, 9, 0, 0, 0)?;
    work(out, words, 4097, 9, 0, 0, 0)
}

pub(crate) fn run(out: Stdout, words: &mut [u32], marks: &mut [u8]) -> io::Result<()> {
    one(out, 20, 9, 0, 0)?;
    one(out, 99, 200, 0, 0)?;
    one(out, 3, 0, 200, 0)?;
    one(out, 9, 300, 0, 0)?;
    one(out, 1, 0, 0, 70000)?;
    one(out, 9, 0, 0, 0)?;
    LinkOps::put(words, Name(2), 4);
    LinkOps::put(words, Name(4), 2);
    works(out, words)?;
    clear(out, words, marks, 1000001)?;
    clear(out, words, marks, 1000000)
}
