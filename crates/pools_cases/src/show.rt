// Printing: what a call hands back, as one line of short text on standard output.
use answers::Answer;
use cursor::{Cursor, Edited, EditedTwo};
use ends::Ends;
use iter::Stepped;
use list::{ListEdited, Taken};
use std::fmt::{self, Display, Formatter, Write};
use std::io::{self, Stdout};

// An answer's number, and the node that it hands out, or a dash.
#[derive(Clone, Copy)]
pub(crate) struct Answered(pub(crate) Answer);

impl Display for Answered {
    fn fmt<W: Write>(&self, f: &mut Formatter<W>) -> fmt::Result {
        let number = answers::number(self.0);
        match answers::handed(self.0) {
            Some(node) => write!(f, "{number} {}", node.0),
            None => write!(f, "{number} -"),
        }
    }
}

// The ends' two words.
#[derive(Clone, Copy)]
pub(crate) struct Both(pub(crate) Ends);

impl Display for Both {
    fn fmt<W: Write>(&self, f: &mut Formatter<W>) -> fmt::Result {
        write!(f, "{} {}", self.0.head.0, self.0.tail.0)
    }
}

// The cursor's three words.
#[derive(Clone, Copy)]
struct Place(Cursor);

impl Display for Place {
    fn fmt<W: Write>(&self, f: &mut Formatter<W>) -> fmt::Result {
        let cursor = self.0;
        write!(
            f,
            "{} {} {}",
            cursor.current.0, cursor.prev.0, cursor.next.0
        )
    }
}

pub(crate) fn edited(out: Stdout, call: &str, r: Edited) -> io::Result<()> {
    println!(out;
        "{call} {} | {} | {}",
        Answered(r.answer),
        Both(r.ends),
        Place(r.cursor)
    )
}

pub(crate) fn edited_two(out: Stdout, call: &str, r: EditedTwo) -> io::Result<()> {
    println!(out;
        "{call} {} | {} | {} | {}",
        Answered(r.answer),
        Both(r.ends),
        Place(r.cursor),
        Both(r.other)
    )
}

pub(crate) fn list_edited(out: Stdout, call: &str, r: ListEdited) -> io::Result<()> {
    println!(out; "{call} {} | {}", Answered(r.answer), Both(r.ends))
}

pub(crate) fn taken(out: Stdout, r: Taken) -> io::Result<()> {
    println!(out;
        "take {} | {} | {}",
        Answered(r.answer),
        Both(r.ends),
        Both(r.other)
    )
}

pub(crate) fn stepped(out: Stdout, call: &str, r: Stepped) -> io::Result<()> {
    let i = r.iter;
    println!(out;
        "{call} {} | {} {} {} {}",
        Answered(r.answer),
        i.prev_head.0,
        i.head.0,
        i.tail.0,
        i.next_tail.0
    )
}
