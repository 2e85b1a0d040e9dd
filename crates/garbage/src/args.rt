// Arguments of any value, pools and marks, taken from a line.
ghost use Rattle.std.specs.Prelude.{◌≡◌, take};

use crate::line::{Argument, number};
use cursor::Cursor;
use ends::Ends;
use words::names::{Name, Node};

#[derive(Clone, Copy)]
pub(crate) struct Args {
    pub(crate) ends: Ends,
    pub(crate) cursor: Cursor,
    pub(crate) node: Node,
    pub(crate) neighbour: Node,
    pub(crate) other: Ends,
}

// The lowest 32 bits of an argument, or of the number so many words after it; if it is not given, another.
pub(crate) fn word(line: &[u8], argument: Argument, after: usize, none: u32) -> u32 {
    number(line, argument, after).map_or(none, |n| (n % 4294967296) as u32)
}

pub(crate) fn name(line: &[u8], argument: Argument) -> Name {
    Name(word(line, argument, 0, 1))
}

fn node(line: &[u8], argument: Argument) -> Node {
    Node(word(line, argument, 0, 1))
}

// How many of something are lent, or how wide it is; 1 if it is not given.
pub(crate) fn length(line: &[u8], argument: Argument) -> usize {
    number(line, argument, 0).unwrap_or(1)
}

// A claimed neighbour is given where other calls have the head of the other list.
pub(crate) fn of(line: &[u8]) -> Args {
    Args {
        ends: Ends::new(name(line, Argument::Head), name(line, Argument::Tail)),
        cursor: Cursor::new(
            name(line, Argument::Current),
            name(line, Argument::Prev),
            name(line, Argument::Next),
        ),
        node: node(line, Argument::Node),
        neighbour: node(line, Argument::OtherHead),
        other: Ends::new(
            name(line, Argument::OtherHead),
            name(line, Argument::OtherTail),
        ),
    }
}

// The lent words become arguments, one or two words of the line apart.
pub(crate) fn words(s: &mut [u32], line: &[u8], argument: Argument, apart: usize, none: u32) {
    for (i, w) in s.iter_mut().enumerate() {
        *w = word(line, argument, i.saturating_mul(apart), none);
    }
}

// The lent marks become those that are given, and 9 where none is.
pub(crate) fn marks(s: &mut [u8], line: &[u8]) {
    for (i, mark) in s.iter_mut().enumerate() {
        *mark = (word(line, Argument::FirstMark, i, 9) % 256) as u8;
    }
}

// The heads of the line's four lists, or their tails, and of empty lists after them; and how many of them are lent.
#[derive(Clone, Copy)]
pub(crate) struct Side {
    pub(crate) names: [u32; 66],
    len: usize,
}

impl Side {
    pub(crate) fn lent(&self) -> &[u32] {
        first(&self.names, self.len)
    }
}

fn of_side(line: &[u8], argument: Argument, len: Argument) -> Side {
    let mut names = [0u32; 66];
    words(&mut names[..4], line, argument, 2, 0);
    Side {
        names,
        len: length(line, len),
    }
}

pub(crate) fn heads(line: &[u8]) -> Side {
    of_side(line, Argument::Current, Argument::Head)
}

pub(crate) fn tails(line: &[u8]) -> Side {
    of_side(line, Argument::Prev, Argument::Tail)
}

// The first so many to change, or all. (Each program has its own: a crate for the three programs would be a
// library to keep, for a line.)
pub(crate) fn cut<T>(s: &mut [T], n: usize) -> &mut [T] {
    let n = n.min(s.len());
    &mut s[..n]
}

// The first so many, or all. (`pools_cases` has its own: a crate for the two would be a library to keep, for a line.)
pub(crate) fn first<T>(s: &[T], n: usize) -> &[T]
    ensures { result.now ≡ take n s.now }
{
    &s[..n.min(s.len())]
}
