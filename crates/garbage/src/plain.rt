// The calls that are lent nothing: names and node numbers, refusals and answers, what takes no argument; from 19 of
// `CALLS`.
use crate::args;
use crate::line::Argument;
use crate::values::{Value, Values, answered, row};
use answers::Refusal;
use cursor::either;
use ends::Ends;
use words::link_ops::Link;
use words::names::{Name, Node};

// (A call for each: all in one row would be 24 values, where a call has 11 at the most, and would renumber the calls after it.)
fn refusal(code: usize) -> Refusal {
    match code {
        20 => Refusal::Size,
        21 => Refusal::NoSuchList,
        22 => Refusal::SameList,
        23 => Refusal::EndsDoNotHold,
        24 => Refusal::CursorDoesNotStand,
        25 => Refusal::NotEmpty,
        26 => Refusal::NoSuchNode,
        27 => Refusal::AtNull,
        28 => Refusal::AlreadyLinked,
        29 => Refusal::NoListing,
        30 => Refusal::Malformed,
        _ => Refusal::NoRoom,
    }
}

// What is made of no argument or of any, and one of two names.
fn made() -> Values {
    let e = Ends::empty();
    let t = Ends::new(Name(3), Name(4294967295)).turned();
    row(&[
        Link::new().0,
        e.head.0,
        e.tail.0,
        t.head.0,
        t.tail.0,
        either(true, Name(5), Name(7)).0,
        either(false, Name(5), Name(7)).0,
    ])
}

// A number as a length, as a node's number and as a word, the word against a pool of seven.
fn names(n: usize, x: u32) -> Values {
    let name = Name(x);
    row(&[
        Value::Flag(words::names::pool_fits(n)),
        Value::Number(Node(x).to_name().0),
        Value::Flag(name.is_null()),
        Value::Flag(name.in_range(7)),
        Value::Found(name.decode(7)),
        Value::Flag(Link(x).is_linked()),
    ])
}

pub(crate) fn call(code: usize, line: &[u8]) -> Values {
    match code {
        19 => names(
            args::length(line, Argument::Node),
            args::word(line, Argument::Node, 0, 1),
        ),
        20..=31 => answered(Err(refusal(code)), &[]),
        _ => made(),
    }
}
