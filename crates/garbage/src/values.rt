// What a call hands back, as values in the order in which they are shown.
use answers::{Answer, Refusal};
use cursor::{Cursor, Edited, EditedTwo};
use ends::Ends;
use iter::Stepped;
use list::ListEdited;
use std::fmt::{self, Display, Formatter, Write};
use words::names::{Name, Node};

// Each is shown after a blank: a number; yes or no; a node, or a dash; a byte, or nothing.
#[derive(Clone, Copy)]
pub(crate) enum Value {
    Number(u32),
    Flag(bool),
    Found(Option<Node>),
    Byte(Option<u8>),
}

// The most values that a call hands back. Those after its own are 0 and are not shown: its text has a # for each of its own.
pub(crate) type Values = [Value; 11];

pub(crate) const NONE: Values = [Value::Number(0); 11];

impl From<u32> for Value {
    fn from(n: u32) -> Value {
        Value::Number(n)
    }
}

impl From<Name> for Value {
    fn from(name: Name) -> Value {
        Value::Number(name.0)
    }
}

impl Display for Value {
    fn fmt<W: Write>(&self, f: &mut Formatter<W>) -> fmt::Result {
        match *self {
            Value::Number(n) => write!(f, " {n}"),
            Value::Flag(true) => f.write_str(" yes"),
            Value::Flag(false) => f.write_str(" no"),
            Value::Found(Some(node)) => write!(f, " {}", node.0),
            Value::Found(None) => f.write_str(" -"),
            Value::Byte(Some(b)) => write!(f, " {b}"),
            Value::Byte(None) => Ok(()),
        }
    }
}

// The slots become the values.
fn put<T: Copy + Into<Value>>(slots: &mut [Value], values: &[T]) {
    for (slot, value) in slots.iter_mut().zip(values) {
        *slot = (*value).into();
    }
}

// The values of a call that hands back values, numbers or names.
pub(crate) fn row<T: Copy + Into<Value>>(values: &[T]) -> Values {
    let mut row = NONE;
    put(&mut row, values);
    row
}

// An answer's number and the node that it hands out, and names.
pub(crate) fn answered(answer: Answer, names: &[Name]) -> Values {
    let mut row = row(&[
        Value::Number(answers::number(answer)),
        Value::Found(answers::handed(answer)),
    ]);
    put(&mut row[2..], names);
    row
}

pub(crate) fn edited(r: Edited) -> Values {
    let Cursor {
        current,
        prev,
        next,
    } = r.cursor;
    answered(r.answer, &[r.ends.head, r.ends.tail, current, prev, next])
}

pub(crate) fn edited_two(r: EditedTwo) -> Values {
    let Cursor {
        current,
        prev,
        next,
    } = r.cursor;
    let Ends { head, tail } = r.other;
    answered(
        r.answer,
        &[r.ends.head, r.ends.tail, current, prev, next, head, tail],
    )
}

pub(crate) fn list_edited(r: ListEdited) -> Values {
    answered(r.answer, &[r.ends.head, r.ends.tail])
}

pub(crate) fn stepped(r: Stepped) -> Values {
    let i = r.iter;
    answered(r.answer, &[i.prev_head, i.head, i.tail, i.next_tail])
}

// A test's number: 0 if it is passed.
pub(crate) fn tested(test: Result<(), Refusal>) -> Value {
    Value::Number(answers::number(answers::answered(test)))
}
