// The calls that are lent the words to read only: 0 to 18 of `CALLS`.
use crate::args::Args;
use crate::line::Argument;
use crate::values::{Value, Values, answered, row, tested};
use crate::{args, plain, values};
use cursor::{Cursor, Edited};
use ends::Ends;
use iter::Iter;
use links::xor_ops::XorLinkedListOps;
use words::link_ops::LinkOps;

fn links(words: &[u32], c: Cursor) -> Values {
    row(&[
        Value::Number(LinkOps::get(words, c.current).0),
        Value::Flag(LinkOps::is_linked(words, c.current)),
        Value::Number(XorLinkedListOps::next(words, c.current, c.prev).0),
        Value::Number(XorLinkedListOps::prev(words, c.current, c.next).0),
    ])
}

fn tests(words: &[u32], a: Args) -> Values {
    let c = a.cursor;
    let stand = c.stand_test(words, a.ends);
    let null = Cursor::null(a.ends);
    row(&[
        Value::Flag(c.is_null()),
        Value::Found(c.node(words.len())),
        Value::Flag(c.stands(words, a.ends)),
        tested(stand),
        tested(c.node_test(words, a.ends, a.node)),
        tested(c.pair_test(words, a.ends, a.other)),
        tested(c.some_test(stand)),
        Value::Number(null.current.0),
        Value::Number(null.prev.0),
        Value::Number(null.next.0),
    ])
}

fn places(words: &[u32], a: Args) -> Values {
    let n = moves::next_place(a.cursor, words, a.ends);
    let p = moves::prev_place(a.cursor, words, a.ends);
    row(&[
        n.current.0,
        n.prev.0,
        n.next.0,
        p.current.0,
        p.prev.0,
        p.next.0,
    ])
}

fn list_tests(words: &[u32], e: Ends) -> Values {
    row(&[
        Value::Flag(e.is_empty()),
        Value::Flag(ends::tests::ends_hold(words, e)),
        tested(ends::tests::ends_test(words, e)),
    ])
}

// Moves, front and back, and places beside the neighbour or beside none.
fn looked(code: usize, words: &[u32], a: Args) -> Edited {
    let neighbour = Some(a.neighbour);
    match code {
        2 => moves::move_next(a.cursor, words, a.ends),
        3 => moves::move_prev(a.cursor, words, a.ends),
        4 => moves::peek_next(a.cursor, words, a.ends),
        5 => moves::peek_prev(a.cursor, words, a.ends),
        7 => list::front(words, a.ends),
        8 => list::back(words, a.ends),
        11 => place::cursor_from_ptr_and_prev(words, a.ends, a.node, neighbour),
        12 => place::cursor_from_ptr_and_next(words, a.ends, a.node, neighbour),
        13 => place::cursor_from_ptr_and_prev(words, a.ends, a.node, None),
        _ => place::cursor_from_ptr_and_next(words, a.ends, a.node, None),
    }
}

fn take(words: &[u32], ends: Ends, other: Ends) -> Values {
    let r = list::take(words, ends, other);
    answered(
        r.answer,
        &[r.ends.head, r.ends.tail, r.other.head, r.other.tail],
    )
}

// The iterator with any four words.
fn iterator(line: &[u8]) -> Iter {
    Iter {
        prev_head: args::name(line, Argument::Prev),
        head: args::name(line, Argument::Head),
        tail: args::name(line, Argument::Tail),
        next_tail: args::name(line, Argument::Next),
    }
}

// Turned; and one made of head and tail.
fn made(i: Iter) -> Values {
    let turned = i.turned();
    let new = Iter::new(Ends::new(i.head, i.tail));
    row(&[
        turned.prev_head.0,
        turned.head.0,
        turned.tail.0,
        turned.next_tail.0,
        new.prev_head.0,
        new.head.0,
        new.tail.0,
        new.next_tail.0,
    ])
}

// Bytes that tell the places of the records apart.
fn stamp(r: &mut [u8; 1000001]) {
    r[0] = 10;
    r[1] = 11;
    r[2] = 20;
    r[3] = 21;
    r[8] = 50;
    r[9] = 51;
    r[512] = 2;
    r[767] = 3;
}

// How long the part is, and its first and last byte if there is one.
fn read(words: &[u32], a: Args, len: usize, width: usize) -> Values {
    let mut all = [200u8; 1000001];
    stamp(&mut all);
    let records = args::first(&all, len);
    let part = records::read(a.cursor, words, a.ends, records, width);
    row(&[
        Value::Flag(records::records_fit(words.len(), width, records.len())),
        tested(records::read_test(a.cursor, words, a.ends, records, width)),
        Value::Number((part.len() % 4294967296) as u32),
        Value::Byte(part.first().copied()),
        Value::Byte(part.last().copied()),
    ])
}

pub(crate) fn call(code: usize, line: &[u8], a: Args, words: &[u32]) -> Values {
    match code {
        0 => tests(words, a),
        1 => places(words, a),
        2..=5 | 7 | 8 | 11..=14 => values::edited(looked(code, words, a)),
        6 => list_tests(words, a.ends),
        9 => take(words, a.ends, a.other),
        10 => links(words, a.cursor),
        15 => values::stepped(iterator(line).next(words)),
        16 => values::stepped(iterator(line).next_back(words)),
        17 => made(iterator(line)),
        18 => read(
            words,
            a,
            args::length(line, Argument::OtherHead),
            args::length(line, Argument::OtherTail),
        ),
        _ => plain::call(code, line),
    }
}
