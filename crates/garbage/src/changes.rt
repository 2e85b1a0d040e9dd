// The calls that may change the words: 33 to 53 of the table.
use crate::args::Args;
use crate::values;
use crate::values::{Value, Values};
use cursor::{Cursor, Edited, EditedTwo};
use links::between;
use links::xor_ops::XorLinkedListOps;
use list::ListEdited;
use words::link_ops::LinkOps;
use words::names::Name;

// The steps on words, at the cursor's three names. The node's number is the name of the end of a splice.
fn step(code: usize, words: &mut [u32], c: Cursor, end: u32) -> Values {
    match code {
        33 => return values::row(&[Value::Flag(LinkOps::acquire_link(words, c.current))]),
        34 => LinkOps::release_link(words, c.current),
        35 => XorLinkedListOps::set(words, c.current, c.prev, c.next),
        36 => XorLinkedListOps::replace_next_or_prev(words, c.current, c.prev, c.next),
        37 => between::link_between(words, c.current, c.prev, c.next),
        _ => between::splice_between(words, c.current, Name(end), c.prev, c.next),
    }
    values::NONE
}

fn edited(code: usize, words: &mut [u32], a: Args) -> Edited {
    match code {
        39 => insert::insert_after(a.cursor, words, a.ends, a.node),
        40 => insert::insert_before(a.cursor, words, a.ends, a.node),
        41 => remove::unlink(words, a.ends, a.cursor),
        42 => remove::remove(a.cursor, words, a.ends),
        _ => remove::replace(a.cursor, words, a.ends, a.node),
    }
}

fn edited_two(code: usize, words: &mut [u32], a: Args) -> EditedTwo {
    match code {
        44 => splice::splice_after(a.cursor, words, a.ends, a.other),
        45 => splice::splice_before(a.cursor, words, a.ends, a.other),
        46 => split::split_after(a.cursor, words, a.ends, a.other),
        _ => split::split_before(a.cursor, words, a.ends, a.other),
    }
}

fn list_edited(code: usize, words: &mut [u32], a: Args) -> ListEdited {
    match code {
        48 => list::fast_clear(words, a.ends),
        49 => list::reverse(words, a.ends),
        50 => list::push_front(words, a.ends, a.node),
        51 => list::push_back(words, a.ends, a.node),
        52 => list::pop_front(words, a.ends),
        _ => list::pop_back(words, a.ends),
    }
}

pub(crate) fn call(code: usize, a: Args, words: &mut [u32]) -> Values {
    match code {
        33..=38 => step(code, words, a.cursor, a.node.0),
        39..=43 => values::edited(edited(code, words, a)),
        44..=47 => values::edited_two(edited_two(code, words, a)),
        _ => values::list_edited(list_edited(code, words, a)),
    }
}
