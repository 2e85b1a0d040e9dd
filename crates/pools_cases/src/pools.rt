// A pool of 1,000,000 nodes that are all on one list, and the same with a node more, where each call is refused; that pool once
// more, with every other argument wrong too.
use crate::{show, text};
use cursor::{Cursor, EditedTwo};
use ends::Ends;
use iter::Iter;
use std::io::{self, Stdout};
use words::names::{Name, Node};

// What the calls are given: the list; a cursor at its first node, again after edits, and at the last node but one once the last
// is off; the first node, the last but one and the last; and an empty list.
#[derive(Clone, Copy)]
pub(crate) struct Args {
    ends: Ends,
    first: Cursor,
    again: Cursor,
    last: Cursor,
    low: Node,
    near: Node,
    high: Node,
    other: Ends,
}

// Pushes the nodes below `count` at the back of a list, which starts empty.
fn push_all(words: &mut [u32], count: u32) -> Ends {
    let mut ends = Ends::empty();
    for i in 0..count {
        ends = list::push_back(words, ends, Node(i)).ends;
    }
    ends
}

// The calls that are lent the words to read only and make a cursor.
fn cursors(out: Stdout, words: &[u32], a: Args) -> io::Result<()> {
    let Args {
        ends,
        first,
        near,
        high,
        ..
    } = a;
    show::edited(out, "front", list::front(words, ends))?;
    show::edited(out, "back", list::back(words, ends))?;
    show::edited(out, "move_next", moves::move_next(first, words, ends))?;
    show::edited(out, "move_prev", moves::move_prev(first, words, ends))?;
    show::edited(out, "peek_next", moves::peek_next(first, words, ends))?;
    show::edited(out, "peek_prev", moves::peek_prev(first, words, ends))?;
    show::edited(
        out,
        "place by prev",
        place::cursor_from_ptr_and_prev(words, ends, high, Some(near)),
    )?;
    show::edited(
        out,
        "place by next",
        place::cursor_from_ptr_and_next(words, ends, high, None),
    )
}

// Those on the list as a whole, and an iterator's two steps.
fn lists(out: Stdout, words: &[u32], ends: Ends, other: Ends) -> io::Result<()> {
    show::list_edited(out, "reverse", list::reverse(words, ends))?;
    show::list_edited(out, "fast_clear", list::fast_clear(words, ends))?;
    show::taken(out, list::take(words, ends, other))?;
    show::stepped(out, "next", Iter::new(ends).next(words))?;
    show::stepped(out, "next_back", Iter::new(ends).next_back(words))
}

// How many nodes the walk stands on.
fn walk_it(out: Stdout, words: &[u32], marks: &mut [u8], ends: Ends) -> io::Result<()> {
    let r = walk::walk::walk(words, marks, ends);
    println!(out; "walk {} {}", show::Answered(r.answer), r.count)
}

// Edits one after another, each on what the one before hands back. Accepted, the last node now comes after the first.
fn edits(out: Stdout, words: &mut [u32], a: Args) -> io::Result<Ends> {
    let popped = list::pop_back(words, a.ends);
    show::list_edited(out, "pop_back", popped)?;
    let replaced = remove::replace(a.first, words, popped.ends, a.high);
    show::edited(out, "replace", replaced)?;
    let pushed = list::push_front(words, replaced.ends, a.low);
    show::list_edited(out, "push_front", pushed)?;
    Ok(pushed.ends)
}

// The first node is taken off and put back. The cursor is at what was the last, and what is beyond it is moved out.
fn more_edits(out: Stdout, words: &mut [u32], ends: Ends, a: Args) -> io::Result<EditedTwo> {
    let removed = remove::remove(a.again, words, ends);
    show::edited(out, "remove", removed)?;
    let inserted = insert::insert_before(removed.cursor, words, removed.ends, a.low);
    show::edited(out, "insert_before", inserted)?;
    let split = split::split_after(inserted.cursor, words, inserted.ends, a.other);
    show::edited_two(out, "split_after", split)?;
    Ok(split)
}

// It is put before the cursor, so that all nodes are in their first order. Then what is ahead of the cursor is moved out and
// put after it.
fn parts(out: Stdout, words: &mut [u32], r: EditedTwo) -> io::Result<Ends> {
    let joined = splice::splice_before(r.cursor, words, r.ends, r.other);
    show::edited_two(out, "splice_before", joined)?;
    let split = split::split_before(joined.cursor, words, joined.ends, joined.other);
    show::edited_two(out, "split_before", split)?;
    let again = splice::splice_after(split.cursor, words, split.ends, split.other);
    show::edited_two(out, "splice_after", again)?;
    Ok(again.ends)
}

// The last node goes from the front to the back.
fn round(out: Stdout, words: &mut [u32], ends: Ends, a: Args) -> io::Result<Ends> {
    let popped = list::pop_front(words, ends);
    show::list_edited(out, "pop_front", popped)?;
    let placed = insert::insert_after(a.last, words, popped.ends, a.high);
    show::edited(out, "insert_after", placed)?;
    Ok(placed.ends)
}

fn clear_it(out: Stdout, words: &mut [u32], marks: &mut [u8], ends: Ends) -> io::Result<()> {
    let r = walk::clear::clear(words, marks, ends);
    show::list_edited(out, "clear", r)
}

fn changes(out: Stdout, words: &mut [u32], a: Args) -> io::Result<Ends> {
    let pushed = edits(out, words, a)?;
    let split = more_edits(out, words, pushed, a)?;
    let joined = parts(out, words, split)?;
    round(out, words, joined, a)
}

// What is left of words and marks, by their sums.
fn left(out: Stdout, words: &[u32], marks: &[u8]) -> io::Result<()> {
    println!(out;
        "left: words {}; marks {}",
        text::sum(words),
        text::sum(marks)
    )
}

// A list that is cleared has no ends that hold.
pub(crate) fn calls(out: Stdout, words: &mut [u32], marks: &mut [u8], a: Args) -> io::Result<()> {
    walk_it(out, words, marks, a.ends)?;
    cursors(out, words, a)?;
    lists(out, words, a.ends, a.other)?;
    let after = changes(out, words, a)?;
    walk_it(out, words, marks, after)?;
    clear_it(out, words, marks, after)?;
    walk_it(out, words, marks, after)?;
    left(out, words, marks)
}

// The calls on the first so many nodes and marks.
fn on(
    out: Stdout,
    words: &mut [u32],
    n: usize,
    marks: &mut [u8],
    m: usize,
    a: Args,
) -> io::Result<()> {
    println!(out; "# pool of {n}; marks {m}")?;
    calls(out, text::cut(words, n), text::cut(marks, m), a)
}

// Arguments that are right for the list of all nodes.
fn right(ends: Ends) -> Args {
    Args {
        ends,
        first: Cursor::new(Name(2), Name(0), Name(4)),
        again: Cursor::new(Name(2), Name(0), Name(2000000)),
        last: Cursor::new(Name(1999998), Name(1999996), Name(0)),
        low: Node(0),
        near: Node(999998),
        high: Node(999999),
        other: Ends::empty(),
    }
}

// Arguments that are right for the list 999999, 0, 48574.
pub(crate) fn three(ends: Ends) -> Args {
    Args {
        ends,
        first: Cursor::new(Name(2000000), Name(0), Name(2)),
        again: Cursor::new(Name(2000000), Name(0), Name(97150)),
        last: Cursor::new(Name(2), Name(2000000), Name(0)),
        low: Node(999999),
        near: Node(0),
        high: Node(48574),
        other: Ends::empty(),
    }
}

// Arguments that are wrong in every pool.
fn wrong() -> Args {
    let odd = Cursor::new(Name(3), Name(3), Name(3));
    Args {
        ends: Ends::new(Name(2), Name(0)),
        first: odd,
        again: odd,
        last: odd,
        low: Node(4000000000),
        near: Node(4000000000),
        high: Node(4000000000),
        other: Ends::new(Name(0), Name(2)),
    }
}

// The greater pool comes first, as nothing changes there. The words are all 1 before, and again after.
pub(crate) fn run(out: Stdout, words: &mut [u32], marks: &mut [u8]) -> io::Result<()> {
    let ends = push_all(text::cut(words, 1000000), 1000000);
    on(out, words, 1000001, marks, 0, wrong())?;
    on(out, words, 1000001, marks, 1000001, right(ends))?;
    on(out, words, 1000000, marks, 1000000, right(ends))
}
