// The greatest node of the greatest pool, and the greatest word that a pool can hold: that of node 0 on the list 999999, 0, 48574.
use crate::{pools, show, text};
use cursor::{Cursor, Edited};
use ends::Ends;
use std::io::{self, Stdout};
use words::link_ops::LinkOps;
use words::names::{Name, Node};

// A push at the back of a pool of so many nodes, and the words that it leaves in the three nodes.
fn push(out: Stdout, words: &mut [u32], n: usize, ends: Ends, node: u32) -> io::Result<Ends> {
    let r = list::push_back(text::cut(words, n), ends, Node(node));
    println!(out;
        "push_back: nodes {n}; node {node}: {} | {} | {} {} {}",
        answers::number(r.answer),
        show::Both(r.ends),
        LinkOps::get(words, Name(2000000)).0,
        LinkOps::get(words, Name(2)).0,
        LinkOps::get(words, Name(97150)).0
    )?;
    Ok(r.ends)
}

// Four moves, on or back: from null along the list to null.
fn along<F: Fn(Cursor, &[u32], Ends) -> Edited>(
    out: Stdout,
    call: &str,
    go: F,
    words: &[u32],
    ends: Ends,
) -> io::Result<()>
    requires { F.IsAlwaysCallable go }
{
    let mut c = Cursor::null(ends);
    for _ in 0..4 {
        let r = go(c, words, ends);
        show::edited(out, call, r)?;
        c = r.cursor;
    }
    Ok(())
}

// The audit of this one list, with all marks 9 before it, and the marks of the three nodes.
fn audited(out: Stdout, words: &[u32], marks: &mut [u8], ends: Ends) -> io::Result<()> {
    marks.fill(9);
    let r = audit::audit(words, &[ends.head.0], &[ends.tail.0], marks);
    println!(out;
        "audit {}; list {}; on lists {}; stranded {} | {} {} {}",
        answers::number(r.answer),
        r.list,
        r.on_lists,
        r.stranded,
        text::mark(marks, 999999),
        text::mark(marks, 0),
        text::mark(marks, 48574)
    )
}

// Moves, the audit and then all calls on the list, in a pool of so many nodes.
fn on(out: Stdout, words: &mut [u32], n: usize, marks: &mut [u8], ends: Ends) -> io::Result<()> {
    println!(out; "# pool of {n}; marks {n}")?;
    let read = text::first(words, n);
    along(out, "move_next", moves::move_next, read, ends)?;
    along(out, "move_prev", moves::move_prev, read, ends)?;
    audited(out, read, text::cut(marks, n), ends)?;
    pools::calls(
        out,
        text::cut(words, n),
        text::cut(marks, n),
        pools::three(ends),
    )
}

// The words are all 1 before, and again after.
pub(crate) fn run(out: Stdout, words: &mut [u32], marks: &mut [u8]) -> io::Result<()> {
    let none = Ends::empty();
    push(out, words, 1000001, Ends::new(Name(2), Name(0)), 4000000000)?;
    push(out, words, 1000001, none, 999999)?;
    let one = push(out, words, 1000000, none, 999999)?;
    push(out, words, 1000000, one, 1000000)?;
    let two = push(out, words, 1000000, one, 0)?;
    let all = push(out, words, 1000000, two, 48574)?;
    on(out, words, 1000001, marks, all)?;
    on(out, words, 1000000, marks, all)
}
