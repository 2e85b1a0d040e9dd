// One command on lent words and on the lists that it names, which are handed in and back by value.
ghost use Rattle.std.specs.Prelude.{◌≡◌, Err};
ghost use Rattle.words.specs.Pool.{outcome};
ghost use Rattle.walk.specs.Marks.{marking};
ghost use Rattle.desk.specs.Work.{worked, nulled, at_cursor, on_list, on_both, taking, to_null, by_code, on_rows, is_work, work_of, clearing};
ghost use Rattle.desk.specs.Step.{command};

use crate::{Row, Worked};
use answers::{Answer, Refusal};
use cursor::{Cursor, Edited, EditedTwo};
use ends::Ends;
use lines::line::{Order, right_fields, same_list};
use list::ListEdited;
use words::names::{Node, pool_fits};

// The code of clear, and of the audit: the two commands that want marks.
pub const CLEAR: u32 = 13;

pub const AUDIT: u32 = 20;

// The list after a call on it as a whole: done, its cursor is null; refused, it is as it was.
fn nulled(answer: Answer, before: Row, ends: Ends) -> Row
    ensures { result ≡ nulled answer before ends }
{
    if answer.is_err() {
        return before;
    }
    Row {
        ends,
        cursor: Cursor::null(ends),
    }
}

// After a call at the cursor.
#[tactic(auto, unfolding(crate::specs::Work::at_cursor))]
fn at_cursor(r: Edited, other: Row) -> Worked
    ensures { result ≡ at_cursor r other }
{
    Worked {
        answer: r.answer,
        named: Row {
            ends: r.ends,
            cursor: r.cursor,
        },
        other,
    }
}

// After a call on the list.
#[tactic(auto, unfolding(crate::specs::Work::on_list))]
fn on_list(r: ListEdited, named: Row, other: Row) -> Worked
    ensures { result ≡ on_list r named other }
{
    Worked {
        answer: r.answer,
        named: nulled(r.answer, named, r.ends),
        other,
    }
}

// After a call on two lists at the cursor of one: done, the other's cursor is null.
#[tactic(auto, unfolding(crate::specs::Work::on_both))]
fn on_both(r: EditedTwo, other: Row) -> Worked
    ensures { result ≡ on_both r other }
{
    Worked {
        answer: r.answer,
        named: Row {
            ends: r.ends,
            cursor: r.cursor,
        },
        other: nulled(r.answer, other, r.other),
    }
}

// Refused, nothing has changed.
fn refused(refusal: Refusal, named: Row, other: Row) -> Worked
    ensures { result ≡ worked (Err refusal) named other }
{
    Worked {
        answer: Err(refusal),
        named,
        other,
    }
}

// Take: done, both cursors are null.
#[tactic(auto, unfolding(crate::specs::Work::taking))]
fn take(words: &[u32], named: Row, other: Row) -> Worked
    ensures { result ≡ taking words.now named other }
{
    let r = list::take(words, named.ends, other.ends);
    Worked {
        answer: r.answer,
        named: nulled(r.answer, named, r.ends),
        other: nulled(r.answer, other, r.other),
    }
}

// The cursor to null.
#[tactic(auto, unfolding(crate::specs::Work::to_null))]
fn to_null(words: &[u32], named: Row, other: Row) -> Worked
    ensures { result ≡ to_null words.now named other }
{
    if let Err(refusal) = ends::tests::ends_test(words, named.ends) {
        return refused(refusal, named, other);
    }
    Worked {
        answer: Ok(None),
        named: nulled(Ok(None), named, named.ends),
        other,
    }
}

// The command by its code, with the node field of its line. A code that is none of these is 11. It is not told which lists of a
// desk it is given, so 3 is the caller's to test.
// (Numbers and no enum: the code of an order may be any number, and an enum would be a second switch on each line.)
#[tactic(auto, unfolding(crate::specs::Work::by_code))]
pub fn by_code(words: &mut [u32], named: Row, other: Row, code: u32, node: u32) -> Worked
    ensures { outcome words.new result ≡ by_code code words.old named other (record { 0 = node }) }
{
    let node = Node(node);
    let Row { ends: e, cursor: c } = named;
    let o = other.ends;
    match code {
        1 => at_cursor(insert::insert_after(c, words, e, node), other),
        2 => at_cursor(insert::insert_before(c, words, e, node), other),
        3 => at_cursor(remove::remove(c, words, e), other),
        4 => at_cursor(remove::replace(c, words, e, node), other),
        5 => on_both(splice::splice_after(c, words, e, o), other),
        6 => on_both(splice::splice_before(c, words, e, o), other),
        7 => on_both(split::split_after(c, words, e, o), other),
        8 => on_both(split::split_before(c, words, e, o), other),
        9 => at_cursor(moves::move_next(c, words, e), other),
        10 => at_cursor(moves::move_prev(c, words, e), other),
        11 => on_list(list::reverse(words, e), named, other),
        12 => take(words, named, other),
        14 => on_list(list::fast_clear(words, e), named, other),
        15 => to_null(words, named, other),
        16 => on_list(list::push_front(words, e, node), named, other),
        17 => on_list(list::push_back(words, e, node), named, other),
        18 => on_list(list::pop_front(words, e), named, other),
        19 => on_list(list::pop_back(words, e), named, other),
        _ => refused(Refusal::Malformed, named, other),
    }
}

// 3, and then the command.
#[tactic(auto, unfolding(crate::specs::Work::on_rows))]
fn on_rows(words: &mut [u32], named: Row, other: Row, order: Order) -> Worked
    ensures { outcome words.new result ≡ on_rows words.old named other order }
{
    if same_list(order) {
        return refused(Refusal::SameList, named, other);
    }
    by_code(words, named, other, order.code, order.node)
}

// The fields are right, and the command follows no chain.
#[tactic(auto, unfolding(crate::specs::Work::is_work))]
fn is_work(order: Order) -> bool
    ensures { result ≡ is_work order }
{
    right_fields(order) & (order.code != CLEAR) & (order.code != AUDIT)
}

// Any command on lists but clear: none of them follows a chain. 11, 1 and 3 are tested here, and the rest by the calls.
#[tactic(auto, unfolding(crate::specs::Work::work_of))]
pub fn work(words: &mut [u32], named: Row, other: Row, order: Order) -> Worked
    ensures { outcome words.new result ≡ work_of words.old named other order }
{
    if !is_work(order) {
        return refused(Refusal::Malformed, named, other);
    }
    if !pool_fits(words.len()) {
        return refused(Refusal::Size, named, other);
    }
    on_rows(words, named, other, order)
}

// Clear, which walks the list and wants marks for it.
#[tactic(auto, unfolding(crate::specs::Work::clearing, crate::specs::Work::on_list))]
pub fn clear(words: &mut [u32], marks: &mut [u8], named: Row, other: Row) -> Worked
    ensures { outcome words.new (marking marks.new result) ≡ clearing words.old marks.old named other }
{
    on_list(walk::clear::clear(words, marks, named.ends), named, other)
}

// A command on lists, once 11, 1 and 2 are tested: clear, or one that follows no chain and so wants no marks, after 3.
#[tactic(auto, unfolding(crate::specs::Step::command))]
pub fn command(words: &mut [u32], marks: &mut [u8], named: Row, other: Row, order: Order) -> Worked
    ensures { outcome words.new (marking marks.new result) ≡ command words.old marks.old named other order }
{
    if order.code == CLEAR {
        return clear(words, marks, named, other);
    }
    on_rows(words, named, other, order)
}
