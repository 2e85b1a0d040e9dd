// Splices: the whole other list goes beside the cursor's node, or to the front or the back where the cursor is at null.
#![tactic(auto)]

ghost use Rattle.std.specs.Prelude.{◌≡◌};
ghost use Rattle.words.specs.Pool.{outcome};
ghost use Rattle.splice.specs.Splices.{spliced_after, spliced_before, splice_after, splice_before};

use cursor::{Cursor, EditedTwo, either};
use ends::Ends;
use links::between::splice_between;

// The steps of splice after, of a list that is not empty.
#[tactic(auto, unfolding(crate::specs::Splices::spliced_after))]
fn join_after(words: &mut [u32], ends: Ends, cursor: Cursor, other: Ends) -> EditedTwo
    ensures { outcome words.new result ≡ spliced_after words.old ends cursor other }
{
    splice_between(words, other.head, other.tail, cursor.current, cursor.next);
    let tail = either(ends.tail == cursor.current, other.tail, ends.tail);
    if cursor.is_null() {
        let front = Ends::new(other.head, tail);
        return EditedTwo::new(Ok(None), front, Cursor::null(front), Ends::empty());
    }
    let beside = Ends::new(ends.head, tail);
    let c = Cursor::new(cursor.current, cursor.prev, other.head);
    EditedTwo::new(Ok(None), beside, c, Ends::empty())
}

// The steps of splice before, of a list that is not empty.
#[tactic(auto, unfolding(crate::specs::Splices::spliced_before))]
fn join_before(words: &mut [u32], ends: Ends, cursor: Cursor, other: Ends) -> EditedTwo
    ensures { outcome words.new result ≡ spliced_before words.old ends cursor other }
{
    splice_between(words, other.head, other.tail, cursor.prev, cursor.current);
    let head = either(ends.head == cursor.current, other.head, ends.head);
    if cursor.is_null() {
        let back = Ends::new(head, other.tail);
        return EditedTwo::new(Ok(None), back, Cursor::null(back), Ends::empty());
    }
    let beside = Ends::new(head, ends.tail);
    let c = Cursor::new(cursor.current, other.tail, cursor.next);
    EditedTwo::new(Ok(None), beside, c, Ends::empty())
}

#[tactic(auto, unfolding(crate::specs::Splices::splice_after))]
pub fn splice_after(cursor: Cursor, words: &mut [u32], ends: Ends, other: Ends) -> EditedTwo
    ensures { outcome words.new result ≡ splice_after words.old ends cursor other }
{
    if let Err(refusal) = cursor.pair_test(words, ends, other) {
        return EditedTwo::new(Err(refusal), ends, cursor, other);
    }
    if other.is_empty() {
        return EditedTwo::new(Ok(None), ends, cursor, other);
    }
    join_after(words, ends, cursor, other)
}

#[tactic(auto, unfolding(crate::specs::Splices::splice_before))]
pub fn splice_before(cursor: Cursor, words: &mut [u32], ends: Ends, other: Ends) -> EditedTwo
    ensures { outcome words.new result ≡ splice_before words.old ends cursor other }
{
    if let Err(refusal) = cursor.pair_test(words, ends, other) {
        return EditedTwo::new(Err(refusal), ends, cursor, other);
    }
    if other.is_empty() {
        return EditedTwo::new(Ok(None), ends, cursor, other);
    }
    join_before(words, ends, cursor, other)
}
