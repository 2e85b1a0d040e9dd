// Splits: the part beyond, or ahead of, the cursor's node moves out into the other list; at null everything does.
#![tactic(auto)]

ghost use Rattle.std.specs.Prelude.{◌≡◌};
ghost use Rattle.words.specs.Pool.{outcome};
ghost use Rattle.cursor.specs.Cursor.{split_test};
ghost use Rattle.split.specs.Splits.{cut_after, cut_before, cut_at_null, split_after, split_before};

use answers::Refusal;
use cursor::{Cursor, EditedTwo, either};
use ends::Ends;
use links::xor_ops::XorLinkedListOps;
use words::names::Name;

// At null: everything moves out, and the cursor is the null cursor of an empty list.
#[tactic(auto, unfolding(crate::specs::Splits::cut_at_null))]
fn part_all(ends: Ends) -> EditedTwo
    ensures { result ≡ cut_at_null ends }
{
    let empty = Ends::empty();
    EditedTwo::new(Ok(None), empty, Cursor::null(empty), ends)
}

// The steps of split after, at a node.
#[tactic(auto, unfolding(crate::specs::Splits::cut_after))]
fn part_after(words: &mut [u32], ends: Ends, cursor: Cursor) -> EditedTwo
    ensures { outcome words.new result ≡ cut_after words.old ends cursor }
{
    XorLinkedListOps::replace_next_or_prev(words, cursor.next, cursor.current, Name::NULL);
    XorLinkedListOps::set(words, cursor.current, cursor.prev, Name::NULL);
    let stays = Ends::new(ends.head, cursor.current);
    let c = Cursor::new(cursor.current, cursor.prev, Name::NULL);
    let tail = either(cursor.next.is_null(), Name::NULL, ends.tail);
    EditedTwo::new(Ok(None), stays, c, Ends::new(cursor.next, tail))
}

// The steps of split before, at a node.
#[tactic(auto, unfolding(crate::specs::Splits::cut_before))]
fn part_before(words: &mut [u32], ends: Ends, cursor: Cursor) -> EditedTwo
    ensures { outcome words.new result ≡ cut_before words.old ends cursor }
{
    XorLinkedListOps::replace_next_or_prev(words, cursor.prev, cursor.current, Name::NULL);
    XorLinkedListOps::set(words, cursor.current, Name::NULL, cursor.next);
    let stays = Ends::new(cursor.current, ends.tail);
    let c = Cursor::new(cursor.current, Name::NULL, cursor.next);
    let head = either(cursor.prev.is_null(), Name::NULL, ends.head);
    EditedTwo::new(Ok(None), stays, c, Ends::new(head, cursor.prev))
}

// The tests of a split: those of a call on two lists, then 6.
#[tactic(auto, unfolding(cursor::specs::Cursor::split_test))]
fn split_test(cursor: Cursor, words: &[u32], ends: Ends, other: Ends) -> Result<(), Refusal>
    ensures { result ≡ split_test words.now ends cursor other }
{
    cursor.pair_test(words, ends, other)?;
    if !other.is_empty() {
        return Err(Refusal::NotEmpty);
    }
    Ok(())
}

#[tactic(auto, unfolding(crate::specs::Splits::split_after))]
pub fn split_after(cursor: Cursor, words: &mut [u32], ends: Ends, other: Ends) -> EditedTwo
    ensures { outcome words.new result ≡ split_after words.old ends cursor other }
{
    if let Err(refusal) = split_test(cursor, words, ends, other) {
        return EditedTwo::new(Err(refusal), ends, cursor, other);
    }
    if cursor.is_null() {
        return part_all(ends);
    }
    part_after(words, ends, cursor)
}

#[tactic(auto, unfolding(crate::specs::Splits::split_before))]
pub fn split_before(cursor: Cursor, words: &mut [u32], ends: Ends, other: Ends) -> EditedTwo
    ensures { outcome words.new result ≡ split_before words.old ends cursor other }
{
    if let Err(refusal) = split_test(cursor, words, ends, other) {
        return EditedTwo::new(Err(refusal), ends, cursor, other);
    }
    if cursor.is_null() {
        return part_all(ends);
    }
    part_before(words, ends, cursor)
}
