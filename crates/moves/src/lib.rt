// Moves and peeks: to the neighbour, past the end to null, from null to the head or the tail. Each consumes the cursor and
// hands it back, with the ends and the answer. A refused call changes nothing.
#![tactic(auto)]

ghost use Rattle.std.specs.Prelude.{◌≡◌};
ghost use Rattle.moves.specs.Moves.{moved_next, moved_prev, move_next, move_prev};

use cursor::{Cursor, Edited};
use ends::Ends;
use links::xor_ops::XorLinkedListOps;

// The cursor one node on, with no test.
#[tactic(auto, unfolding(crate::specs::Moves::moved_next))]
pub fn next_place(cursor: Cursor, words: &[u32], ends: Ends) -> Cursor
    ensures { result ≡ moved_next words.now ends cursor }
{
    let prev = cursor.current;
    let current = cursor.next;
    if current.is_null() {
        return Cursor::null(ends);
    }
    Cursor::new(current, prev, XorLinkedListOps::next(words, current, prev))
}

// The cursor one node back, with no test.
#[tactic(auto, unfolding(crate::specs::Moves::moved_prev))]
pub fn prev_place(cursor: Cursor, words: &[u32], ends: Ends) -> Cursor
    ensures { result ≡ moved_prev words.now ends cursor }
{
    let next = cursor.current;
    let current = cursor.prev;
    if current.is_null() {
        return Cursor::null(ends);
    }
    Cursor::new(current, XorLinkedListOps::prev(words, current, next), next)
}

#[tactic(auto, unfolding(crate::specs::Moves::move_next))]
pub fn move_next(cursor: Cursor, words: &[u32], ends: Ends) -> Edited
    ensures { result ≡ move_next words.now ends cursor }
{
    if let Err(refusal) = cursor.stand_test(words, ends) {
        return Edited::new(Err(refusal), ends, cursor);
    }
    Edited::new(Ok(None), ends, next_place(cursor, words, ends))
}

#[tactic(auto, unfolding(crate::specs::Moves::move_prev))]
pub fn move_prev(cursor: Cursor, words: &[u32], ends: Ends) -> Edited
    ensures { result ≡ move_prev words.now ends cursor }
{
    if let Err(refusal) = cursor.stand_test(words, ends) {
        return Edited::new(Err(refusal), ends, cursor);
    }
    Edited::new(Ok(None), ends, prev_place(cursor, words, ends))
}

// A cursor at the next node. The cursor is a value, so that its owner still has it: a peek is a move of the copy.
pub fn peek_next(cursor: Cursor, words: &[u32], ends: Ends) -> Edited
    ensures { result ≡ move_next words.now ends cursor }
{
    move_next(cursor, words, ends)
}

// A cursor at the node before.
pub fn peek_prev(cursor: Cursor, words: &[u32], ends: Ends) -> Edited
    ensures { result ≡ move_prev words.now ends cursor }
{
    move_prev(cursor, words, ends)
}
