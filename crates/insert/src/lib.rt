// Inserts: a node beside the cursor's, or at the front or the back where the cursor is at null.
#![tactic(auto)]

ghost use Rattle.std.specs.Prelude.{◌≡◌};
ghost use Rattle.words.specs.Pool.{outcome};
ghost use Rattle.insert.specs.Inserts.{inserted_after, inserted_before, insert_after, insert_before};

use cursor::{Cursor, Edited, acquire_node, either};
use ends::Ends;
use links::between::link_between;
use words::names::{Name, Node};

// The steps of insert after, for a node that is acquired.
#[tactic(auto, unfolding(crate::specs::Inserts::inserted_after))]
fn link_after(words: &mut [u32], ends: Ends, cursor: Cursor, new: Name) -> Edited
    ensures { outcome words.new result ≡ inserted_after words.old ends cursor new }
{
    if cursor.is_null() {
        link_between(words, new, Name::NULL, ends.head);
        let front = Ends::new(new, either(ends.tail.is_null(), new, ends.tail));
        return Edited::new(Ok(None), front, Cursor::null(front));
    }
    link_between(words, new, cursor.current, cursor.next);
    let beside = Ends::new(ends.head, either(cursor.next.is_null(), new, ends.tail));
    Edited::new(
        Ok(None),
        beside,
        Cursor::new(cursor.current, cursor.prev, new),
    )
}

// The steps of insert before, for a node that is acquired.
#[tactic(auto, unfolding(crate::specs::Inserts::inserted_before))]
fn link_before(words: &mut [u32], ends: Ends, cursor: Cursor, new: Name) -> Edited
    ensures { outcome words.new result ≡ inserted_before words.old ends cursor new }
{
    if cursor.is_null() {
        link_between(words, new, ends.tail, Name::NULL);
        let back = Ends::new(either(ends.head.is_null(), new, ends.head), new);
        return Edited::new(Ok(None), back, Cursor::null(back));
    }
    link_between(words, new, cursor.prev, cursor.current);
    let beside = Ends::new(either(cursor.prev.is_null(), new, ends.head), ends.tail);
    Edited::new(
        Ok(None),
        beside,
        Cursor::new(cursor.current, new, cursor.next),
    )
}

#[tactic(auto, unfolding(crate::specs::Inserts::insert_after))]
pub fn insert_after(cursor: Cursor, words: &mut [u32], ends: Ends, node: Node) -> Edited
    ensures { outcome words.new result ≡ insert_after words.old ends cursor node }
{
    let new = node.to_name();
    let test = cursor.node_test(words, ends, node);
    if let Err(refusal) = acquire_node(words, test, new) {
        return Edited::new(Err(refusal), ends, cursor);
    }
    link_after(words, ends, cursor, new)
}

#[tactic(auto, unfolding(crate::specs::Inserts::insert_before))]
pub fn insert_before(cursor: Cursor, words: &mut [u32], ends: Ends, node: Node) -> Edited
    ensures { outcome words.new result ≡ insert_before words.old ends cursor node }
{
    let new = node.to_name();
    let test = cursor.node_test(words, ends, node);
    if let Err(refusal) = acquire_node(words, test, new) {
        return Edited::new(Err(refusal), ends, cursor);
    }
    link_before(words, ends, cursor, new)
}
