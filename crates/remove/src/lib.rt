// Remove and replace: the node under the cursor is handed out, unlinked.
#![tactic(auto)]

ghost use Rattle.std.specs.Prelude.{◌≡◌};
ghost use Rattle.words.specs.Pool.{outcome};
ghost use Rattle.remove.specs.Removes.{removed, remove, replaced, replace};

use cursor::{Cursor, Edited, acquire_node, either};
use ends::Ends;
use links::xor_ops::XorLinkedListOps;
use words::link_ops::LinkOps;
use words::names::{Name, Node};

// The steps of remove, of the node under the cursor.
#[tactic(auto, unfolding(crate::specs::Removes::removed))]
pub fn unlink(words: &mut [u32], ends: Ends, cursor: Cursor) -> Edited
    ensures { outcome words.new result ≡ removed words.old ends cursor }
{
    let current = cursor.current;
    let prev = cursor.prev;
    let next = cursor.next;
    let answer = Ok(current.decode(words.len()));
    LinkOps::release_link(words, current);
    XorLinkedListOps::replace_next_or_prev(words, prev, current, next);
    XorLinkedListOps::replace_next_or_prev(words, next, current, prev);
    let head = either(ends.head == current, next, ends.head);
    let tail = either(ends.tail == current, prev, ends.tail);
    let left = Ends::new(head, tail);
    if next.is_null() {
        return Edited::new(answer, left, Cursor::null(left));
    }
    let c = Cursor::new(next, prev, XorLinkedListOps::next(words, next, prev));
    Edited::new(answer, left, c)
}

// The steps of replace, by a node that is acquired.
#[tactic(auto, unfolding(crate::specs::Removes::replaced))]
fn relink(words: &mut [u32], ends: Ends, cursor: Cursor, new: Name) -> Edited
    ensures { outcome words.new result ≡ replaced words.old ends cursor new }
{
    let current = cursor.current;
    let answer = Ok(current.decode(words.len()));
    let head = either(ends.head == current, new, ends.head);
    let tail = either(ends.tail == current, new, ends.tail);
    XorLinkedListOps::replace_next_or_prev(words, cursor.prev, current, new);
    XorLinkedListOps::replace_next_or_prev(words, cursor.next, current, new);
    XorLinkedListOps::set(words, new, cursor.prev, cursor.next);
    LinkOps::release_link(words, current);
    Edited::new(
        answer,
        Ends::new(head, tail),
        Cursor::new(new, cursor.prev, cursor.next),
    )
}

#[tactic(auto, unfolding(crate::specs::Removes::remove))]
pub fn remove(cursor: Cursor, words: &mut [u32], ends: Ends) -> Edited
    ensures { outcome words.new result ≡ Rattle.remove.specs.Removes.remove words.old ends cursor }
{
    if let Err(refusal) = cursor.some_test(cursor.stand_test(words, ends)) {
        return Edited::new(Err(refusal), ends, cursor);
    }
    unlink(words, ends, cursor)
}

#[tactic(auto, unfolding(crate::specs::Removes::replace))]
pub fn replace(cursor: Cursor, words: &mut [u32], ends: Ends, node: Node) -> Edited
    ensures { outcome words.new result ≡ Rattle.remove.specs.Removes.replace words.old ends cursor node }
{
    let new = node.to_name();
    let test = cursor.some_test(cursor.node_test(words, ends, node));
    if let Err(refusal) = acquire_node(words, test, new) {
        return Edited::new(Err(refusal), ends, cursor);
    }
    relink(words, ends, cursor, new)
}
