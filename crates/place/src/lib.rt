// Places by node and claimed neighbour: `cursor_from_ptr_and_prev` and `cursor_from_ptr_and_next`.
#![tactic(auto)]

ghost use Rattle.std.specs.Prelude.{◌≡◌};
ghost use Rattle.place.specs.Places.{claimed, claim_test, placed, place_by_prev, place_by_next};

use answers::Refusal;
use cursor::{Cursor, Edited};
use ends::Ends;
use links::xor_ops::XorLinkedListOps;
use words::names::{Name, Node};

// The name of a claimed neighbour, null for none.
fn claimed_name(neighbour: Option<Node>) -> Name
    ensures { result ≡ claimed neighbour }
{
    neighbour.map_or(Name::NULL, Node::to_name)
}

// The tests before the place is worked out: 1, 4, and 7 for either number.
#[tactic(auto, unfolding(crate::specs::Places::claim_test))]
fn claim_test(words: &[u32], ends: Ends, node: Node, neighbour: Option<Node>) -> Result<(), Refusal>
    ensures { result ≡ claim_test words.now ends node neighbour }
{
    ends::tests::ends_test(words, ends)?;
    if words.len() <= node.0 as usize {
        return Err(Refusal::NoSuchNode);
    }
    if !known(words.len(), neighbour) {
        return Err(Refusal::NoSuchNode);
    }
    Ok(())
}

// The neighbour is none, or a node of a pool of this many.
fn known(len: usize, neighbour: Option<Node>) -> bool
    ensures { result ≡ Rattle.place.specs.Places.known len neighbour }
{
    neighbour.is_none_or(|node| (node.0 as usize) < len)
}

// The place, if it stands.
#[tactic(auto, unfolding(crate::specs::Places::placed))]
fn place(words: &[u32], ends: Ends, cursor: Cursor) -> Edited
    ensures { result ≡ placed words.now ends cursor }
{
    if !cursor.stands(words, ends) {
        let refused = Err(Refusal::CursorDoesNotStand);
        return Edited::new(refused, ends, Cursor::null(ends));
    }
    Edited::new(Ok(None), ends, cursor)
}

// The cursor at a node, from the node said to come before it.
#[tactic(auto, unfolding(crate::specs::Places::place_by_prev))]
pub fn cursor_from_ptr_and_prev(words: &[u32], ends: Ends, node: Node, prev: Option<Node>) -> Edited
    ensures { result ≡ place_by_prev words.now ends node prev }
{
    if let Err(refusal) = claim_test(words, ends, node, prev) {
        return Edited::new(Err(refusal), ends, Cursor::null(ends));
    }
    let current = node.to_name();
    let p = claimed_name(prev);
    let next = XorLinkedListOps::next(words, current, p);
    place(words, ends, Cursor::new(current, p, next))
}

// The cursor at a node, from the node said to come after it.
#[tactic(auto, unfolding(crate::specs::Places::place_by_next))]
pub fn cursor_from_ptr_and_next(words: &[u32], ends: Ends, node: Node, next: Option<Node>) -> Edited
    ensures { result ≡ place_by_next words.now ends node next }
{
    if let Err(refusal) = claim_test(words, ends, node, next) {
        return Edited::new(Err(refusal), ends, Cursor::null(ends));
    }
    let current = node.to_name();
    let q = claimed_name(next);
    let prev = XorLinkedListOps::prev(words, current, q);
    place(words, ends, Cursor::new(current, prev, q))
}
