// A cursor by value, what the calls at a cursor hand back, and the tests that they begin with.
#![tactic(auto)]

ghost use Rattle.std.specs.Prelude.{◌≡◌, cond};
ghost use Rattle.words.specs.Names.{is_null, decoding};
ghost use Rattle.words.specs.Pool.{outcome};
ghost use Rattle.cursor.specs.Cursor.{cursor_of, null_cursor, edited, edited_two, cursor_stands, stand_test, node_test, some_test, pair_test, acquire_node};

use answers::{Answer, Refusal};
use ends::Ends;
use words::link_ops::LinkOps;
use words::names::{Name, Node};

// A place on a list: the node, null for none, and its two neighbours. At null they are the tail and the head. It goes to each call
// beside the list's ends and the lent words, and comes back with the ends, as document 01 has it; `cursor_mut` has it with the ends in
// one value, whose methods the calls are.
#[derive(Clone, Copy, PartialEq, Eq)]
pub struct Cursor {
    pub current: Name,
    pub prev: Name,
    pub next: Name,
}

// What a call on one list hands back.
#[derive(Clone, Copy, PartialEq, Eq)]
pub struct Edited {
    pub answer: Answer,
    pub ends: Ends,
    pub cursor: Cursor,
}

// What a call on two lists hands back.
#[derive(Clone, Copy, PartialEq, Eq)]
pub struct EditedTwo {
    pub answer: Answer,
    pub ends: Ends,
    pub cursor: Cursor,
    pub other: Ends,
}

impl Cursor {
    // Every cursor is made here.
    pub fn new(current: Name, prev: Name, next: Name) -> Cursor
        ensures { result ≡ cursor_of current prev next }
    {
        Cursor {
            current,
            prev,
            next,
        }
    }

    // The cursor at null of a list with these ends.
    pub fn null(ends: Ends) -> Cursor
        ensures { result ≡ null_cursor ends }
    {
        Cursor::new(Name::NULL, ends.tail, ends.head)
    }

    pub fn is_null(self) -> bool
        ensures { result ≡ is_null self.current }
    {
        self.current.is_null()
    }

    // The node under the cursor, in a pool of this many.
    pub fn node(self, len: usize) -> Option<Node>
        ensures { result ≡ decoding len self.current }
    {
        self.current.decode(len)
    }

    pub fn stands(self, words: &[u32], ends: Ends) -> bool
        ensures { result ≡ cursor_stands words.now ends self }
    {
        ends::tests::stands(words, ends, self.current, self.prev, self.next)
    }

    // The tests of a call that takes ends and a cursor: 1, 4, 5.
    #[tactic(auto, unfolding(crate::specs::Cursor::stand_test))]
    pub fn stand_test(self, words: &[u32], ends: Ends) -> Result<(), Refusal>
        ensures { result ≡ stand_test words.now ends self }
    {
        ends::tests::ends_test(words, ends)?;
        if !self.stands(words, ends) {
            return Err(Refusal::CursorDoesNotStand);
        }
        Ok(())
    }

    // The tests of a call that takes a node too: 1, 4, 5, 7.
    #[tactic(auto, unfolding(crate::specs::Cursor::node_test))]
    pub fn node_test(self, words: &[u32], ends: Ends, node: Node) -> Result<(), Refusal>
        ensures { result ≡ node_test words.now ends self node }
    {
        self.stand_test(words, ends)?;
        if words.len() <= node.0 as usize {
            return Err(Refusal::NoSuchNode);
        }
        Ok(())
    }

    // The test of a call that wants a node under the cursor, 8, after the others.
    #[tactic(auto, unfolding(crate::specs::Cursor::some_test))]
    pub fn some_test<T: Copy>(self, before: Result<T, Refusal>) -> Result<(), Refusal>
        ensures { result ≡ some_test before self }
    {
        before?;
        if self.is_null() {
            return Err(Refusal::AtNull);
        }
        Ok(())
    }

    // The tests of a call on two lists: 1, 4 of the named one, 4 of the other, 5.
    #[tactic(auto, unfolding(crate::specs::Cursor::pair_test))]
    pub fn pair_test(self, words: &[u32], ends: Ends, other: Ends) -> Result<(), Refusal>
        ensures { result ≡ pair_test words.now ends self other }
    {
        ends::tests::ends_test(words, ends)?;
        if !ends::tests::ends_hold(words, other) {
            return Err(Refusal::EndsDoNotHold);
        }
        if !self.stands(words, ends) {
            return Err(Refusal::CursorDoesNotStand);
        }
        Ok(())
    }
}

impl Edited {
    // Every one is made here.
    pub fn new(answer: Answer, ends: Ends, cursor: Cursor) -> Edited
        ensures { result ≡ edited answer ends cursor }
    {
        Edited {
            answer,
            ends,
            cursor,
        }
    }
}

impl EditedTwo {
    // Every one is made here.
    pub fn new(answer: Answer, ends: Ends, cursor: Cursor, other: Ends) -> EditedTwo
        ensures { result ≡ edited_two answer ends cursor other }
    {
        EditedTwo {
            answer,
            ends,
            cursor,
            other,
        }
    }
}

// Acquires the node that a call takes in, after its tests: 9 if it is linked already. What they refuse acquires nothing.
#[tactic(auto, unfolding(crate::specs::Cursor::acquire_node))]
pub fn acquire_node<T: Copy>(
    words: &mut [u32],
    test: Result<T, Refusal>,
    new: Name,
) -> Result<(), Refusal>
    ensures { outcome words.new result ≡ acquire_node words.old test new }
{
    test?;
    if !LinkOps::acquire_link(words, new) {
        return Err(Refusal::AlreadyLinked);
    }
    Ok(())
}

// One of two names.
pub fn either(first: bool, x: Name, y: Name) -> Name
    ensures { result ≡ cond first x y }
{
    if first { x } else { y }
}
