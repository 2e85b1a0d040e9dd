// `XorLinkedList`: the ends of a list by value, with the answer of the call that handed it back; the words are lent to each call.
// This is the crate that a caller imports, and the only one. Each call consumes the list and hands it back, or a cursor on it; none
// looks at the answer of the one before.
#![tactic(auto)]

ghost use Rattle.std.specs.Prelude.{◌≡◌, not, is_err};
ghost use Rattle.words.specs.Pool.{outcome};
ghost use Rattle.answers.specs.Answer.{done, answer_number};
ghost use Rattle.ends.specs.Ends.{empty_ends, is_empty, list_edited};
ghost use Rattle.cursor.specs.Cursor.{null_cursor, edited};
ghost use Rattle.list.specs.Lists;
ghost use Rattle.list.specs.Lists.{at_front, at_back, push_front, push_back, pop_front, pop_back, fast_clear, reversed, taken};
ghost use Rattle.place.specs.Places.{place_by_prev, place_by_next};
ghost use Rattle.iter.specs.Iter.{iter_of};
ghost use Rattle.walk.specs.Marks.{marking};
ghost use Rattle.walk.specs.Calls.{walk_all, clear_all};

pub use answers::{Answer, Refusal};
pub use audit::{Audited, audit, audit_records};
use cursor::Cursor;
pub use cursor_mut::{CursorAndOther, CursorMut};
pub use ends::Ends;
pub use iter::{Iter, Stepped};
use list::{ListEdited, Taken};
pub use walk::walk::Walked;
pub use words::names::{Name, Node};

// A list's ends, and the last call's answer. (The fields of `ListEdited`, for the reason that `CursorMut` has those of `Edited`.)
#[derive(Clone, Copy, PartialEq, Eq)]
pub struct XorLinkedList {
    pub answer: Answer,
    pub ends: Ends,
}

// What a call on two lists hands back: the one list, and the ends that the other has now.
#[derive(Clone, Copy, PartialEq, Eq)]
pub struct ListAndOther {
    pub list: XorLinkedList,
    pub other: Ends,
}

// What an edit hands back, as it is.
impl From<ListEdited> for XorLinkedList {
    ghost from_gives = { λ e l. list_edited l.answer l.ends ≡ e };

    fn from(e: ListEdited) -> XorLinkedList {
        XorLinkedList {
            answer: e.answer,
            ends: e.ends,
        }
    }
}

impl From<Taken> for ListAndOther {
    ghost from_gives = { λ e l. taken l.list.answer l.list.ends l.other ≡ e };

    fn from(e: Taken) -> ListAndOther {
        ListAndOther {
            list: XorLinkedList {
                answer: e.answer,
                ends: e.ends,
            },
            other: e.other,
        }
    }
}

impl XorLinkedList {
    // An empty list.
    pub fn new() -> XorLinkedList
        ensures { (result.answer ≡ done) × (result.ends ≡ empty_ends) }
    {
        XorLinkedList::from_ends(Ends::empty())
    }

    // The list with these ends: one that a split or a take handed out, or that a cursor was on.
    pub fn from_ends(ends: Ends) -> XorLinkedList
        ensures { (result.answer ≡ done) × (result.ends ≡ ends) }
    {
        XorLinkedList {
            answer: Ok(None),
            ends,
        }
    }

    pub fn is_empty(self) -> bool
        ensures { result ≡ is_empty self.ends }
    {
        self.ends.is_empty()
    }

    // The cursor at null, with the list's answer.
    pub fn cursor(self) -> CursorMut
        ensures { (result.answer ≡ self.answer) × (result.ends ≡ self.ends) × (result.cursor ≡ null_cursor self.ends) }
    {
        CursorMut {
            answer: self.answer,
            ends: self.ends,
            cursor: Cursor::null(self.ends),
        }
    }

    // The cursor at the first node, at null if there is none.
    pub fn front(self, words: &[u32]) -> CursorMut
        ensures { edited result.answer result.ends result.cursor ≡ at_front words.now self.ends }
    {
        CursorMut::from(list::front(words, self.ends))
    }

    // The cursor at the last node, at null if there is none.
    pub fn back(self, words: &[u32]) -> CursorMut
        ensures { edited result.answer result.ends result.cursor ≡ at_back words.now self.ends }
    {
        CursorMut::from(list::back(words, self.ends))
    }

    // The cursor at a node, from the node said to come before it.
    pub fn cursor_from_ptr_and_prev(
        self,
        words: &[u32],
        node: Node,
        prev: Option<Node>,
    ) -> CursorMut
        ensures { edited result.answer result.ends result.cursor ≡ place_by_prev words.now self.ends node prev }
    {
        CursorMut::from(place::cursor_from_ptr_and_prev(words, self.ends, node, prev))
    }

    // The cursor at a node, from the node said to come after it.
    pub fn cursor_from_ptr_and_next(
        self,
        words: &[u32],
        node: Node,
        next: Option<Node>,
    ) -> CursorMut
        ensures { edited result.answer result.ends result.cursor ≡ place_by_next words.now self.ends node next }
    {
        CursorMut::from(place::cursor_from_ptr_and_next(words, self.ends, node, next))
    }

    pub fn push_front(self, words: &mut [u32], node: Node) -> XorLinkedList
        ensures { outcome words.new (list_edited result.answer result.ends) ≡ push_front words.old self.ends node }
    {
        XorLinkedList::from(list::push_front(words, self.ends, node))
    }

    pub fn push_back(self, words: &mut [u32], node: Node) -> XorLinkedList
        ensures { outcome words.new (list_edited result.answer result.ends) ≡ push_back words.old self.ends node }
    {
        XorLinkedList::from(list::push_back(words, self.ends, node))
    }

    // Hands out the first node, unlinked.
    pub fn pop_front(self, words: &mut [u32]) -> XorLinkedList
        ensures { outcome words.new (list_edited result.answer result.ends) ≡ pop_front words.old self.ends }
    {
        XorLinkedList::from(list::pop_front(words, self.ends))
    }

    // Hands out the last node, unlinked.
    pub fn pop_back(self, words: &mut [u32]) -> XorLinkedList
        ensures { outcome words.new (list_edited result.answer result.ends) ≡ pop_back words.old self.ends }
    {
        XorLinkedList::from(list::pop_back(words, self.ends))
    }

    // The whole list moves into the other one, which must be empty.
    pub fn take(self, words: &[u32], other: Ends) -> ListAndOther
        ensures { taken result.list.answer result.list.ends result.other ≡ Lists.take words.now self.ends other }
    {
        ListAndOther::from(list::take(words, self.ends, other))
    }

    // Empties the ends alone: the nodes stay linked, on no list.
    pub fn fast_clear(self, words: &[u32]) -> XorLinkedList
        ensures { list_edited result.answer result.ends ≡ fast_clear words.now self.ends }
    {
        XorLinkedList::from(list::fast_clear(words, self.ends))
    }

    // Walks the list, and releases each of its nodes.
    pub fn clear(self, words: &mut [u32], marks: &mut [u8]) -> XorLinkedList
        ensures { outcome words.new (marking marks.new (list_edited result.answer result.ends)) ≡ clear_all words.old marks.old self.ends }
    {
        XorLinkedList::from(walk::clear::clear(words, marks, self.ends))
    }

    // Head and tail change places; no word changes.
    pub fn reverse(self, words: &[u32]) -> XorLinkedList
        ensures { list_edited result.answer result.ends ≡ reversed words.now self.ends }
    {
        XorLinkedList::from(list::reverse(words, self.ends))
    }

    // Follows the chain: whether there is a listing, and how long it is. Done, the marks are 1 on the list and 0 elsewhere.
    pub fn walk(self, words: &[u32], marks: &mut [u8]) -> Walked
        ensures { marking marks.new result ≡ walk_all words.now marks.old self.ends }
    {
        walk::walk::walk(words, marks, self.ends)
    }

    // Over the whole list, from both ends.
    pub fn iter(self) -> Iter
        ensures { result ≡ iter_of self.ends }
    {
        Iter::new(self.ends)
    }

    // The node that the last call handed out, if it did.
    pub fn handed(self) -> Option<Node>
        ensures { result ≡ Rattle.answers.specs.Answer.handed self.answer }
    {
        answers::handed(self.answer)
    }

    // The last call was not refused.
    pub fn done(self) -> bool
        ensures { result ≡ not (is_err self.answer) }
    {
        self.answer.is_ok()
    }

    // The last call's number: 0 if it was done, the table's if it was refused.
    pub fn number(self) -> u32
        ensures { result ≡ answer_number self.answer }
    {
        answers::number(self.answer)
    }
}
