// `CursorMut`: the ends of a list with a place on it, by value, and the answer of the call that handed it back. Every call consumes
// it and hands it back, so that calls follow each other; a call does not look at the answer of the one before. What a caller wants
// besides is in the crate `xor_linked_list`.
#![tactic(auto)]

ghost use Rattle.std.specs.Prelude.{◌≡◌, not, length, is_err};
ghost use Rattle.words.specs.Names.{is_null, decoding};
ghost use Rattle.words.specs.Pool.{outcome};
ghost use Rattle.answers.specs.Answer.{answer_number};
ghost use Rattle.cursor.specs.Cursor.{edited, edited_two};
ghost use Rattle.moves.specs.Moves.{move_next, move_prev};
ghost use Rattle.insert.specs.Inserts.{insert_after, insert_before};
ghost use Rattle.remove.specs.Removes;
ghost use Rattle.splice.specs.Splices.{splice_after, splice_before};
ghost use Rattle.split.specs.Splits.{split_after, split_before};
ghost use Rattle.records.specs.Records.{read_test, read_at};

use answers::{Answer, Refusal};
use cursor::{Cursor, Edited, EditedTwo};
use ends::Ends;
use words::names::Node;

// A list's ends, a place on it, and the last call's answer. (The fields of `Edited`, in a type of its own: methods stand in the crate
// of their type, and these stand above all calls.)
#[derive(Clone, Copy, PartialEq, Eq)]
pub struct CursorMut {
    pub answer: Answer,
    pub ends: Ends,
    pub cursor: Cursor,
}

// What a call on two lists hands back: the cursor on the one, and the ends that the other has now.
#[derive(Clone, Copy, PartialEq, Eq)]
pub struct CursorAndOther {
    pub cursor: CursorMut,
    pub other: Ends,
}

// What an edit hands back, as it is.
impl From<Edited> for CursorMut {
    ghost from_gives = { λ e c. edited c.answer c.ends c.cursor ≡ e };

    fn from(e: Edited) -> CursorMut {
        CursorMut {
            answer: e.answer,
            ends: e.ends,
            cursor: e.cursor,
        }
    }
}

impl From<EditedTwo> for CursorAndOther {
    ghost from_gives = { λ e c. edited_two c.cursor.answer c.cursor.ends c.cursor.cursor c.other ≡ e };

    fn from(e: EditedTwo) -> CursorAndOther {
        CursorAndOther {
            cursor: CursorMut {
                answer: e.answer,
                ends: e.ends,
                cursor: e.cursor,
            },
            other: e.other,
        }
    }
}

impl CursorMut {
    // To the next node; past the last to null, from null to the first.
    pub fn move_next(self, words: &[u32]) -> CursorMut
        ensures { edited result.answer result.ends result.cursor ≡ move_next words.now self.ends self.cursor }
    {
        CursorMut::from(moves::move_next(self.cursor, words, self.ends))
    }

    // To the node before; past the first to null, from null to the last.
    pub fn move_prev(self, words: &[u32]) -> CursorMut
        ensures { edited result.answer result.ends result.cursor ≡ move_prev words.now self.ends self.cursor }
    {
        CursorMut::from(moves::move_prev(self.cursor, words, self.ends))
    }

    // A cursor at the next node, for a caller who keeps its own.
    pub fn peek_next(self, words: &[u32]) -> CursorMut
        ensures { edited result.answer result.ends result.cursor ≡ move_next words.now self.ends self.cursor }
    {
        CursorMut::from(moves::peek_next(self.cursor, words, self.ends))
    }

    // A cursor at the node before.
    pub fn peek_prev(self, words: &[u32]) -> CursorMut
        ensures { edited result.answer result.ends result.cursor ≡ move_prev words.now self.ends self.cursor }
    {
        CursorMut::from(moves::peek_prev(self.cursor, words, self.ends))
    }

    // Beside the node, which stays under the cursor; at null, at the front.
    pub fn insert_after(self, words: &mut [u32], node: Node) -> CursorMut
        ensures { outcome words.new (edited result.answer result.ends result.cursor) ≡ insert_after words.old self.ends self.cursor node }
    {
        CursorMut::from(insert::insert_after(self.cursor, words, self.ends, node))
    }

    // At null, at the back.
    pub fn insert_before(self, words: &mut [u32], node: Node) -> CursorMut
        ensures { outcome words.new (edited result.answer result.ends result.cursor) ≡ insert_before words.old self.ends self.cursor node }
    {
        CursorMut::from(insert::insert_before(self.cursor, words, self.ends, node))
    }

    // Hands out the node, unlinked, and moves to the one that followed it.
    pub fn remove(self, words: &mut [u32]) -> CursorMut
        ensures { outcome words.new (edited result.answer result.ends result.cursor) ≡ Removes.remove words.old self.ends self.cursor }
    {
        CursorMut::from(remove::remove(self.cursor, words, self.ends))
    }

    // The new node takes the place, and the old one is handed out, unlinked.
    pub fn replace(self, words: &mut [u32], node: Node) -> CursorMut
        ensures { outcome words.new (edited result.answer result.ends result.cursor) ≡ Removes.replace words.old self.ends self.cursor node }
    {
        CursorMut::from(remove::replace(self.cursor, words, self.ends, node))
    }

    // The whole other list goes behind the node, or to the front at null. It is handed back empty.
    pub fn splice_after(self, words: &mut [u32], other: Ends) -> CursorAndOther
        ensures { outcome words.new (edited_two result.cursor.answer result.cursor.ends result.cursor.cursor result.other) ≡ splice_after words.old self.ends self.cursor other }
    {
        CursorAndOther::from(splice::splice_after(self.cursor, words, self.ends, other))
    }

    // The same ahead of the node, or to the back at null.
    pub fn splice_before(self, words: &mut [u32], other: Ends) -> CursorAndOther
        ensures { outcome words.new (edited_two result.cursor.answer result.cursor.ends result.cursor.cursor result.other) ≡ splice_before words.old self.ends self.cursor other }
    {
        CursorAndOther::from(splice::splice_before(self.cursor, words, self.ends, other))
    }

    // What is beyond the node moves into the other list, which must be empty; at null everything does.
    pub fn split_after(self, words: &mut [u32], other: Ends) -> CursorAndOther
        ensures { outcome words.new (edited_two result.cursor.answer result.cursor.ends result.cursor.cursor result.other) ≡ split_after words.old self.ends self.cursor other }
    {
        CursorAndOther::from(split::split_after(self.cursor, words, self.ends, other))
    }

    // What is ahead of the node moves into the other list.
    pub fn split_before(self, words: &mut [u32], other: Ends) -> CursorAndOther
        ensures { outcome words.new (edited_two result.cursor.answer result.cursor.ends result.cursor.cursor result.other) ≡ split_before words.old self.ends self.cursor other }
    {
        CursorAndOther::from(split::split_before(self.cursor, words, self.ends, other))
    }

    pub fn is_null(self) -> bool
        ensures { result ≡ is_null self.cursor.current }
    {
        self.cursor.is_null()
    }

    // The node under the cursor, in a pool of this many.
    pub fn node(self, len: usize) -> Option<Node>
        ensures { result ≡ decoding len self.cursor.current }
    {
        self.cursor.node(len)
    }

    // The record of the node under the cursor, a part of the lent records; the empty part if refused, and `read_test` says why.
    pub fn read<'a>(self, words: &[u32], records: &'a [u8], width: usize) -> &'a [u8]
        ensures { result.now ≡ read_at words.now self.ends self.cursor records.now width }
    {
        records::read(self.cursor, words, self.ends, records, width)
    }

    pub fn read_test(self, words: &[u32], records: &[u8], width: usize) -> Result<(), Refusal>
        ensures { result ≡ read_test words.now self.ends self.cursor (length records.now) width }
    {
        records::read_test(self.cursor, words, self.ends, records, width)
    }

    // The node that the last call handed out, if it did.
    pub fn handed(self) -> Option<Node>
        ensures { result ≡ Rattle.answers.specs.Answer.handed self.answer }
    {
        answers::handed(self.answer)
    }

    // The last call was not refused.
    pub fn done(self) -> bool
        ensures { result ≡ not (is_err self.answer) }
    {
        self.answer.is_ok()
    }

    // The last call's number: 0 if it was done, the table's if it was refused.
    pub fn number(self) -> u32
        ensures { result ≡ answer_number self.answer }
    {
        answers::number(self.answer)
    }
}
