// Calls on a list by its ends: front, back, push, pop, take, fast clear, reverse.
// A refused call changes nothing and hands back the ends that it was given.
#![tactic(auto)]

ghost use Rattle.std.specs.Prelude.{◌≡◌};
ghost use Rattle.words.specs.Pool.{outcome};
ghost use Rattle.ends.specs.Ends.{list_edited};
ghost use Rattle.list.specs.Lists.{taken, at_front, at_back, push_front, push_back, pop_test, pop_front, pop_back, take_test, take, fast_clear, reversed};

use answers::{Answer, Refusal};
use cursor::{Cursor, Edited};
pub use ends::{Ends, ListEdited};
use words::names::Node;

// What a call on two lists hands back.
#[derive(Clone, Copy, PartialEq, Eq)]
pub struct Taken {
    pub answer: Answer,
    pub ends: Ends,
    pub other: Ends,
}

impl Taken {
    // Every one is made here.
    pub fn new(answer: Answer, ends: Ends, other: Ends) -> Taken
        ensures { result ≡ taken answer ends other }
    {
        Taken {
            answer,
            ends,
            other,
        }
    }
}

// The cursor at the first node, at null if the list is empty.
#[tactic(auto, unfolding(crate::specs::Lists::at_front))]
pub fn front(words: &[u32], ends: Ends) -> Edited
    ensures { result ≡ at_front words.now ends }
{
    let null = Cursor::null(ends);
    if let Err(refusal) = ends::tests::ends_test(words, ends) {
        return Edited::new(Err(refusal), ends, null);
    }
    Edited::new(Ok(None), ends, moves::next_place(null, words, ends))
}

// The cursor at the last node, at null if the list is empty.
#[tactic(auto, unfolding(crate::specs::Lists::at_back))]
pub fn back(words: &[u32], ends: Ends) -> Edited
    ensures { result ≡ at_back words.now ends }
{
    let null = Cursor::null(ends);
    if let Err(refusal) = ends::tests::ends_test(words, ends) {
        return Edited::new(Err(refusal), ends, null);
    }
    Edited::new(Ok(None), ends, moves::prev_place(null, words, ends))
}

#[tactic(auto, unfolding(crate::specs::Lists::push_front))]
pub fn push_front(words: &mut [u32], ends: Ends, node: Node) -> ListEdited
    ensures { outcome words.new result ≡ push_front words.old ends node }
{
    let pushed = insert::insert_after(Cursor::null(ends), words, ends, node);
    ListEdited::new(pushed.answer, pushed.ends)
}

#[tactic(auto, unfolding(crate::specs::Lists::push_back))]
pub fn push_back(words: &mut [u32], ends: Ends, node: Node) -> ListEdited
    ensures { outcome words.new result ≡ push_back words.old ends node }
{
    let pushed = insert::insert_before(Cursor::null(ends), words, ends, node);
    ListEdited::new(pushed.answer, pushed.ends)
}

// The tests of a pop: 1, 4, 8.
#[tactic(auto, unfolding(crate::specs::Lists::pop_test))]
fn pop_test(words: &[u32], ends: Ends) -> Result<(), Refusal>
    ensures { result ≡ pop_test words.now ends }
{
    ends::tests::ends_test(words, ends)?;
    if ends.is_empty() {
        return Err(Refusal::AtNull);
    }
    Ok(())
}

#[tactic(auto, unfolding(crate::specs::Lists::pop_front))]
pub fn pop_front(words: &mut [u32], ends: Ends) -> ListEdited
    ensures { outcome words.new result ≡ pop_front words.old ends }
{
    if let Err(refusal) = pop_test(words, ends) {
        return ListEdited::new(Err(refusal), ends);
    }
    let first = moves::next_place(Cursor::null(ends), words, ends);
    let popped = remove::unlink(words, ends, first);
    ListEdited::new(popped.answer, popped.ends)
}

#[tactic(auto, unfolding(crate::specs::Lists::pop_back))]
pub fn pop_back(words: &mut [u32], ends: Ends) -> ListEdited
    ensures { outcome words.new result ≡ pop_back words.old ends }
{
    if let Err(refusal) = pop_test(words, ends) {
        return ListEdited::new(Err(refusal), ends);
    }
    let last = moves::prev_place(Cursor::null(ends), words, ends);
    let popped = remove::unlink(words, ends, last);
    ListEdited::new(popped.answer, popped.ends)
}

// The tests of a take: 1, 4 of the named list, 4 of the other, 6.
#[tactic(auto, unfolding(crate::specs::Lists::take_test))]
fn take_test(words: &[u32], ends: Ends, other: Ends) -> Result<(), Refusal>
    ensures { result ≡ take_test words.now ends other }
{
    ends::tests::ends_test(words, ends)?;
    if !ends::tests::ends_hold(words, other) {
        return Err(Refusal::EndsDoNotHold);
    }
    if !other.is_empty() {
        return Err(Refusal::NotEmpty);
    }
    Ok(())
}

// Moves the whole list into the other one, which must be empty.
#[tactic(auto, unfolding(crate::specs::Lists::take))]
pub fn take(words: &[u32], ends: Ends, other: Ends) -> Taken
    ensures { result ≡ Rattle.list.specs.Lists.take words.now ends other }
{
    if let Err(refusal) = take_test(words, ends, other) {
        return Taken::new(Err(refusal), ends, other);
    }
    Taken::new(Ok(None), Ends::empty(), ends)
}

// Empties the ends alone: the nodes stay linked, on no list.
#[tactic(auto, unfolding(crate::specs::Lists::fast_clear))]
pub fn fast_clear(words: &[u32], ends: Ends) -> ListEdited
    ensures { result ≡ fast_clear words.now ends }
{
    if let Err(refusal) = ends::tests::ends_test(words, ends) {
        return ListEdited::new(Err(refusal), ends);
    }
    ListEdited::new(Ok(None), Ends::empty())
}

// Exchanges head and tail; no word changes.
#[tactic(auto, unfolding(crate::specs::Lists::reversed))]
pub fn reverse(words: &[u32], ends: Ends) -> ListEdited
    ensures { result ≡ reversed words.now ends }
{
    if let Err(refusal) = ends::tests::ends_test(words, ends) {
        return ListEdited::new(Err(refusal), ends);
    }
    ListEdited::new(Ok(None), ends.turned())
}
