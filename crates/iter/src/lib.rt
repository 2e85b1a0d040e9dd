// `Iter`: four words by value, stepping from both ends until they meet.
#![tactic(auto)]

ghost use Rattle.std.specs.Prelude.{◌≡◌};
ghost use Rattle.iter.specs.Iter.{stepped, iter_of, over, next_back};

use answers::{Answer, Refusal};
use ends::Ends;
use links::xor_ops::XorLinkedListOps;
use words::names::Name;

// What is left of a list: its first and last node, and what was stepped over on each side.
#[derive(Clone, Copy, PartialEq, Eq)]
pub struct Iter {
    pub prev_head: Name,
    pub head: Name,
    pub tail: Name,
    pub next_tail: Name,
}

// What a step hands back.
#[derive(Clone, Copy, PartialEq, Eq)]
pub struct Stepped {
    pub answer: Answer,
    pub iter: Iter,
}

impl Stepped {
    // Every one is made here.
    fn new(answer: Answer, iter: Iter) -> Stepped
        ensures { result ≡ stepped answer iter }
    {
        Stepped { answer, iter }
    }
}

impl Iter {
    // Over a list with these ends.
    pub fn new(ends: Ends) -> Iter
        ensures { result ≡ iter_of ends }
    {
        Iter {
            prev_head: Name::NULL,
            head: ends.head,
            tail: ends.tail,
            next_tail: Name::NULL,
        }
    }

    // With nothing left.
    fn ended() -> Iter
        ensures { result ≡ over }
    {
        Iter::new(Ends::empty())
    }

    // One node from the front.
    #[tactic(auto, unfolding(crate::specs::Iter::next))]
    pub fn next(self, words: &[u32]) -> Stepped
        ensures { result ≡ Rattle.iter.specs.Iter.next words.now self }
    {
        let Iter {
            prev_head,
            head,
            tail,
            next_tail,
        } = self;
        let n = words.len();
        if !words::names::pool_fits(n) {
            return Stepped::new(Err(Refusal::Size), self);
        }
        if head.is_null() {
            return Stepped::new(Ok(None), self);
        }
        if !head.in_range(n) {
            return Stepped::new(Err(Refusal::NoListing), self);
        }
        let out = Ok(head.decode(n));
        if head == tail {
            return Stepped::new(out, Iter::ended());
        }
        let next = XorLinkedListOps::next(words, head, prev_head);
        if !next.in_range(n) {
            return Stepped::new(Err(Refusal::NoListing), self);
        }
        let rest = Iter {
            prev_head: head,
            head: next,
            tail,
            next_tail,
        };
        Stepped::new(out, rest)
    }

    // One node from the back.
    #[tactic(auto, unfolding(crate::specs::Iter::next_back))]
    pub fn next_back(self, words: &[u32]) -> Stepped
        ensures { result ≡ next_back words.now self }
    {
        let r = self.turned().next(words);
        Stepped::new(r.answer, r.iter.turned())
    }

    // Seen from the other side.
    pub fn turned(self) -> Iter
        ensures { result ≡ Rattle.iter.specs.Iter.turned_iter self }
    {
        Iter {
            prev_head: self.next_tail,
            head: self.tail,
            tail: self.head,
            next_tail: self.prev_head,
        }
    }
}
