// The ends of a list, which are all that there is of it beside the words of its nodes; and the two tests of fixed size that
// every call begins with.
#![tactic(auto)]

pub mod tests;

ghost use Rattle.std.specs.Prelude.{◌≡◌};
ghost use Rattle.ends.specs.Ends.{ends_of, empty_ends, is_empty, turned, list_edited};

use answers::Answer;
use words::names::Name;

#[derive(Clone, Copy, PartialEq, Eq)]
pub struct Ends {
    pub head: Name,
    pub tail: Name,
}

// What a call on a list by its ends hands back.
#[derive(Clone, Copy, PartialEq, Eq)]
pub struct ListEdited {
    pub answer: Answer,
    pub ends: Ends,
}

impl Ends {
    // Every pair of ends is made here.
    pub fn new(head: Name, tail: Name) -> Ends
        ensures { result ≡ ends_of head tail }
    {
        Ends { head, tail }
    }

    // The ends of an empty list.
    pub fn empty() -> Ends
        ensures { result ≡ empty_ends }
    {
        Ends::new(Name::NULL, Name::NULL)
    }

    pub fn is_empty(self) -> bool
        ensures { result ≡ is_empty self }
    {
        self.head.is_null()
    }

    // Head and tail exchanged.
    pub fn turned(self) -> Ends
        ensures { result ≡ Rattle.ends.specs.Ends.turned self }
    {
        Ends::new(self.tail, self.head)
    }
}

impl ListEdited {
    // Every one is made here.
    pub fn new(answer: Answer, ends: Ends) -> ListEdited
        ensures { result ≡ list_edited answer ends }
    {
        ListEdited { answer, ends }
    }
}
