// The refusals of document 01's table, and what an edit answers.
#![tactic(auto)]

ghost use Rattle.std.specs.Prelude.{◌≡◌};
ghost use Rattle.answers.specs.Answer.{answer_number, answered};

use words::names::Node;

// One case a row of the table, by its number.
#[derive(Clone, Copy, PartialEq, Eq)]
pub enum Refusal {
    Size,
    NoSuchList,
    SameList,
    EndsDoNotHold,
    CursorDoesNotStand,
    NotEmpty,
    NoSuchNode,
    AtNull,
    AlreadyLinked,
    NoListing,
    Malformed,
    NoRoom,
}

// What a call answers: it is done, and may hand out a node; or it is refused.
pub type Answer = Result<Option<Node>, Refusal>;

impl Refusal {
    // The table's number. (No `From`: `number` is document 01's word for it, and README's.)
    pub fn number(self) -> u32
        ensures { result ≡ Rattle.answers.specs.Answer.number self }
    {
        match self {
            Refusal::Size => 1,
            Refusal::NoSuchList => 2,
            Refusal::SameList => 3,
            Refusal::EndsDoNotHold => 4,
            Refusal::CursorDoesNotStand => 5,
            Refusal::NotEmpty => 6,
            Refusal::NoSuchNode => 7,
            Refusal::AtNull => 8,
            Refusal::AlreadyLinked => 9,
            Refusal::NoListing => 10,
            Refusal::Malformed => 11,
            Refusal::NoRoom => 12,
        }
    }
}

// 0 for what is done, the table's number for what is refused.
pub fn number(answer: Answer) -> u32
    ensures { result ≡ answer_number answer }
{
    match answer {
        Ok(_) => 0,
        Err(refusal) => refusal.number(),
    }
}

// The node handed out, if there is one.
pub fn handed(answer: Answer) -> Option<Node>
    ensures { result ≡ Rattle.answers.specs.Answer.handed answer }
{
    answer.ok().flatten()
}

// The answer of a call that does no more than its tests.
pub fn answered(test: Result<(), Refusal>) -> Answer
    ensures { result ≡ answered test }
{
    test?;
    Ok(None)
}
