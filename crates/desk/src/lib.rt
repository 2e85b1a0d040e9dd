// A desk: words, and for each list its ends and a cursor that is kept. One command on the lists that it names. Who keeps the desk,
// and how, is for the crates above.
#![tactic(auto)]

pub mod work;

use answers::Answer;
use cursor::Cursor;
use ends::Ends;

// One list of a desk.
#[derive(Clone, Copy, PartialEq, Eq)]
pub struct Row {
    pub ends: Ends,
    pub cursor: Cursor,
}

// What a command hands back: the list that it names, and the other one.
#[derive(Clone, Copy, PartialEq, Eq)]
pub struct Worked {
    pub answer: Answer,
    pub named: Row,
    pub other: Row,
}
