// The walk: whether a list has a listing, and how long it is.
ghost use Rattle.std.specs.Prelude.{◌≡◌};
ghost use Rattle.walk.specs.Marks.{marking};
ghost use Rattle.walk.specs.Calls.{walk_all};

use crate::marks::zero_marks;
use crate::step::walk_list;
use answers::{Answer, Refusal};
use ends::Ends;

// The answer, and the number of nodes stood on: done, they are the list's. No `Result`: the number is told on a fault too.
#[derive(Clone, Copy, PartialEq, Eq)]
pub struct Walked {
    pub answer: Answer,
    pub count: u32,
}

// Follows the chain of a list. The marks are 1 on the list and 0 elsewhere; all 0 if there is a fault.
pub fn walk(words: &[u32], marks: &mut [u8], ends: Ends) -> Walked
    ensures { marking marks.new result ≡ walk_all words.now marks.old ends }
{
    let n = words.len();
    if !(words::names::pool_fits(n) & (marks.len() == n)) {
        return Walked {
            answer: Err(Refusal::Size),
            count: 0,
        };
    }
    if !ends::tests::ends_hold(words, ends) {
        return Walked {
            answer: Err(Refusal::EndsDoNotHold),
            count: 0,
        };
    }
    zero_marks(marks);
    let stood = walk_list(words, marks, ends, 1);
    if stood.ok {
        return Walked {
            answer: Ok(None),
            count: stood.count,
        };
    }
    zero_marks(marks);
    Walked {
        answer: Err(Refusal::NoListing),
        count: stood.count,
    }
}
