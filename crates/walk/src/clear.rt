// Clear: every node of a list is released, and the list is empty.
ghost use Rattle.std.specs.Prelude.{◌≡◌, cond, eqb, length};
ghost use Rattle.words.specs.Names.{unlinked_marker};
ghost use Rattle.words.specs.Pool.{outcome};
ghost use Rattle.walk.specs.Marks.{marking};
ghost use Rattle.walk.specs.Calls.{clear_all};
ghost use Rattle.walk.specs.Released.{Released};

use crate::walk::walk;
use ends::{Ends, ListEdited};
use words::link_ops::Link;

// The word of a node that has this mark, once the list with the mark 1 is released.
fn released(word: u32, mark: u8) -> u32
    ensures { result ≡ cond (eqb mark 1) unlinked_marker word }
{
    if mark == 1 {
        return Link::UNLINKED_MARKER;
    }
    word
}

// Releases every node that has the mark 1.
fn release_marked(words: &mut [u32], marks: &[u8])
    requires { length marks.now ≡ length words.old }
    ensures { Released words.old marks.now words.new }
{
    // By the index: of what is written through a `zip` with `iter_mut` nothing is proved.
    for (i, word) in words.iter_mut().enumerate() {
        *word = released(*word, marks[i]);
    }
}

// Walks the list, and if the walk is not refused releases its nodes. The marks are as the walk leaves them.
pub fn clear(words: &mut [u32], marks: &mut [u8], ends: Ends) -> ListEdited
    ensures { outcome words.new (marking marks.new result) ≡ clear_all words.old marks.old ends }
{
    let answer = walk(words, marks, ends).answer;
    if answer.is_err() {
        return ListEdited::new(answer, ends);
    }
    release_marked(words, marks);
    ListEdited::new(answer, Ends::empty())
}
