// The step of one list: it follows the chain from the head, and sets a mark on every node that it stands on.
ghost use Rattle.std.specs.Prelude.{◌≡◌, true, [], ◌≢◌, length};
ghost use Rattle.std.specs.Int.Bits.{bit_xor};
ghost use Rattle.words.specs.Names.{pool_fits};
ghost use Rattle.walk.specs.Marks.{marking};
ghost use Rattle.walk.specs.Walk.{walk_from, at_tail};
ghost use Rattle.walk.specs.Calls.{stood, walk_list};

use ends::Ends;
use links::xor_ops::XorLinkedListOps;
use words::names::Name;

// How the step ended, and on how many nodes it stood. No `Result`: the count is told whether the walk is right or not.
#[derive(Clone, Copy, PartialEq, Eq)]
pub struct Stood {
    pub ok: bool,
    pub count: u32,
}

// The loop. No node is stood on twice, so as many turns as there are nodes are enough.
fn walk_from(words: &[u32], marks: &mut [u8], ends: Ends, mark: u8) -> Stood
    requires words_value { pool_fits (length words.now) ≡ true }
    requires marks_len { length marks.old ≡ length words.now }
    requires mark_nonzero { mark ≢ 0 }
    ensures { marking marks.new result ≡ stood marks.old mark (walk_from bit_xor (at_tail ends.tail.0) (length words.now) words.now marks.old [] 0 ends.head.0) }
{
    let n = words.len();
    let nodes = n as u32;
    let mut at = ends.head;
    let mut prev = Name::NULL;
    for count in 0..nodes {
        let Some(node) = at.decode(n) else {
            return Stood { ok: false, count };
        };
        let x = node.0 as usize;
        if 0 < marks[x] {
            return Stood { ok: false, count };
        }
        marks[x] = mark;
        let next = XorLinkedListOps::next(words, at, prev);
        if at == ends.tail {
            return Stood {
                ok: next.is_null(),
                count: count + 1,
            };
        }
        prev = at;
        at = next;
    }
    Stood {
        ok: false,
        count: nodes,
    }
}

// Walks one list with a mark of its own. A node that has a mark already is on another list, and a fault.
pub fn walk_list(words: &[u32], marks: &mut [u8], ends: Ends, mark: u8) -> Stood
    ensures { marking marks.new result ≡ walk_list words.now marks.old ends mark }
{
    let n = words.len();
    let sizes_fit = words::names::pool_fits(n) & (marks.len() == n);
    if !(sizes_fit & (mark != 0) & ends::tests::ends_hold(words, ends)) {
        return Stood {
            ok: false,
            count: 0,
        };
    }
    if ends.is_empty() {
        return Stood { ok: true, count: 0 };
    }
    walk_from(words, marks, ends, mark)
}
