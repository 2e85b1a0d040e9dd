// Nodes on lists and stranded nodes, counted by the marks that the walks leave.
ghost use Rattle.std.specs.Prelude.{◌≡◌, not, ◌&&◌, ◌==◌};
ghost use Rattle.words.specs.Names.{is_linked};
ghost use Rattle.audit.specs.Audit.{bit};
ghost use Rattle.audit.specs.Steps.{counted_of};

use words::link_ops::Link;

// How many nodes have a mark, and how many have none and are linked all the same.
#[derive(Clone, Copy, PartialEq, Eq)]
pub struct Counted {
    pub on_lists: u32,
    pub stranded: u32,
}

// 1 for a node with this mark, if that is one.
#[tactic(auto, unfolding(crate::specs::Audit::bit))]
fn on_list(mark: u8) -> u32
    ensures { result ≡ bit (not (mark == 0)) }
{
    u32::from(mark != 0)
}

// 1 for a node that has this word and this mark, if it is stranded.
#[tactic(auto, unfolding(crate::specs::Audit::bit))]
fn off_lists(word: u32, mark: u8) -> u32
    ensures { result ≡ bit (not (not (mark == 0)) && is_linked word) }
{
    u32::from((mark == 0) & Link(word).is_linked())
}

// Counts the nodes of a pool, in one pass over its words and marks; none where the sizes do not fit.
pub fn count_nodes(words: &[u32], marks: &[u8]) -> Counted
    ensures { result ≡ counted_of words.now marks.now }
{
    let n = words.len();
    if !(words::names::pool_fits(n) & (marks.len() == n)) {
        return Counted {
            on_lists: 0,
            stranded: 0,
        };
    }
    let mut on_lists = 0;
    let mut stranded = 0;
    for (word, mark) in words.iter().zip(marks) {
        on_lists += on_list(*mark);
        stranded += off_lists(*word, *mark);
    }
    Counted { on_lists, stranded }
}
