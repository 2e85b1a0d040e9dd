// `XorLinkedListOps`: the steps on links of a xor list, whose word is made of two neighbours' names.
ghost use Rattle.std.specs.Prelude.{◌≡◌};
ghost use Rattle.links.specs.XorOps.{next_of, prev_of, set_link, replace_next_or_prev};

use words::link_ops::LinkOps;
use words::names::Name;

// The steps, as functions of this type.
#[derive(Clone, Copy)]
pub struct XorLinkedListOps;

impl XorLinkedListOps {
    // What comes after a node, from what comes before it.
    #[tactic(auto, unfolding(crate::specs::XorOps::next_of))]
    pub fn next(words: &[u32], ptr: Name, prev: Name) -> Name
        ensures { result ≡ record { 0 = next_of words.now ptr.0 prev.0 } }
    {
        Name(LinkOps::get(words, ptr).0 ^ prev.0)
    }

    // What comes before a node, from what comes after it. (The same xor as `next`: the source has both names.)
    #[tactic(auto, unfolding(crate::specs::XorOps::prev_of))]
    pub fn prev(words: &[u32], ptr: Name, next: Name) -> Name
        ensures { result ≡ record { 0 = prev_of words.now ptr.0 next.0 } }
    {
        Name(LinkOps::get(words, ptr).0 ^ next.0)
    }

    #[tactic(auto, unfolding(crate::specs::XorOps::set_link))]
    pub fn set(words: &mut [u32], ptr: Name, prev: Name, next: Name)
        ensures { words.new ≡ set_link words.old ptr.0 prev.0 next.0 }
    {
        LinkOps::put(words, ptr, prev.0 ^ next.0);
    }

    // Trades one neighbour of a node for another, whichever side it is on.
    #[tactic(auto, unfolding(crate::specs::XorOps::replace_next_or_prev))]
    pub fn replace_next_or_prev(words: &mut [u32], ptr: Name, old: Name, new: Name)
        ensures { words.new ≡ replace_next_or_prev words.old ptr.0 old.0 new.0 }
    {
        LinkOps::put(words, ptr, LinkOps::get(words, ptr).0 ^ old.0 ^ new.0);
    }
}
