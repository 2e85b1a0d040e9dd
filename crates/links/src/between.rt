// `link_between` and `splice_between`: the two steps that join lists, in the source's order.
ghost use Rattle.std.specs.Prelude.{◌≡◌};
ghost use Rattle.links.specs.XorOps.{link_between, splice_between};

use crate::xor_ops::XorLinkedListOps;
use words::names::Name;

// Puts a node between two neighbours, either of which may be null.
#[tactic(auto, unfolding(crate::specs::XorOps::link_between))]
pub fn link_between(words: &mut [u32], ptr: Name, prev: Name, next: Name)
    ensures { words.new ≡ link_between words.old ptr.0 prev.0 next.0 }
{
    let prev_of_prev = XorLinkedListOps::prev(words, prev, next);
    XorLinkedListOps::set(words, prev, prev_of_prev, ptr);
    let next_of_next = XorLinkedListOps::next(words, next, prev);
    XorLinkedListOps::set(words, next, ptr, next_of_next);
    XorLinkedListOps::set(words, ptr, prev, next);
}

// Puts the list from start to end between two neighbours, either of which may be null.
#[tactic(auto, unfolding(crate::specs::XorOps::splice_between))]
pub fn splice_between(words: &mut [u32], start: Name, end: Name, prev: Name, next: Name)
    ensures { words.new ≡ splice_between words.old start.0 end.0 prev.0 next.0 }
{
    XorLinkedListOps::replace_next_or_prev(words, prev, next, start);
    XorLinkedListOps::replace_next_or_prev(words, next, prev, end);
    XorLinkedListOps::replace_next_or_prev(words, start, Name::NULL, prev);
    XorLinkedListOps::replace_next_or_prev(words, end, Name::NULL, next);
}
