// The tests of fixed size: ends hold, a cursor stands. Each reads a few words, and follows no chain.
ghost use Rattle.std.specs.Prelude.{◌≡◌};
ghost use Rattle.ends.specs.Tests.{link_with, ends_hold, side_holds, ends_test};

use crate::Ends;
use answers::Refusal;
use links::xor_ops::XorLinkedListOps;
use words::link_ops::LinkOps;
use words::names::Name;

// The word is null or a name in range, and null exactly if `alone`.
#[tactic(auto, unfolding(crate::specs::Tests::link_with))]
fn link_with(len: usize, w: Name, alone: bool) -> bool
    ensures { result ≡ link_with len w.0 alone }
{
    let null = w.is_null();
    (null | w.in_range(len)) & (null == alone)
}

#[tactic(auto, unfolding(crate::specs::Tests::ends_hold))]
pub fn ends_hold(words: &[u32], ends: Ends) -> bool
    ensures { result ≡ ends_hold words.now ends }
{
    let n = words.len();
    let alone = ends.head == ends.tail;
    (ends.head.is_null() & ends.tail.is_null())
        | (ends.head.in_range(n)
            & ends.tail.in_range(n)
            & link_with(n, Name(LinkOps::get(words, ends.head).0), alone)
            & link_with(n, Name(LinkOps::get(words, ends.tail).0), alone))
}

// A neighbour of the cursor's node, if it is one: what is on its far side is null or a name in range, null exactly at the end.
#[tactic(auto, unfolding(crate::specs::Tests::side_holds))]
fn side_holds(words: &[u32], current: Name, side: Name, end: Name) -> bool
    ensures { result ≡ side_holds words.now current.0 side.0 end.0 }
{
    side.is_null()
        | link_with(
            words.len(),
            XorLinkedListOps::next(words, side, current),
            side == end,
        )
}

// A cursor with these three names stands on the list.
#[tactic(auto, unfolding(crate::specs::Tests::stands))]
pub fn stands(words: &[u32], ends: Ends, current: Name, prev: Name, next: Name) -> bool
    ensures { result ≡ Rattle.ends.specs.Tests.stands words.now ends current.0 prev.0 next.0 }
{
    let n = words.len();
    (current.is_null() & (prev == ends.tail) & (next == ends.head))
        | (!ends.is_empty()
            & current.in_range(n)
            & link_with(n, prev, current == ends.head)
            & link_with(n, next, current == ends.tail)
            & (current != prev)
            & (current != next)
            & (prev.is_null() | (prev != next))
            & (LinkOps::get(words, current).0 == prev.0 ^ next.0)
            & side_holds(words, current, prev, ends.head)
            & side_holds(words, current, next, ends.tail))
}

// The tests of a call that takes ends: 1, then 4.
#[tactic(auto, unfolding(crate::specs::Tests::ends_test))]
pub fn ends_test(words: &[u32], ends: Ends) -> Result<(), Refusal>
    ensures { result ≡ ends_test words.now ends }
{
    if !words::names::pool_fits(words.len()) {
        return Err(Refusal::Size);
    }
    if !ends_hold(words, ends) {
        return Err(Refusal::EndsDoNotHold);
    }
    Ok(())
}
