// A loop of a caller's own over lent words, with its proof.
#![tactic(auto)]

ghost use Rattle.std.specs.Prelude.{◌≡◌};
ghost use Rattle.words.specs.Pool.{outcome};
ghost use Rattle.ends.specs.Ends.{list_edited};
ghost use Rattle.example_loop.specs.Pushed.{pushed_all};

use xor_linked_list::{Node, XorLinkedList};

// Pushes the nodes below `count` at the back of a list that starts empty. A node that the pool does not have is refused.
#[tactic(auto, unfolding(crate::specs::Pushed::pushed_all))]
pub fn push_all(words: &mut [u32], count: u32) -> XorLinkedList
    ensures { outcome words.new (list_edited result.answer result.ends) ≡ pushed_all count words.old }
{
    let mut list = XorLinkedList::new();
    for i in 0..count {
        list = list.push_back(words, Node(i));
    }
    list
}
