// `Link` and `LinkOps`, which lists of every kind share: a link is a word of the pool, reached by its node's name.
// At null and at a word that is no name in range there is no link: a read gives 0, and a store does nothing.
ghost use Rattle.std.specs.Prelude.{◌≡◌};
ghost use Rattle.words.specs.Names.{unlinked_marker, is_linked};
ghost use Rattle.words.specs.Pool.{word_at, put_at, outcome};
ghost use Rattle.words.specs.LinkOps.{linked_at, acquire_link, release_link};

use crate::names::Name;

// A packed word, out of the pool.
#[derive(Clone, Copy)]
pub struct Link(pub u32);

impl Link {
    // The word of a node that is on no list.
    pub const UNLINKED_MARKER: u32 = 1;

    pub fn new() -> Link
        ensures { result ≡ record { 0 = unlinked_marker } }
    {
        Link(Link::UNLINKED_MARKER)
    }

    #[tactic(auto, unfolding(crate::specs::Names::is_linked))]
    pub fn is_linked(self) -> bool
        ensures { result ≡ is_linked self.0 }
    {
        self.0 != Link::UNLINKED_MARKER
    }
}

// The steps on links that do not look at what a word is made of, as functions of this type.
#[derive(Clone, Copy)]
pub struct LinkOps;

impl LinkOps {
    // The link of a node, by the node's name. (0 and no `Option` where there is none: a call may be given any names, and the steps go on by
    // such words, as document 01 has it.)
    pub fn get(words: &[u32], ptr: Name) -> Link
        ensures { result ≡ record { 0 = word_at words.now ptr.0 } }
    {
        let Some(node) = ptr.decode(words.len()) else {
            return Link(0);
        };
        let i = node.0 as usize;
        Link(words[i])
    }

    // Stores a packed word in a node, by the node's name.
    pub fn put(words: &mut [u32], ptr: Name, packed: u32)
        ensures { words.new ≡ put_at words.old ptr.0 packed }
    {
        let Some(node) = ptr.decode(words.len()) else {
            return;
        };
        let i = node.0 as usize;
        words[i] = packed;
    }

    #[tactic(auto, unfolding(crate::specs::LinkOps::linked_at))]
    pub fn is_linked(words: &[u32], ptr: Name) -> bool
        ensures { result ≡ linked_at words.now ptr.0 }
    {
        LinkOps::get(words, ptr).is_linked()
    }

    // Takes an unlinked node for a list; false where it is linked already, or is no node. (The source's bool: which of the two it is, the
    // tests before it have told.)
    #[tactic(auto, unfolding(crate::specs::LinkOps::acquire_link))]
    pub fn acquire_link(words: &mut [u32], ptr: Name) -> bool
        ensures { outcome words.new result ≡ acquire_link words.old ptr.0 }
    {
        if LinkOps::is_linked(words, ptr) {
            return false;
        }
        LinkOps::put(words, ptr, 0);
        true
    }

    #[tactic(auto, unfolding(crate::specs::LinkOps::release_link))]
    pub fn release_link(words: &mut [u32], ptr: Name)
        ensures { words.new ≡ release_link words.old ptr.0 }
    {
        LinkOps::put(words, ptr, Link::UNLINKED_MARKER);
    }
}
