// Node numbers and names: two kinds of number, each a struct of its own. `Node::to_name` and `Name::decode` lead across.
ghost use Rattle.std.specs.Prelude.{◌≡◌};
ghost use Rattle.words.specs.Names.{pool_fits, directory_fits, is_null, is_name, naming, decoding};

// The number of a node: its place in the pool.
#[derive(Clone, Copy, PartialEq, Eq)]
pub struct Node(pub u32);

// A word that stands for a node: null, or the node's name.
#[derive(Clone, Copy, PartialEq, Eq)]
pub struct Name(pub u32);

// The most nodes that a pool may have.
const POOL_LIMIT: usize = 1_000_000;

// The most lists that a directory may have.
const DIRECTORY_LIMIT: usize = 64;

// A pool of this many nodes is within the limit.
#[tactic(auto, unfolding(crate::specs::Names::pool_fits, crate::specs::Names::pool_limit))]
pub fn pool_fits(len: usize) -> bool
    ensures { result ≡ pool_fits len }
{
    len <= POOL_LIMIT
}

// A directory of this many lists is within the limit.
#[tactic(auto, unfolding(crate::specs::Names::directory_fits, crate::specs::Names::directory_limit))]
pub fn directory_fits(lists: usize) -> bool
    ensures { result ≡ directory_fits lists }
{
    lists <= DIRECTORY_LIMIT
}

impl Node {
    // Naming. A number whose name would be no 32-bit word has none, and gets null. (No `From`: naming and decoding are document 01's
    // words for the only ways across.)
    #[tactic(auto, unfolding(crate::specs::Names::naming))]
    pub fn to_name(self) -> Name
        ensures { result ≡ naming self }
    {
        let i = self.0;
        if i < 0x7fff_ffff {
            return Name(2 * (i + 1));
        }
        Name::NULL
    }
}

impl Name {
    pub const NULL: Name = Name(0);

    pub fn is_null(self) -> bool
        ensures { result ≡ is_null self }
    {
        self.0 == 0
    }

    // The word is the name of a node of a pool of this many.
    #[tactic(auto, unfolding(crate::specs::Names::is_name))]
    pub fn in_range(self, len: usize) -> bool
        ensures { result ≡ is_name len self.0 }
    {
        let w = self.0;
        (w % 2 == 0) & (0 < w) & (((w / 2) as usize) <= len)
    }

    // Decoding: the node of a pool of this many that the word names, if it does.
    pub fn decode(self, len: usize) -> Option<Node>
        ensures { result ≡ decoding len self }
    {
        if self.in_range(len) {
            return Some(Node(self.0 / 2 - 1));
        }
        None
    }
}
