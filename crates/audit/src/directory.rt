// Where the ends of a directory's lists are read: in two slices, of heads and of tails, or in one of records.
ghost use Rattle.std.specs.Prelude.{◌≡◌, ◌<◌, List, length};
ghost use Rattle.std.proofs.Common.{get_or};
ghost use Rattle.ends.specs.declared.Ends.{Ends};
ghost use Rattle.ends.specs.Ends.{empty_ends};
ghost use Rattle.audit.specs.Audit.{zip_ends};

use ends::Ends;
use words::names::Name;

pub(crate) trait Directory {
    ghost lists: { Self → List Ends };

    fn count(&self) -> usize
        ensures { result ≡ length (lists self.now) };

    fn ends_at(&self, list: usize) -> Ends
        requires { list < length (lists self.now) }
        ensures { result ≡ get_or (lists self.now) list empty_ends };
}

// A list for each head that has a tail.
#[derive(Clone, Copy)]
pub(crate) struct Columns<'a> {
    pub heads: &'a [u32],
    pub tails: &'a [u32],
}

impl Directory for Columns<'_> {
    ghost lists = { λ s. zip_ends s.heads.now s.tails.now };

    #[tactic(auto, using(crate::proofs::Laws::Columns::zip_length))]
    fn count(&self) -> usize {
        self.heads.len().min(self.tails.len())
    }

    #[tactic(auto, using(crate::proofs::Laws::Columns::columns))]
    fn ends_at(&self, list: usize) -> Ends {
        Ends::new(Name(self.heads[list]), Name(self.tails[list]))
    }
}

impl Directory for &[Ends] {
    ghost lists = { λ s. s.now };

    fn count(&self) -> usize {
        self.len()
    }

    fn ends_at(&self, list: usize) -> Ends {
        self[list]
    }
}
