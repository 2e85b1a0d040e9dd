// The audit over records: the same lists as the audit over two slices has, 65 at the most, as one slice of structs.
ghost use Rattle.std.specs.Prelude.{◌≡◌, take};
ghost use Rattle.walk.specs.Marks.{marking};
ghost use Rattle.audit.specs.Audit.{audit_all};

use crate::args;
use crate::line::Argument;
use crate::values::{Values, row};
use audit::{Audited, audit_records};
use ends::Ends;
use words::names::Name;

// The records of the line's four lists, and of empty ones after them.
fn all(line: &[u8]) -> [Ends; 65] {
    let heads = args::heads(line).names;
    let tails = args::tails(line).names;
    let mut all = [Ends::empty(); 65];
    for (ends, (head, tail)) in all.iter_mut().zip(heads.iter().zip(&tails)) {
        *ends = Ends::new(Name(*head), Name(*tail));
    }
    all
}

// The first so many records are lent.
fn audit_first(words: &[u32], dir: &[Ends; 65], n: usize, marks: &mut [u8]) -> Audited
    ensures { marking marks.new result ≡ audit_all words.now (take n dir.now) marks.old }
{
    audit_records(words, args::first(dir, n), marks)
}

pub(crate) fn audited(line: &[u8], words: &[u32], marks: &mut [u8]) -> Values {
    let lists = args::length(line, Argument::Head).min(args::length(line, Argument::Tail));
    let r = audit_first(words, &all(line), lists, marks);
    row(&[answers::number(r.answer), r.list, r.on_lists, r.stranded])
}
