// The audit: all the lists of a directory at once, over lent words and lent marks, one byte a node.
#![tactic(auto)]

pub mod count;
mod directory;

ghost use Rattle.std.specs.Prelude.{◌≡◌, ◌≤◌, length};
ghost use Rattle.answers.specs.declared.Refusal.TheVariants.{EndsDoNotHold, NoListing};
ghost use Rattle.walk.specs.Marks.{marking};
ghost use Rattle.audit.specs.Audit.{zip_ends, audit_fits, lowest_unheld, walks_of, audit_all};
ghost use Rattle.audit.specs.Steps.{reported, unless_at, unmarked_at, counted_steps};

use crate::count::{Counted, count_nodes};
use crate::directory::{Columns, Directory};
use answers::{Answer, Refusal};
use ends::Ends;

// The answer; the list that a refusal names; and, done, how many nodes are on lists and how many are stranded. What an
// answer does not tell is 0, so these are numbers in every case, and no `Option`s.
#[derive(Clone, Copy, PartialEq, Eq)]
pub struct Audited {
    pub answer: Answer,
    pub list: u32,
    pub on_lists: u32,
    pub stranded: u32,
}

// Why an audit is refused, and the list that it names.
#[derive(Clone, Copy, PartialEq, Eq)]
struct Fault {
    refusal: Refusal,
    list: u32,
}

// The pool and the directory are within their limits, and there is one mark a node.
#[tactic(auto, unfolding(crate::specs::Audit::audit_fits, walk::specs::Marks::sizes_fit))]
fn fits<D: Directory>(words: &[u32], dir: &D, marks: &[u8]) -> bool
    ensures { result ≡ audit_fits words.now (D.lists dir.now) marks.now }
{
    let n = words.len();
    words::names::pool_fits(n) & (marks.len() == n) & words::names::directory_fits(dir.count())
}

// The lists are tested in turn, as far as the first whose ends do not hold.
fn test_ends<D: Directory>(words: &[u32], dir: &D) -> Result<(), Fault>
    requires { length (D.lists dir.now) ≤ 64 }
    ensures { result ≡ unless_at EndsDoNotHold (lowest_unheld words.now 0 (D.lists dir.now)) }
{
    for list in 0..dir.count() {
        if !ends::tests::ends_hold(words, dir.ends_at(list)) {
            return Err(Fault {
                refusal: Refusal::EndsDoNotHold,
                list: list as u32,
            });
        }
    }
    Ok(())
}

// The lists are walked in turn, each with its number plus 1 for a mark. At a fault every mark is taken away.
fn walk_lists<D: Directory>(words: &[u32], dir: &D, marks: &mut [u8]) -> Result<(), Fault>
    requires { length (D.lists dir.now) ≤ 64 }
    ensures { let w = walks_of words.now 0 (D.lists dir.now) marks.old in
        marking marks.new result ≡ marking (unmarked_at w.marks w.result) (unless_at NoListing w.result) }
{
    for list in 0..dir.count() {
        let mark = list as u8 + 1;
        if !walk::step::walk_list(words, marks, dir.ends_at(list), mark).ok {
            walk::marks::zero_marks(marks);
            return Err(Fault {
                refusal: Refusal::NoListing,
                list: list as u32,
            });
        }
    }
    Ok(())
}

// The sizes are tested, then the ends of all lists; the lists are walked over marks of which none is set, and the nodes counted.
#[tactic(auto, unfolding(crate::specs::Steps::counted_steps))]
fn count_lists<D: Directory>(words: &[u32], dir: &D, marks: &mut [u8]) -> Result<Counted, Fault>
    ensures { marking marks.new result ≡ counted_steps words.now (D.lists dir.now) marks.old }
{
    if !fits(words, dir, marks) {
        return Err(Fault {
            refusal: Refusal::Size,
            list: 0,
        });
    }
    test_ends(words, dir)?;
    walk::marks::zero_marks(marks);
    walk_lists(words, dir, marks)?;
    Ok(count_nodes(words, marks))
}

// What is handed back of an audit.
fn report(found: Result<Counted, Fault>) -> Audited
    ensures { result ≡ reported found }
{
    match found {
        Ok(c) => Audited {
            answer: Ok(None),
            list: 0,
            on_lists: c.on_lists,
            stranded: c.stranded,
        },
        Err(fault) => Audited {
            answer: Err(fault.refusal),
            list: fault.list,
            on_lists: 0,
            stranded: 0,
        },
    }
}

// Audits the lists with these heads and tails, as many as there are of both. Done, each node on a list has the list's number plus 1
// for a mark. (Two slices, and not one of records: the entry for C has its caller's, and document 01 has this form beside the other.)
pub fn audit(words: &[u32], heads: &[u32], tails: &[u32], marks: &mut [u8]) -> Audited
    ensures { marking marks.new result ≡ audit_all words.now (zip_ends heads.now tails.now) marks.old }
{
    report(count_lists(words, &Columns { heads, tails }, marks))
}

// Audits a directory that is one lent slice of records.
pub fn audit_records(words: &[u32], dir: &[Ends], marks: &mut [u8]) -> Audited
    ensures { marking marks.new result ≡ audit_all words.now dir.now marks.old }
{
    report(count_lists(words, &dir, marks))
}
