// The entries for a host in C that has pools of its own: walk and audit over its arrays.
#![tactic(auto)]

ghost use Rattle.std.specs.Prelude.{◌≡◌};
ghost use Rattle.ends.specs.Ends.{ends_of};
ghost use Rattle.audit.specs.Audit.{zip_ends};
ghost use Rattle.rewzhanok_pools.specs.Entries.{entered, walk_entry, audit_entry};

use answers::Refusal;
use ends::Ends;
use words::names::Name;

// Walks the list with these ends. The number written is how many nodes it stood on.
#[tactic(auto, unfolding(crate::specs::Entries::walk_entry))]
pub fn rewzhanok_walk(
    words: &[u32],
    head: u32,
    tail: u32,
    marks: &mut [u8],
    numbers: &mut [u32],
) -> u32
    ensures { entered marks.new numbers.new result ≡ walk_entry words.now (ends_of (record { 0 = head }) (record { 0 = tail })) marks.old numbers.old }
{
    let Some(count) = numbers.first_mut() else {
        return Refusal::NoRoom.number();
    };
    let ends = Ends::new(Name(head), Name(tail));
    let w = walk::walk::walk(words, marks, ends);
    *count = w.count;
    answers::number(w.answer)
}

// Audits the lists with these heads and tails. The numbers written are the list that a refusal names, the nodes on lists, the
// stranded nodes, and 0.
#[tactic(auto, unfolding(crate::specs::Entries::audit_entry))]
pub fn rewzhanok_audit(
    words: &[u32],
    heads: &[u32],
    tails: &[u32],
    marks: &mut [u8],
    numbers: &mut [u32],
) -> u32
    ensures { entered marks.new numbers.new result ≡ audit_entry words.now (zip_ends heads.now tails.now) marks.old numbers.old }
{
    let Some(four) = numbers.first_chunk_mut::<4>() else {
        return Refusal::NoRoom.number();
    };
    let a = audit::audit(words, heads, tails, marks);
    *four = [a.list, a.on_lists, a.stranded, 0];
    answers::number(a.answer)
}
