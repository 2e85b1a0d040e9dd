// What a host in C with pools of its own links, as include/rewzhanok_pools.h declares it: the functions of `rewzhanok_pools`, under
// C's calling convention.
#![tactic(auto)]

ghost use Rattle.std.specs.Prelude.{◌≡◌};
ghost use Rattle.ends.specs.Ends.{ends_of};
ghost use Rattle.audit.specs.Audit.{zip_ends};
ghost use Rattle.rewzhanok_pools.specs.Entries.{entered, walk_entry, audit_entry};

// Walks the list with these ends. The number written is how many nodes it stood on.
#[unsafe(no_mangle)]
pub extern "C" fn rewzhanok_walk(
    words: &[u32],
    head: u32,
    tail: u32,
    marks: &mut [u8],
    numbers: &mut [u32],
) -> u32
    ensures { entered marks.new numbers.new result ≡ walk_entry words.now (ends_of (record { 0 = head }) (record { 0 = tail })) marks.old numbers.old }
{
    rewzhanok_pools::rewzhanok_walk(words, head, tail, marks, numbers)
}

// Audits the lists with these heads and tails. The numbers written are the list that a refusal names, the nodes on lists, the
// stranded nodes, and 0.
#[unsafe(no_mangle)]
pub extern "C" fn rewzhanok_audit(
    words: &[u32],
    heads: &[u32],
    tails: &[u32],
    marks: &mut [u8],
    numbers: &mut [u32],
) -> u32
    ensures { entered marks.new numbers.new result ≡ audit_entry words.now (zip_ends heads.now tails.now) marks.old numbers.old }
{
    rewzhanok_pools::rewzhanok_audit(words, heads, tails, marks, numbers)
}
