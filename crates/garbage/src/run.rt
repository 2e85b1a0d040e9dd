// A case: each call of its kind, on a fresh pool and fresh marks. A call's number is its place in `CALLS`: from 0 tests, moves
// and front at a cursor or of a list, 10 reading steps, 11 places, 15 iterators, 18 a read, 19 what is lent nothing; from 33
// changing steps, 39 edits, 44 splices and splits, 48 lists; from 54 walk and clear, 56 marks, 58 the audit, over two slices and
// over records, 60 the entries for a host. (Numbers and no enum: they are the places of the texts. So each match of them
// has `_` for the last call, or the last group, of those that it has.)
use crate::line::Argument;
use crate::values::Values;
use crate::{args, changes, line, marks, reads, show};
use std::io::{self, Stdout};

// Each call: the letter of its kind, and how it is shown: # is a value, = the words, % the marks.
const CALLS: [(u8, &str); 62] = [
    (
        b'f',
        "  tests: null#, node#, stands#, stand#, node#, pair#, some#, fresh###\n",
    ),
    (b'e', "  next_place###\n  prev_place###\n"),
    (b'e', "  move_next## |## |###\n"),
    (b'e', "  move_prev## |## |###\n"),
    (b'e', "  peek_next## |## |###\n"),
    (b'e', "  peek_prev## |## |###\n"),
    (b'l', "  tests: empty#, hold#, test#\n"),
    (b'l', "  front## |## |###\n"),
    (b'l', "  back## |## |###\n"),
    (b'l', "  take## |## |##\n"),
    (b's', "  get#\n  is_linked#\n  next#\n  prev#\n"),
    (b'p', "  by_prev## |## |###\n"),
    (b'p', "  by_next## |## |###\n"),
    (b'a', "  by_prev## |## |###\n"),
    (b'a', "  by_next## |## |###\n"),
    (b'i', "  next## |####\n"),
    (b'i', "  next_back## |####\n"),
    (b'i', "  turned####\n  new####\n"),
    (b'r', "  read## |###\n"),
    (
        b'n',
        "  pool_fits#\n  to_name#\n  is_null#\n  in_range#\n  decode#\n  is_linked#\n",
    ),
    (b'0', "refusals##"),
    (b'0', "##"),
    (b'0', "##"),
    (b'0', "##"),
    (b'0', "##"),
    (b'0', "##"),
    (b'0', "##"),
    (b'0', "##"),
    (b'0', "##"),
    (b'0', "##"),
    (b'0', "##"),
    (b'0', "##\n"),
    (b'0', "new link#; empty ends##; turned##; either##\n"),
    (b's', "  acquire_link# |=\n"),
    (b's', "  release_link |=\n"),
    (b's', "  set |=\n"),
    (b's', "  replace_next_or_prev |=\n"),
    (b's', "  link_between |=\n"),
    (b's', "  splice_between |=\n"),
    (b'f', "  insert_after## |## |### |=\n"),
    (b'e', "  insert_before## |## |### |=\n"),
    (b'e', "  unlink## |## |### |=\n"),
    (b'e', "  remove## |## |### |=\n"),
    (b'f', "  replace## |## |### |=\n"),
    (b'e', "  splice_after## |## |### |## |=\n"),
    (b'e', "  splice_before## |## |### |## |=\n"),
    (b'e', "  split_after## |## |### |## |=\n"),
    (b'f', "  split_before## |## |### |## |=\n"),
    (b'l', "  fast_clear## |##\n"),
    (b'l', "  reverse## |##\n"),
    (b'l', "  push_front## |## |=\n"),
    (b'l', "  push_back## |## |=\n"),
    (b'l', "  pop_front## |## |=\n"),
    (b'l', "  pop_back## |## |=\n"),
    (b'l', "  walk## |%\n"),
    (b'l', "  clear## |## |% |=\n"),
    (b'm', "  walk_list## |%\n"),
    (b'm', "  zero_marks%\n"),
    (
        b'd',
        "  audit#, list#, on lists#, stranded# |%\n  count_nodes##\n",
    ),
    (b'd', "  audit_records#, list#, on lists#, stranded# |%\n"),
    (b'h', "  rewzhanok_walk# |###### |%\n"),
    (b'h', "  rewzhanok_audit# |###### |%\n"),
];

// A call on words and marks.
fn call(code: usize, line: &[u8], words: &mut [u32], marks: &mut [u8]) -> Values {
    let a = args::of(line);
    match code {
        0..=32 => reads::call(code, line, a, words),
        33..=53 => changes::call(code, a, words),
        _ => marks::call(code, line, a, words, marks),
    }
}

// A call on words and marks, and what it leaves. The line gives the first eight of each, and says how many are lent. (The arrays
// are lent whole: where one function makes arrays so long and lends parts of them to change, the check runs out of stack.)
fn on(
    out: Stdout,
    code: usize,
    text: &str,
    line: &[u8],
    words: &mut [u32; 1000001],
    marks: &mut [u8; 1000001],
) -> io::Result<()> {
    args::words(args::cut(words, 8), line, Argument::FirstWord, 1, 1);
    args::marks(args::cut(marks, 8), line);
    let words = args::cut(words, args::length(line, Argument::Nodes));
    let marks = args::cut(marks, args::length(line, Argument::Marks));
    let values = call(code, line, words, marks);
    show::line(out, text, &values, line, words, marks)
}

// A call, with a pool and marks of its own.
fn fresh(out: Stdout, code: usize, text: &str, line: &[u8]) -> io::Result<()> {
    let mut words = [1u32; 1000001];
    let mut marks = [9u8; 1000001];
    on(out, code, text, line, &mut words, &mut marks)
}

// The calls that are of the line's kind. Those of f are of e too.
pub(crate) fn run(out: Stdout, line: &[u8]) -> io::Result<()> {
    let kind = line::kind(line);
    for (code, (letter, text)) in CALLS.iter().enumerate() {
        if (*letter == kind) | ((*letter == b'f') & (kind == b'e')) {
            fresh(out, code, text, line)?;
        }
    }
    Ok(())
}
