// The calls that are lent marks: walk and clear, the step of one list, the audit over two slices and over records, and the
// entries for a host; from 54 of `CALLS`.
use crate::args::Args;
use crate::values::{NONE, Value, Values, answered, row};
use crate::{args, directory, entries};
use ends::Ends;

fn walked(words: &[u32], marks: &mut [u8], e: Ends) -> Values {
    let r = walk::walk::walk(words, marks, e);
    row(&[answers::number(r.answer), r.count])
}

// The step of one list, which sets a mark of its own, on marks of any value.
fn stood(words: &[u32], marks: &mut [u8], e: Ends, mark: u32) -> Values {
    let r = walk::step::walk_list(words, marks, e, (mark % 256) as u8);
    row(&[Value::Flag(r.ok), Value::Number(r.count)])
}

fn clear(words: &mut [u32], marks: &mut [u8], e: Ends) -> Values {
    let r = walk::clear::clear(words, marks, e);
    answered(r.answer, &[r.ends.head, r.ends.tail])
}

// The audit of the line's four lists, and of empty ones after them; then the nodes are counted again by the marks.
fn audited(line: &[u8], words: &[u32], marks: &mut [u8]) -> Values {
    let r = audit::audit(
        words,
        args::heads(line).lent(),
        args::tails(line).lent(),
        marks,
    );
    let c = audit::count::count_nodes(words, marks);
    row(&[
        answers::number(r.answer),
        r.list,
        r.on_lists,
        r.stranded,
        c.on_lists,
        c.stranded,
    ])
}

pub(crate) fn call(
    code: usize,
    line: &[u8],
    a: Args,
    words: &mut [u32],
    marks: &mut [u8],
) -> Values {
    match code {
        54 => walked(words, marks, a.ends),
        55 => clear(words, marks, a.ends),
        56 => stood(words, marks, a.ends, a.node.0),
        57 => {
            walk::marks::zero_marks(marks);
            NONE
        }
        58 => audited(line, words, marks),
        59 => directory::audited(line, words, marks),
        60 => entries::walked(line, words, marks),
        _ => entries::audited(line, words, marks),
    }
}
