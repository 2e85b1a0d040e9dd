// The lists of a desk in one lent slice of words, five a list: head, tail, and its cursor's current, prev and next. A list is read
// here and stored here, and nowhere else. (Words and no records: who lends them may be no program of this language.)
#![tactic(auto)]

ghost use Rattle.std.specs.Prelude.{◌≡◌, length, get_or, set};
ghost use Rattle.desk.specs.Step.{fresh_row};
ghost use Rattle.rows.specs.Rows.{rows_of, laid};

use cursor::Cursor;
use desk::Row;
use ends::Ends;
use words::names::Name;

// How many lists a slice has.
pub fn row_count(lists: &[u32]) -> usize
    ensures { result ≡ length (rows_of lists.now) }
{
    lists.len() / 5
}

// List i. Where it is not there, an empty one with a null cursor: any number may be handed in.
pub fn row_at(lists: &[u32], i: usize) -> Row
    ensures { result ≡ get_or (rows_of lists.now) i fresh_row }
{
    let (rows, _) = lists.as_chunks::<5>();
    let Some(&[head, tail, current, prev, next]) = rows.get(i) else {
        let none = Ends::empty();
        return Row {
            ends: none,
            cursor: Cursor::null(none),
        };
    };
    Row {
        ends: Ends::new(Name(head), Name(tail)),
        cursor: Cursor::new(Name(current), Name(prev), Name(next)),
    }
}

// Stores list i. Where it is not there, nothing is stored. (By place: of `as_chunks_mut` it is not told what the slice ends as.)
pub fn put_row(lists: &mut [u32], i: usize, row: Row)
    ensures { lists.new ≡ laid (set (rows_of lists.old) i row) lists.old }
{
    if row_count(lists) <= i {
        return;
    }
    let Row { ends, cursor } = row;
    let at = 5 * i;
    lists[at..at + 5].copy_from_slice(&[
        ends.head.0,
        ends.tail.0,
        cursor.current.0,
        cursor.prev.0,
        cursor.next.0,
    ]);
}
