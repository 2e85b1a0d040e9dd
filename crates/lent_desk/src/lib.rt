// The lent desk: words, lists and marks are the caller's slices, of any length. One line a call. (Three slices and no struct of them:
// the caller has them apart, and each contract says of each what it ends as.)
#![tactic(auto)]

ghost use Rattle.std.specs.Prelude.{◌≡◌, ◌&&◌, ◌≤◌, leb, eqb, length, Some};
ghost use Rattle.words.specs.Names.{directory_fits};
ghost use Rattle.walk.specs.Marks.{marking};
ghost use Rattle.lines.specs.Lines.{line_of};
ghost use Rattle.desk.specs.Step.{desk_limit};
ghost use Rattle.rows.specs.Rows.{rows_of};
ghost use Rattle.lent_desk.specs.Lent.{lent, lent_stepped, lent_step};
ghost use Rattle.lent_desk.specs.Steps.{audit_reply, command_step, lent_tested};

use answers::Refusal;
use audit::audit_records;
use desk::work::{AUDIT, command};
use ends::Ends;
use lines::answer::Reply;
use lines::line::{Order, tested};
use replies::{to_audit, to_work, unread};
use rows::{put_row, row_at, row_count};

// The most nodes that a desk may have.
const DESK_LIMIT: usize = 4096;

// 1: so many nodes and lists are within the limits, and so many marks are one a node.
#[tactic(auto, unfolding(desk::specs::Step::desk_limit))]
fn sizes_fit(nodes: usize, marks: usize, lists: usize) -> bool
    ensures { result ≡ ((leb nodes desk_limit && eqb marks nodes) && directory_fits lists) }
{
    (nodes <= DESK_LIMIT) & (marks == nodes) & words::names::directory_fits(lists)
}

// Audits all lists. Their ends are copied into records, which an audit reads: the lists are words.
fn audit_lists(words: &[u32], lists: &[u32], marks: &mut [u8]) -> Reply
    requires { length (rows_of lists.now) ≤ 64 }
    ensures { marking marks.new result ≡ audit_reply words.now (rows_of lists.now) marks.old }
{
    let k = row_count(lists);
    let mut dir = [Ends::empty(); 64];
    for i in 0..k {
        dir[i] = row_at(lists, i).ends;
    }
    to_audit(audit_records(words, &dir[..k], marks))
}

// A command, once its lists are there: they are read, it is done, and the other list is stored, then the named one.
fn step_command(words: &mut [u32], lists: &mut [u32], marks: &mut [u8], order: Order) -> Reply
    ensures { lent_stepped (lent words.new lists.new marks.new) result ≡ command_step (lent words.old lists.old marks.old) order }
{
    let l = order.list as usize;
    let m = order.other as usize;
    let n = words.len();
    let named = row_at(lists, l);
    let other = row_at(lists, m);
    let w = command(words, marks, named, other, order);
    put_row(lists, m, w.other);
    put_row(lists, l, w.named);
    to_work(n, w)
}

// A line that was tested for 11: 1, the audit, 2, and then the command.
fn step_order(words: &mut [u32], lists: &mut [u32], marks: &mut [u8], order: Order) -> Reply
    ensures { lent_stepped (lent words.new lists.new marks.new) result ≡ lent_tested (lent words.old lists.old marks.old) (Some order) }
{
    let k = row_count(lists);
    if !sizes_fit(words.len(), marks.len(), k) {
        return unread(Refusal::Size);
    }
    if order.code == AUDIT {
        return audit_lists(words, lists, marks);
    }
    if (k <= order.list as usize) | (k <= order.other as usize) {
        return unread(Refusal::NoSuchList);
    }
    step_command(words, lists, marks, order)
}

// One line, as it was read, or an order that is handed in: 11 is tested, whatever it is.
pub fn step(words: &mut [u32], lists: &mut [u32], marks: &mut [u8], line: Option<Order>) -> Reply
    ensures { lent_stepped (lent words.new lists.new marks.new) result ≡ lent_step (lent words.old lists.old marks.old) line }
{
    let Some(order) = tested(line) else {
        return unread(Refusal::Malformed);
    };
    step_order(words, lists, marks, order)
}

// One line, from its bytes without the line feed.
pub fn step_bytes(words: &mut [u32], lists: &mut [u32], marks: &mut [u8], line: &[u8]) -> Reply
    ensures { lent_stepped (lent words.new lists.new marks.new) result ≡ lent_step (lent words.old lists.old marks.old) (line_of line.now) }
{
    step(words, lists, marks, lines::line::read(line))
}
