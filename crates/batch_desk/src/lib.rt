// The batch desk: 1,024 words, eight lists and their cursors. It goes in and comes back by value, with its answer to the last line
// in it. A run is over bytes that come in pieces: a line may begin in one piece and end in a later one.
#![tactic(auto)]

ghost use Rattle.std.specs.Prelude.{◌≡◌};
ghost use Rattle.words.specs.Pool.{outcome};
ghost use Rattle.audit.specs.Audit.{audit_all};
ghost use Rattle.lines.specs.Answers.{reply};
ghost use Rattle.desk.specs.Reply.{reply_to_audit};
ghost use Rattle.desk.specs.Work.{clearing};
ghost use Rattle.desk.specs.Step.{desk_stepped, ends_of_all, fresh_desk, command};
ghost use Rattle.batch_desk.specs.Step.{desk_of, kept_of, no_marks, batch_step};
ghost use Rattle.batch_desk.specs.Steps.{unmarking, desk_on, batch_tested};
ghost use Rattle.batch_desk.specs.Run.{running, run_from, run_of, finish_of};

use answers::Refusal;
use audit::audit_records;
use cursor::Cursor;
use desk::work::{AUDIT, CLEAR, clear, command};
use desk::{Row, Worked};
use ends::Ends;
use lines::answer::Reply;
use lines::line::{Line, Order, tested};
use replies::{to_audit, to_work, unread};
use stream::{put_reply, take_line};
use words::link_ops::Link;

// The desk by value, with its answer to the line before.
#[derive(Clone, Copy, PartialEq, Eq)]
pub struct BatchDesk {
    pub words: [u32; 1024],
    pub rows: [Row; 8],
    pub reply: Reply,
}

// Every node unlinked, every list empty, every cursor null.
#[tactic(auto, unfolding(desk::specs::Step::fresh_desk))]
pub fn fresh() -> BatchDesk
    ensures { kept_of result ≡ desk_stepped (fresh_desk 1024 8) (reply 0 0 0) }
{
    let ends = Ends::empty();
    let row = Row {
        ends,
        cursor: Cursor::null(ends),
    };
    BatchDesk {
        words: [Link::UNLINKED_MARKER; 1024],
        rows: [row; 8],
        reply: Reply {
            number: 0,
            first: 0,
            second: 0,
        },
    }
}

// Clear, with marks of its own. A function of its own, so that no other line of a run pays for them.
fn clear_in(words: &mut [u32; 1024], named: Row, other: Row) -> Worked
    ensures { outcome words.new result ≡ unmarking (clearing words.old no_marks named other) }
{
    let mut marks = [0u8; 1024];
    clear(words, &mut marks, named, other)
}

// A command on lists, once 11, 1 and 2 are tested. No other than clear wants marks. (`command` tests for clear again, which costs
// nothing beside the second function that it saves.)
fn work_in(words: &mut [u32; 1024], named: Row, other: Row, order: Order) -> Worked
    ensures { outcome words.new result ≡ unmarking (command words.old no_marks named other order) }
{
    if order.code == CLEAR {
        return clear_in(words, named, other);
    }
    command(words, &mut [], named, other, order)
}

// The audit, with marks of its own, answered.
fn audit_in(words: &[u32; 1024], rows: &[Row; 8]) -> Reply
    ensures { result ≡ reply_to_audit (audit_all words.now (ends_of_all rows.now) no_marks).result }
{
    let dir = rows.map(|row| row.ends);
    let mut marks = [0u8; 1024];
    to_audit(audit_records(words, &dir, &mut marks))
}

// A line that was tested for 11: the audit, 2, and then the command. The other list is put back first: where both are one, the
// named one stands.
fn step_rows(words: &mut [u32; 1024], rows: &mut [Row; 8], line: Option<Order>) -> Reply
    ensures { desk_stepped (desk_on words.new rows.new) result ≡ batch_tested (desk_on words.old rows.old) line }
{
    let Some(order) = line else {
        return unread(Refusal::Malformed);
    };
    if order.code == AUDIT {
        return audit_in(words, rows);
    }
    let l = order.list as usize;
    let m = order.other as usize;
    if (8 <= l) | (8 <= m) {
        return unread(Refusal::NoSuchList);
    }
    let named = rows[l];
    let other = rows[m];
    let w = work_in(words, named, other, order);
    rows[m] = w.other;
    rows[l] = w.named;
    to_work(1024, w)
}

// What a line leaves of the desk, with its answer. 11 is tested, whatever is handed in.
pub fn step(mut desk: BatchDesk, line: Option<Order>) -> BatchDesk
    ensures { kept_of result ≡ batch_step (desk_of desk) line }
{
    desk.reply = step_rows(&mut desk.words, &mut desk.rows, tested(line));
    desk
}

// How far a run has come: the desk, the line that is not ended yet, and how many bytes of answers were written. (A count
// beside the caller's slice, and no `Vec`: nothing here allocates, and the entry for C has its caller's array.)
#[derive(Clone, Copy, PartialEq, Eq)]
pub struct Ran {
    pub desk: BatchDesk,
    pub line: Line,
    pub wrote: usize,
}

// Runs the desk over the input, from a line that may be begun, with answers from a place on, while there is room. Each line does
// to the desk what `step` does, where it stands: handed over and back, it would be copied twice a line. `parse` has tested 11.
fn run_at(mut desk: BatchDesk, mut line: Line, input: &[u8], out: &mut [u8], at: usize) -> Ran
    ensures { running out.new (kept_of result.desk) result.line result.wrote ≡ run_from (running out.old (kept_of desk) line at) input.now }
{
    let mut wrote = at;
    let mut i = 0;
    // No `for`: the place goes on by whole lines.
    while i < input.len() {
        let t = take_line(input, i, line);
        if !t.ended {
            return Ran {
                desk,
                line: t.line,
                wrote,
            };
        }
        i = t.next;
        line = Line::new();
        let reply = step_rows(&mut desk.words, &mut desk.rows, t.line.parse());
        desk.reply = reply;
        wrote = put_reply(out, wrote, reply);
    }
    Ran { desk, line, wrote }
}

// Runs the desk over the input, from a line that may be begun. The answers go to the front of out, while there is room.
#[tactic(auto, unfolding(crate::specs::Run::run_of))]
pub fn run(desk: BatchDesk, line: Line, input: &[u8], out: &mut [u8]) -> Ran
    ensures { running out.new (kept_of result.desk) result.line result.wrote ≡ run_of (kept_of desk) line input.now out.old }
{
    run_at(desk, line, input, out, 0)
}

// At the end of the input: a line of one byte or more that is not ended is ended, and so run and answered.
pub fn finish(desk: BatchDesk, line: Line, out: &mut [u8], at: usize) -> Ran
    ensures { running out.new (kept_of result.desk) result.line result.wrote ≡ finish_of (kept_of desk) line out.old at }
{
    if line.count == 0 {
        return Ran {
            desk,
            line,
            wrote: at,
        };
    }
    run_at(desk, line, &[b'\n'], out, at)
}
