// The answer to a line, from what its command came to.
#![tactic(auto)]

ghost use Rattle.std.specs.Prelude.{◌≡◌};
ghost use Rattle.desk.specs.Reply.{shown, reply_to, reply_to_audit, reply_unread};

use answers::Refusal;
use audit::Audited;
use desk::Worked;
use lines::answer::Reply;
use words::names::Node;

// The field for no node: ffff.
const NO_NODE: u32 = 0xffff;

// The field for a node, if there is one.
fn shown(found: Option<Node>) -> u32
    ensures { result ≡ shown found }
{
    found.map_or(NO_NODE, |node| node.0)
}

// To a command on lists, in a pool of this many: the node under the named list's cursor, and the node handed out.
#[tactic(auto, unfolding(desk::specs::Reply::reply_to))]
pub fn to_work(len: usize, w: Worked) -> Reply
    ensures { result ≡ reply_to len w }
{
    Reply {
        number: answers::number(w.answer),
        first: shown(w.named.cursor.node(len)),
        second: shown(answers::handed(w.answer)),
    }
}

// To an audit: nodes on lists, and stranded nodes.
#[tactic(auto, unfolding(desk::specs::Reply::reply_to_audit, desk::specs::Reply::reply_unread))]
pub fn to_audit(a: Audited) -> Reply
    ensures { result ≡ reply_to_audit a }
{
    if let Err(refusal) = a.answer {
        return unread(refusal);
    }
    Reply {
        number: 0,
        first: a.on_lists,
        second: a.stranded,
    }
}

// To a line that comes to no command on a list: 1, 2, 11.
#[tactic(auto, unfolding(desk::specs::Reply::reply_unread))]
pub fn unread(refusal: Refusal) -> Reply
    ensures { result ≡ reply_unread refusal }
{
    Reply {
        number: refusal.number(),
        first: NO_NODE,
        second: NO_NODE,
    }
}
