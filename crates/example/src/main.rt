// The example of README: a list over ten words of its own.
#![tactic(auto)]

use std::io::{self, Stdout};
use xor_linked_list::{Node, XorLinkedList};

// Writes a label and a node's number, or that there is none.
fn show(out: Stdout, label: &str, found: Option<Node>) -> io::Result<()> {
    match found {
        Some(Node(number)) => println!(out; "{label}{number}"),
        None => println!(out; "{label}none"),
    }
}

fn main(rt: HostRuntime) -> io::Result<()> {
    let out = rt.stdout();
    // Each word is 1: no node is linked.
    let mut words = [1u32; 10];
    let list = XorLinkedList::new().push_back(&mut words, Node(5));
    let list = list.push_back(&mut words, Node(7));
    // 5 7. The cursor is at null, and moves to 5.
    let c = list.cursor().move_next(&words);
    // 5 9 7. The cursor stays at 5.
    let c = c.insert_after(&mut words, Node(9));
    // 9 7. Node 5 is handed out, unlinked, and the cursor is at 9.
    let c = c.remove(&mut words);
    show(out, "handed out ", c.handed())?;
    show(out, "at ", c.node(10))?;
    // Node 7 is linked already: refused, and nothing has changed.
    let c = c.insert_after(&mut words, Node(7));
    let number = c.number();
    println!(out; "refused {number}")?;
    show(out, "at ", c.node(10))
}
