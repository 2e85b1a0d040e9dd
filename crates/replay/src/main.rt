// The kept answers of the source crate, replayed on the lent desk: command lines from standard input, each with its line
// feed, run on 1,024 nodes and eight lists that are arrays of this program. host/sample made the lines and the answers.
#![tactic(auto)]

use lines::answer::{Reply, put_answer};
use std::io::{self, Read, Stdout};

// Writes the eleven bytes of an answer.
fn send(out: Stdout, reply: Reply) -> io::Result<()> {
    let mut answer = [0u8; 11];
    put_answer(&mut answer, reply.number, reply.first, reply.second);
    out.write_all(&answer)
}

// All lines, from a fresh desk: every node is free, every list empty, every cursor null.
fn replay(out: Stdout, input: &[u8]) -> io::Result<()> {
    let mut words = [1u32; 1024];
    let mut lists = [0u32; 40];
    let mut marks = [0u8; 1024];
    for line in input.split_inclusive(|b| *b == b'\n') {
        // What stands after the last line feed is no line.
        if let Some(line) = line.strip_suffix(b"\n") {
            send(
                out,
                lent_desk::step_bytes(&mut words, &mut lists, &mut marks, line),
            )?;
        }
    }
    Ok(())
}

// Of the input the first 65,536 bytes are read.
fn main(rt: HostRuntime) -> io::Result<()> {
    let mut input = Vec::new(rt.alloc());
    rt.stdin().take(65536).read_to_end(&mut input)?;
    replay(rt.stdout(), input.as_slice())
}
