// Records of the greatest pool, and of one more; of the greatest width, and of one more. Nodes 999999 and 4095 are each alone on
// a list.
use crate::text;
use cursor::Cursor;
use ends::Ends;
use std::io::{self, Stdout};
use words::link_ops::LinkOps;
use words::names::Name;

// Bytes that tell the records of those nodes apart: of width 1, and of width 256.
fn stamp(records: &mut [u8; 1052672]) {
    records[999999] = 1;
    records[1048320] = 2;
    records[1048575] = 3;
}

// What a test answers, how long the part is, and its first and last byte if there is one.
fn shown(out: Stdout, test: u32, part: &[u8]) -> io::Result<()> {
    match (part.first(), part.last()) {
        (Some(first), Some(last)) => println!(out; "{test} {} {first} {last}", part.len()),
        _ => println!(out; "{test} 0"),
    }
}

// A read at the lone node of a list, with this many nodes and bytes of records.
fn read(
    out: Stdout,
    all: &[u32],
    space: &[u8; 1052672],
    nodes: usize,
    len: usize,
    width: usize,
    head: u32,
    tail: u32,
) -> io::Result<()> {
    let words = text::first(all, nodes);
    let records = text::first(space, len);
    let ends = Ends::new(Name(head), Name(tail));
    let cursor = Cursor::new(Name(head), Name(0), Name(0));
    let test = match records::read_test(cursor, words, ends, records, width) {
        Ok(()) => 0,
        Err(refusal) => refusal.number(),
    };
    print!(out; "read: nodes {nodes}; records {len}; width {width}: ")?;
    shown(
        out,
        test,
        records::read(cursor, words, ends, records, width),
    )
}

// The reads. In the second all but the sizes is wrong too.
fn reads(out: Stdout, words: &[u32], space: &[u8; 1052672]) -> io::Result<()> {
    read(out, words, space, 1000000, 1000000, 1, 2000000, 2000000)?;
    read(out, words, space, 1000001, 1000001, 1, 3, 0)?;
    read(out, words, space, 1000001, 1000001, 1, 2000000, 2000000)?;
    read(out, words, space, 4096, 1048576, 256, 8192, 8192)?;
    read(out, words, space, 4096, 1048575, 256, 8192, 8192)?;
    read(out, words, space, 4097, 1048832, 256, 8192, 8192)?;
    read(out, words, space, 4096, 1052672, 257, 8192, 8192)
}

pub(crate) fn run(out: Stdout, words: &mut [u32]) -> io::Result<()> {
    words.fill(1);
    LinkOps::put(words, Name(2000000), 0);
    LinkOps::put(words, Name(8192), 0);
    let mut space = [7u8; 1052672];
    stamp(&mut space);
    reads(out, words, &space)
}
