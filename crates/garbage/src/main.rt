// Every public call, on arguments of any value. Each line of standard input is a case: a word whose first letter says
// which calls are tried, a label, a colon, and the arguments as decimal numbers with what names them; # starts a line
// that is no case. The line is written again, and under it one line a call: the number that it answers, the node that it
// hands out, the ends and the cursor that it hands back, and the words that it leaves, `same` if none changed. The
// expected output was worked out from the paper that sets the rules, by a model of its own, and not from a run.
#![tactic(auto)]

mod args;
mod changes;
mod directory;
mod entries;
mod line;
mod marks;
mod plain;
mod reads;
mod run;
mod show;
mod show_pool;
mod values;

use std::io::{self, Read, Stdout};

fn cases(out: Stdout, input: &[u8]) -> io::Result<()> {
    for case in input.split_inclusive(|b| *b == b'\n') {
        // What stands after the last line feed is no case.
        if case.ends_with(b"\n") {
            out.write_all(case)?;
            run::run(out, case)?;
        }
    }
    Ok(())
}

// What takes no argument is tried first. Of the input the first 65,536 bytes are read.
fn main(rt: HostRuntime) -> io::Result<()> {
    let out = rt.stdout();
    run::run(out, b"0")?;
    let mut input = Vec::new(rt.alloc());
    rt.stdin().take(65536).read_to_end(&mut input)?;
    cases(out, input.as_slice())
}
