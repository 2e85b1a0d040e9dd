// The desk as a program: command lines from standard input, of any length, to answers on standard output. What a read brings is
// run and its answers are written before the next read. A desk, a block of input and a block of answers are all that it keeps.
// A read or a write that fails ends it, and is told in one line on standard error.
#![tactic(auto)]

ghost use Rattle.std.specs.Prelude.{◌≡◌, ℕ, IfOk, drop};
ghost use Rattle.batch_desk.specs.Step.{kept_of};
ghost use Rattle.batch_desk.specs.Run.{running, run_of, finish_of};

use batch_desk::{BatchDesk, Ran};
use lines::line::Line;
use std::io::{self, ErrorKind, Read, Stdout, Write};
use std::process::ExitCode;

// A read of 65,536 bytes ends at most as many lines, of eleven answer bytes each.
const ROOM: usize = 720896;

// Where a run goes on: the desk, and the line that is not ended yet.
#[derive(Clone, Copy)]
struct Next {
    desk: BatchDesk,
    line: Line,
}

// What ended the run before its input: a read or a write that failed.
#[derive(Clone, Copy)]
enum Failure {
    Read(io::Error),
    Write(io::Error),
}

// A read or a write that answered this moved nothing only because a signal came.
fn interrupted(error: &io::Error) -> bool {
    error.kind() == ErrorKind::Interrupted
}

// One write of the bytes, of which it may take a part: the bytes that are left.
fn put(mut output: Stdout, bytes: &[u8]) -> io::Result<&[u8]>
    ensures { IfOk result (λ left. (n : ℕ) × (left.now ≡ drop n bytes.now)) }
{
    match output.write(bytes) {
        Ok(0) => Err(io::Error::from(ErrorKind::WriteZero)),
        Ok(n) => Ok(&bytes[n..]),
        Err(e) if interrupted(&e) => Ok(bytes),
        Err(e) => Err(e),
    }
}

// Writes all of the bytes. (`write_all` gives up after so many signals in a row.) The bound of the loop is never met, nor is the
// error after it: a loop without one needs leave to wait.
fn send(output: Stdout, bytes: &[u8]) -> io::Result<()> {
    let mut left = bytes;
    for _ in 0..u64::MAX {
        if left.is_empty() {
            return Ok(());
        }
        left = put(output, left)?;
    }
    Err(io::Error::from(ErrorKind::TimedOut))
}

// Writes what was answered, all of it.
fn answered(output: Stdout, out: &[u8], wrote: usize) -> Result<(), Failure> {
    match out.get(..wrote) {
        Some(answers) => send(output, answers).map_err(Failure::Write),
        None => Err(Failure::Write(io::Error::from(ErrorKind::WriteZero))),
    }
}

// What was read is run from where the run goes on, and answered in front.
fn run(at: Next, input: &[u8], out: &mut [u8; ROOM]) -> Ran
    ensures { running out.new (kept_of result.desk) result.line result.wrote ≡ run_of (kept_of at.desk) at.line input.now out.old }
{
    batch_desk::run(at.desk, at.line, input, out)
}

// The answer to a line that is not ended when the input is, in front.
fn finish(at: Next, out: &mut [u8; ROOM]) -> Ran
    ensures { running out.new (kept_of result.desk) result.line result.wrote ≡ finish_of (kept_of at.desk) at.line out.old 0 }
{
    batch_desk::finish(at.desk, at.line, out, 0)
}

// One read and its answers; at the end of the input, the answer to a line that is not ended, and nothing is next. A read that
// failed ends the run, unless a signal came. The line that is not ended is not run then.
fn turn(rt: HostRuntime, at: Next, out: &mut [u8; ROOM]) -> Result<Option<Next>, Failure> {
    let mut buf = [0u8; 65536];
    let n = match rt.stdin().read(&mut buf) {
        Ok(n) => n,
        Err(e) if interrupted(&e) => return Ok(Some(at)),
        Err(e) => return Err(Failure::Read(e)),
    };
    if n == 0 {
        let r = finish(at, out);
        answered(rt.stdout(), out, r.wrote)?;
        return Ok(None);
    }
    let r = run(at, &buf[..n], out);
    answered(rt.stdout(), out, r.wrote)?;
    Ok(Some(Next {
        desk: r.desk,
        line: r.line,
    }))
}

// The whole run. The bound of the loop is never met, as in `send`.
fn answer(rt: HostRuntime) -> Result<(), Failure> {
    let mut out = [0u8; ROOM];
    let mut at = Next {
        desk: batch_desk::fresh(),
        line: Line::new(),
    };
    for _ in 0..u64::MAX {
        match turn(rt, at, &mut out)? {
            Some(next) => at = next,
            None => return Ok(()),
        }
    }
    Ok(())
}

// The system's words for an error, without the number that std sets after them.
fn without_number(text: &str) -> &str {
    text.split_once(" (os error ")
        .map_or(text, |(words, _)| words)
}

// Tells in one line on standard error what failed, and why.
fn tell(rt: HostRuntime, what: &str, error: io::Error) -> io::Result<()> {
    let text = format!(in rt.alloc(); "{error}")?;
    let reason = without_number(text.as_str());
    eprintln!(rt; "desk: {what}: {reason}")
}

fn main(rt: HostRuntime) -> ExitCode {
    let told = match answer(rt) {
        Ok(()) => return ExitCode::SUCCESS,
        Err(Failure::Read(e)) => tell(rt, "reading standard input", e),
        Err(Failure::Write(e)) => tell(rt, "writing standard output", e),
    };
    // Where standard error fails too, only the status is left to tell.
    let _ = told;
    ExitCode::FAILURE
}
