// The entry for a host in C: command bytes in, answer bytes out, from a fresh desk at each call.
#![tactic(auto)]

ghost use Rattle.std.specs.Prelude.{◌≡◌, length};
ghost use Rattle.lines.specs.Inputs.{lines_of};
ghost use Rattle.rewzhanok.specs.Entry.{entered, entry_of};

use batch_desk::{finish, fresh, run};
use lines::line::Line;

// The most bytes that a call takes, and what it returns for refusal 12.
const INPUT_LIMIT: usize = 65536;

const REFUSED: u32 = u32::MAX;

// How many lines an input has.
fn count_lines(commands: &[u8]) -> usize
    ensures { result ≡ length (lines_of commands.now) }
{
    let mut lines = 0;
    let mut begun = false;
    for byte in commands {
        let feed = *byte == b'\n';
        lines += usize::from(feed);
        begun = !feed;
    }
    lines + usize::from(begun)
}

// Runs the commands and writes eleven bytes a line to the answers. Returns how many bytes it wrote, or refuses 12 and writes nothing.
pub fn rewzhanok_run(commands: &[u8], answers: &mut [u8]) -> u32
    ensures { entered answers.new result ≡ entry_of commands.now answers.old }
{
    if INPUT_LIMIT < commands.len() {
        return REFUSED;
    }
    if answers.len() < 11 * count_lines(commands) {
        return REFUSED;
    }
    let s = run(fresh(), Line::new(), commands, answers);
    let end = finish(s.desk, s.line, answers, s.wrote);
    end.wrote as u32
}
