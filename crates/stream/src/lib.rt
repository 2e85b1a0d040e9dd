// Input and answers in pieces: the rest of a line from a place of the input, and an answer at a place of the answer bytes.
#![tactic(auto)]

ghost use Rattle.std.specs.Prelude.{◌≡◌, drop};
ghost use Rattle.stream.specs.Stream.{placing, placed_at, take_from};

use lines::answer::Reply;
use lines::line::Line;

// The rest of a line: where it ended, the line feed is taken too. (No Option: the line and the place are told either way.)
#[derive(Clone, Copy, PartialEq, Eq)]
pub struct Took {
    pub line: Line,
    pub next: usize,
    pub ended: bool,
}

// Writes an answer at a place, if there is room for it, and gives the place after it. (By `get_mut` and `first_chunk_mut` the proof
// did not close.)
pub fn put_reply(out: &mut [u8], at: usize, reply: Reply) -> usize
    ensures { placing out.new result ≡ placed_at out.old at reply }
{
    let room = out.len().saturating_sub(at);
    if room < 11 {
        return at;
    }
    let end = at + 11;
    lines::answer::put_answer(&mut out[at..end], reply.number, reply.first, reply.second);
    end
}

// The rest of a line, one byte after another, up to a line feed or to the end.
fn take_bytes(input: &[u8], at: usize, before: Line) -> Took
    ensures { result ≡ take_from before at (drop at input.now) }
{
    let mut line = before;
    for i in at..input.len() {
        if input[i] == b'\n' {
            return Took {
                line,
                next: i + 1,
                ended: true,
            };
        }
        line = line.feed(input[i]);
    }
    Took {
        line,
        next: at.max(input.len()),
        ended: false,
    }
}

// The same. Where a line feed stands ten bytes on, and ten digits before it make a line, they are taken at once. (By a pattern on
// `split_at_checked(10)` a run was slower by a tenth.)
pub fn take_line(input: &[u8], at: usize, before: Line) -> Took
    ensures { result ≡ take_from before at (drop at input.now) }
{
    if at < input.len() && 10 < input.len() - at {
        let end = at + 10;
        if input[end] == b'\n' {
            let line = before.feed_all(&input[at..end]);
            if line.count == 10 {
                return Took {
                    line,
                    next: end + 1,
                    ended: true,
                };
            }
        }
    }
    take_bytes(input, at, before)
}
