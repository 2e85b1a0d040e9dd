// An answer: a number and two fields, as two, four and four hexadecimal digits and a line feed.
ghost use Rattle.std.specs.Prelude.{◌≡◌};
ghost use Rattle.lines.specs.Answers.{hex_of, put_answer};

// The answer to a line: its number and its two fields. (Numbers, as the eleven bytes have them: 0 is done, and ffff no node.)
#[derive(Clone, Copy, PartialEq, Eq)]
pub struct Reply {
    pub number: u32,
    pub first: u32,
    pub second: u32,
}

// The lower-case hexadecimal digit of a number below 16; what is above counts by its remainder. (No `{:x}`: an answer is
// written a million times a run.)
#[tactic(auto, unfolding(crate::specs::Answers::hex_of))]
pub fn hex(n: u32) -> u8
    ensures { result ≡ hex_of n }
{
    let d = n % 16;
    if d < 10 {
        return (d + b'0' as u32) as u8;
    }
    (d - 10 + b'a' as u32) as u8
}

// Writes an answer to the front of what is lent, if there is room for its eleven bytes.
#[tactic(auto, unfolding(crate::specs::Answers::put_answer, crate::specs::Answers::answer_line))]
pub fn put_answer(out: &mut [u8], number: u32, first: u32, second: u32)
    ensures { out.new ≡ put_answer out.old number first second }
{
    if let Some(front) = out.first_chunk_mut::<11>() {
        *front = [
            hex(number / 16),
            hex(number),
            hex(first / 4096),
            hex(first / 256),
            hex(first / 16),
            hex(first),
            hex(second / 4096),
            hex(second / 256),
            hex(second / 16),
            hex(second),
            b'\n',
        ];
    }
}
