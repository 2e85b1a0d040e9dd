// The arguments that a line of the input gives, by their place among the words after its colon.

// The arguments, in the order in which `place` has them.
#[derive(Clone, Copy)]
pub(crate) enum Argument {
    Nodes,
    Marks,
    Head,
    Tail,
    Current,
    Prev,
    Next,
    Node,
    OtherHead,
    OtherTail,
    FirstWord,
    FirstMark,
}

// The letter of a line's kind, 0 of an empty line.
pub(crate) fn kind(line: &[u8]) -> u8 {
    line.first().copied().unwrap_or(0)
}

// Which word has an argument, by the kind of a line: a for the first after the colon, a dot if it is not given. A row has the
// arguments in their order. A directory has how many heads and tails there are for head and tail, and the
// first of each for current and prev, and so has a host, with how many numbers it lends for the node; a read has how many bytes
// and how wide a record for the other's head and tail.
fn place(kind: u8, argument: Argument) -> Option<usize> {
    let row = match kind {
        b'n' => b".......a....",
        b's' => b"b...dhjf..l.",
        b'e' | b'f' => b"b.deghikmnp.",
        b'l' => b"bdfg...ikln.",
        b'm' => b"bide...g..tk",
        b'd' => b"bdfhjk....s.",
        b'h' => b"bdfhjk.s..u.",
        b'p' => b"b.de...gi.k.",
        b'a' => b"b.de...g..i.",
        b'i' => b"b.hi.gj...l.",
        b'r' => b"b.deghi.kmo.",
        _ => b"............",
    };
    let letter = row.get(argument as usize).copied()?;
    letter.checked_sub(b'`').map(|word| word as usize)
}

// The number that a word begins with, if there is one. One too great for a usize ends as some number that is not told, where
// `parse` would end as none.
fn digits(word: &[u8]) -> Option<usize> {
    let end = word
        .iter()
        .position(|b| !b.is_ascii_digit())
        .unwrap_or(word.len());
    if end == 0 {
        return None;
    }
    let value = word.iter().take(end).fold(0usize, |n, b| {
        (n % 1844674407370955162 * 10).wrapping_add((*b % 16) as usize)
    });
    Some(value)
}

// An argument, or the number so many words after it, if it is given.
pub(crate) fn number(line: &[u8], argument: Argument, after: usize) -> Option<usize> {
    let word = place(kind(line), argument)?.checked_add(after)?;
    let colon = line.iter().position(|b| *b == b':')?;
    digits(line[colon..].split(|b| *b == b' ').nth(word)?)
}
