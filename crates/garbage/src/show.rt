// Printing: what a call hands back, by a text that says how, on standard output.
use crate::show_pool;
use crate::values::Values;
use std::io::{self, Stdout};

// In the text # is the next of the values, = the words, % the marks.
pub(crate) fn line(
    out: Stdout,
    text: &str,
    values: &Values,
    case: &[u8],
    words: &[u32],
    marks: &[u8],
) -> io::Result<()> {
    let mut left = values.iter();
    for b in text.as_bytes() {
        match b {
            b'#' => {
                if let Some(value) = left.next() {
                    print!(out; "{value}")?;
                }
            }
            b'=' => show_pool::left(out, case, words)?,
            b'%' => show_pool::numbers(out, marks)?,
            _ => out.write_all(&[*b])?,
        }
    }
    Ok(())
}
