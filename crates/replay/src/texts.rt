// A line with a text, or why there is none.
use base::refusal::Refusal;
use recording::lines::{write_hex, write_refused};
use std::io;
use std::io::Write;

// A line: the text that decoding wrote to the front of a slice, or its refusal.
pub(crate) fn write_text<W: Write>(
    out: &mut W,
    text: &[u8],
    decoded: Result<usize, Refusal>,
) -> io::Result<()> {
    match decoded {
        Ok(n) => write_hex(out, text, n),
        Err(refusal) => write_refused(out, refusal.number()),
    }
}
