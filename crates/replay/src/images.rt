// Images, for the carver, and names, to be decoded.
use crate::texts::write_text;
use mft_carver::{ENTRY_WORDS, MftCarvingStats, carve_mft_entries};
use recording::lines::{write_count, write_field, write_refused};
use std::io;
use std::io::Write;
use utf16::decode_utf16;

// The source of a name in the image; any number but the journal's 0 is.
const IMAGE: u64 = 1;

pub(crate) fn carve<W: Write>(out: &mut W, image: &[u8]) -> io::Result<()> {
    let mut list = [0u64; 576];
    match carve_mft_entries(image, &mut list) {
        Ok(stats) => {
            write_stats(out, stats)?;
            for entry in list.chunks_exact(ENTRY_WORDS).take(stats.entries_carved) {
                write_entry(out, image, entry)?;
            }
            Ok(())
        }
        Err(refusal) => write_refused(out, refusal.number()),
    }
}

fn write_stats<W: Write>(out: &mut W, stats: MftCarvingStats) -> io::Result<()> {
    write_count(out, b"entries ", stats.entries_carved as u64)?;
    write_count(out, b" candidates ", stats.candidates_examined)?;
    write_count(out, b" rejected ", stats.rejected)?;
    write_count(out, b" bytes ", stats.bytes_scanned as u64)?;
    out.write_all(b"\n")
}

// A line: an entry, whose words these are.
fn write_entry<W: Write>(out: &mut W, image: &[u8], words: &[u64]) -> io::Result<()> {
    let &[
        offset,
        number,
        sequence,
        name,
        length,
        parent,
        parent_sequence,
        directory,
        in_use,
    ] = words
    else {
        return Ok(());
    };
    for field in [
        offset,
        number,
        sequence,
        parent,
        parent_sequence,
        directory,
        in_use,
    ] {
        write_field(out, field)?;
    }
    write_place(out, image, name, length)
}

// The text of the name at a place of the image, with the true ends of its entry's sectors.
fn write_place<W: Write>(out: &mut W, image: &[u8], offset: u64, length: u64) -> io::Result<()> {
    let mut text = [0u8; 1024];
    let decoded = path_text::decode(&image[..0], image, IMAGE, offset, length, &mut text);
    write_text(out, &text, decoded)
}

// A name's text.
pub(crate) fn decode<W: Write>(out: &mut W, name: &[u8]) -> io::Result<()> {
    let mut text = [0u8; 1024];
    let decoded = decode_utf16(name, &mut text);
    write_text(out, &text, decoded)
}
