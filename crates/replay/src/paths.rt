// The calls of a program: insertions, seedings, paths and stored names.
ghost use Rattle.std.specs.Prelude.{◌≤◌, length};

use crate::texts::write_text;
use base::refusal::Refusal;
use entry_slots::{EntryInfo, EntryKey, NamePlace};
use recording::lines::{write_count, write_refused};
use std::io;
use std::io::Write;
use usn_record::bytes::le_u64;

// The key that a case begins with.
pub(crate) fn key_in(words: &[u8]) -> EntryKey {
    EntryKey {
        entry: le_u64(words, 0),
        sequence: le_u64(words, 8),
    }
}

// What an insertion says of its key.
pub(crate) fn info_in(words: &[u8]) -> EntryInfo {
    EntryInfo {
        parent: EntryKey {
            entry: le_u64(words, 16),
            sequence: le_u64(words, 24),
        },
        name: NamePlace {
            source: le_u64(words, 32),
            offset: le_u64(words, 40),
            length: le_u64(words, 48),
        },
    }
}

// A line with the used slots, which are answered; where the call is refused they stay.
pub(crate) fn stored<W: Write>(
    out: &mut W,
    answer: Result<usize, Refusal>,
    used: usize,
) -> io::Result<usize> {
    match answer {
        Ok(n) => {
            write_count(out, b"used ", n as u64)?;
            out.write_all(b"\n")?;
            Ok(n)
        }
        Err(refusal) => {
            write_refused(out, refusal.number())?;
            Ok(used)
        }
    }
}

// The words of a case as carved entries.
pub(crate) fn seed(
    journal: &[u8],
    image: &[u8],
    words: &[u8],
    used: usize,
    slots: &mut [u64],
) -> Result<usize, Refusal> {
    let mut list = [0u64; 1024];
    let n = read_words(words, &mut list);
    entry_table::seed(journal, image, slots, used, &list[..n])
}

// The words of a case into a list, as many as it takes, and how many these are.
fn read_words(bytes: &[u8], list: &mut [u64]) -> usize
    ensures { result ≤ length list.new }
{
    let n = (bytes.len() / 8).min(list.len());
    for (word, bytes) in list.iter_mut().zip(bytes.chunks_exact(8)) {
        *word = le_u64(bytes, 0);
    }
    n
}

// A line with the text of a key's path.
pub(crate) fn write_path<W: Write>(
    out: &mut W,
    journal: &[u8],
    image: &[u8],
    words: &[u8],
    used: usize,
    slots: &[u64],
) -> io::Result<()> {
    let mut chain = [0u64; 771];
    let mut text = [0u8; 8192];
    let key = key_in(words);
    let answer = path::path(journal, image, slots, used, key, &mut chain, &mut text);
    write_text(out, &text, answer.map(|written| written.text))
}

// A line with the text of a stored name.
pub(crate) fn write_name<W: Write>(
    out: &mut W,
    journal: &[u8],
    image: &[u8],
    words: &[u8],
) -> io::Result<()> {
    let mut text = [0u8; 8192];
    let source = le_u64(words, 0);
    let offset = le_u64(words, 8);
    let length = le_u64(words, 16);
    let decoded = path_text::decode(journal, image, source, offset, length, &mut text);
    write_text(out, &text, decoded)
}
