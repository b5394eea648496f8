// Rewinds: the records of a journal, over the entries of an image.
use mft_carver::{ENTRY_WORDS, carve_mft_entries};
use recording::lines::{write_count, write_hex, write_refused};
use rewind::{Rewind, rewind_next, rewind_start};
use std::io;
use std::io::Write;
use usn_scan::parse_usn_journal;

// The words of a record in the scan's list.
const PLACE_WORDS: usize = 2;

// Scans the journal, and rewinds what is found.
pub(crate) fn rewind_journal<W: Write>(
    out: &mut W,
    journal: &[u8],
    image: &[u8],
) -> io::Result<()> {
    let mut list = [0usize; 600];
    match parse_usn_journal(journal, &mut list) {
        Ok(n) => rewind_listed(out, journal, image, &list, n),
        Err(refusal) => write_refused(out, refusal.number()),
    }
}

// The first n records of a list, over a table that the image's entries are seeded into.
fn rewind_listed<W: Write>(
    out: &mut W,
    journal: &[u8],
    image: &[u8],
    list: &[usize],
    n: usize,
) -> io::Result<()> {
    if list.len() / PLACE_WORDS < n {
        return Ok(());
    }
    let records = &list[..n * PLACE_WORDS];
    let mut slots = [0u64; 2100];
    let used = seed_carved(out, journal, image, &mut slots)?;
    write_count(out, b"records ", n as u64)?;
    rewind_records(out, journal, image, records, &mut slots, used)
}

// Carves the image; the used slots after its entries.
fn seed_carved<W: Write>(
    out: &mut W,
    journal: &[u8],
    image: &[u8],
    slots: &mut [u64],
) -> io::Result<usize> {
    let mut entries = [0u64; 576];
    match carve_mft_entries(image, &mut entries) {
        Ok(stats) => seed_first(out, journal, image, &entries, stats.entries_carved, slots),
        Err(refusal) => {
            write_refused(out, refusal.number())?;
            Ok(0)
        }
    }
}

// The first n entries of a list into the empty table.
fn seed_first<W: Write>(
    out: &mut W,
    journal: &[u8],
    image: &[u8],
    entries: &[u64],
    n: usize,
    slots: &mut [u64],
) -> io::Result<usize> {
    if entries.len() / ENTRY_WORDS < n {
        return Ok(0);
    }
    match entry_table::seed(journal, image, slots, 0, &entries[..n * ENTRY_WORDS]) {
        Ok(used) => Ok(used),
        Err(refusal) => {
            write_refused(out, refusal.number())?;
            Ok(0)
        }
    }
}

// The start, the used slots after it, and a line for each record.
fn rewind_records<W: Write>(
    out: &mut W,
    journal: &[u8],
    image: &[u8],
    records: &[usize],
    slots: &mut [u64],
    used: usize,
) -> io::Result<()> {
    let mut forward = [0u64; 2100];
    match rewind_start(journal, image, records, slots, used, &mut forward) {
        Ok(rewind) => {
            write_count(out, b" used ", rewind.used as u64)?;
            out.write_all(b"\n")?;
            write_paths(out, journal, image, records, rewind, &mut forward)
        }
        Err(refusal) => write_refused(out, refusal.number()),
    }
}

// A line with the path of each record, and no more steps than there are records.
fn write_paths<W: Write>(
    out: &mut W,
    journal: &[u8],
    image: &[u8],
    records: &[usize],
    begun: Rewind,
    forward: &mut [u64],
) -> io::Result<()> {
    let mut rewind = begun;
    for _ in records {
        let mut chain = [0u64; 771];
        let mut text = [0u8; 8192];
        let step = rewind_next(
            journal, image, records, rewind, forward, &mut chain, &mut text,
        );
        rewind = step.rewind;
        match step.next {
            Ok(Some(written)) => write_hex(out, &text, written.text)?,
            Ok(None) => return Ok(()),
            Err(refusal) => return write_refused(out, refusal.number()),
        }
    }
    Ok(())
}
