// Slices, for the parsers, and journals, for the three readers. The Rust was given full reads; here the window is given five bytes at a
// time.
ghost use Rattle.std.specs.Prelude.{◌≡◌, ◌≤◌, length};

use base::refusal::Refusal;
use recording::lines::{write_count, write_field, write_record, write_refused};
use std::io;
use std::io::Write;
use usn_carver::{CarvingStats, carve_usn_records};
use usn_record::{UsnRecord, listed_record};
use usn_scan::parse_usn_journal;
use usn_window::{Answer, UsnJournalReader};

// The words of a place in a reader's list.
const PLACE_WORDS: usize = 2;

// A line: the record that a slice begins with, or that the parser gives an error.
pub(crate) fn write_parsed<W: Write>(
    out: &mut W,
    parsed: Result<UsnRecord, Refusal>,
    slice: &[u8],
) -> io::Result<()> {
    match parsed {
        Ok(record) => write_record(out, record, slice),
        Err(_) => out.write_all(b"error\n"),
    }
}

pub(crate) fn scan<W: Write>(out: &mut W, journal: &[u8]) -> io::Result<()> {
    let mut list = [0usize; 128];
    match parse_usn_journal(journal, &mut list) {
        Ok(n) => {
            write_records_line(out, n)?;
            for place in list.chunks_exact(PLACE_WORDS).take(n) {
                write_at(out, journal, place[0])?;
            }
            Ok(())
        }
        Err(refusal) => write_refused(out, refusal.number()),
    }
}

pub(crate) fn carve<W: Write>(out: &mut W, journal: &[u8]) -> io::Result<()> {
    let mut list = [0usize; 128];
    match carve_usn_records(journal, &mut list) {
        Ok(stats) => {
            write_stats(out, stats)?;
            for place in list.chunks_exact(PLACE_WORDS).take(stats.records_carved) {
                write_field(out, place[0] as u64)?;
                write_at(out, journal, place[0])?;
            }
            Ok(())
        }
        Err(refusal) => write_refused(out, refusal.number()),
    }
}

fn write_records_line<W: Write>(out: &mut W, n: usize) -> io::Result<()> {
    write_count(out, b"records ", n as u64)?;
    out.write_all(b"\n")
}

fn write_stats<W: Write>(out: &mut W, stats: CarvingStats) -> io::Result<()> {
    write_count(out, b"records ", stats.records_carved as u64)?;
    write_count(out, b" candidates ", stats.candidates_examined)?;
    write_count(out, b" timestamp ", stats.rejected_timestamp)?;
    write_count(out, b" structure ", stats.rejected_structure)?;
    out.write_all(b"\n")
}

// A line: the record at an offset.
fn write_at<W: Write>(out: &mut W, journal: &[u8], offset: usize) -> io::Result<()> {
    match listed_record(journal, offset) {
        Ok(record) => match journal.get(offset..) {
            Some(bytes) => write_record(out, record, bytes),
            None => Ok(()),
        },
        Err(refusal) => write_refused(out, refusal.number()),
    }
}

// Room for the window.
fn window_room() -> [u8; 65536]
    ensures { 65536 ≡ length result }
{
    [0; 65536]
}

// The window's records are counted in one run and written in another.
pub(crate) fn window<W: Write>(out: &mut W, journal: &[u8]) -> io::Result<()> {
    let mut buffer = window_room();
    let n = run_window(journal, &mut buffer, |_, _| Ok(()))?;
    write_records_line(out, n)?;
    run_window(journal, &mut buffer, |record, bytes| {
        write_record(out, record, bytes)
    })?;
    Ok(())
}

// How many records the window gives of a journal, in at most so many calls; each is visited, with the buffer that its name lies in.
fn run_window<F: FnMut(UsnRecord, &[u8]) -> io::Result<()>>(
    journal: &[u8],
    buffer: &mut [u8],
    mut visit: F,
) -> io::Result<usize>
    requires { F.IsAlwaysCallable visit }
{
    let mut reader = UsnJournalReader::new(journal.len());
    let mut records: usize = 0;
    for _ in 0..100000 {
        let reading = reader.next(buffer);
        reader = reading.reader;
        match reading.answer {
            Ok(Answer::Record { record, .. }) => {
                records = records.saturating_add(1);
                visit(record, buffer)?;
            }
            Ok(Answer::Wants { from, bytes }) => {
                reader = give_some(reader, buffer, journal, from, bytes);
            }
            Ok(Answer::End) => return Ok(records),
            Err(_) => return Ok(records),
        }
    }
    Ok(records)
}

// Gives at most five of the bytes that are wanted.
fn give_some(
    reader: UsnJournalReader,
    buffer: &mut [u8],
    journal: &[u8],
    from: usize,
    bytes: usize,
) -> UsnJournalReader {
    match journal.get(from..) {
        Some(rest) => {
            let few = bytes.min(5).min(rest.len());
            reader.give(buffer, &rest[..few]).reader
        }
        None => reader,
    }
}
